// A list of cases, read from its file piece by piece.
use crate::list::List;
use crate::pending::Pending;
use crate::subject::Subject;
use std::io::Read;
use std::rt::Files;
use std::{fs, io};

// More bytes than any case has, so that one which is cut at so many is none.
const LONGEST: usize = 2_097_152;

// So much is read at a time.
const PIECE: usize = 65_536;

// Replays the list in the file `NAME.txt`.
pub(crate) fn replay<R: Files + Print>(rt: &R, path: &str, subject: Subject) {
    if let Some(name) = path.strip_suffix(".txt") {
        let mut list = List::new(rt, name);
        replay_file::<R>(&mut list, subject, fs::open(rt, path));
    }
}

fn replay_file<R: Files + Print>(
    list: &mut List<'_, R>,
    subject: Subject,
    opened: io::Result<R::File>,
) {
    let Ok(mut file) = opened else {
        list.unreadable();
        return;
    };
    let mut buffer = [0u8; LONGEST];
    replay_all(list, subject, &mut file, &mut buffer);
    list.summary(subject);
}

// A proved loop has to end, and nothing says that a file does. So the turns are counted, up to a number that no run
// uses up.
fn replay_all<R: Print>(
    list: &mut List<'_, R>,
    subject: Subject,
    file: &mut impl Read,
    buffer: &mut [u8],
) {
    let mut case = Pending::new(buffer);
    let mut space = [0u8; PIECE];
    let piece: &mut [u8] = &mut space;
    for _ in 0..u64::MAX {
        let Ok(count) = file.read(piece) else {
            list.unreadable();
            break;
        };
        if count == 0 {
            break;
        }
        replay_piece(list, subject, &piece[..count], &mut case);
    }
    // A last case that is not ended was cut off.
    if !case.is_empty() {
        list.tally.next_line();
        list.malformed();
    }
}

// Replays the cases that end in the piece, and keeps the start of the one that does not.
fn replay_piece<R: Print>(
    list: &mut List<'_, R>,
    subject: Subject,
    piece: &[u8],
    case: &mut Pending<'_>,
) {
    for &byte in piece {
        if subject.is_end(byte, case.bytes()) {
            subject.replay(list, case.bytes());
            case.clear();
        } else {
            case.push(byte);
        }
    }
}
