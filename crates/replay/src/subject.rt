// What a list has cases of.
use crate::forward_kinds::Order;
use crate::kinds::Kind;
use crate::list::List;
use crate::{orders, roots, sequences, table};
use std::fmt;

// Forward numbers, of an order; the operations table of the tape; sequences of calls, or those that end with a stale
// handle, with the passes carried out in a way; square roots alone.
#[derive(Clone, Copy)]
pub enum Subject {
    Forward(Order),
    Table,
    Sequences(Way),
    Stale(Way),
    Roots,
}

// How the passes of a sequence are carried out. An unfinished one lacks its last slice, which has to be told; and so has
// that in the place of garbage there are handles which were issued.
#[derive(Clone, Copy, PartialEq, Eq)]
pub enum Way {
    InOneGo,
    InSlices,
    Unfinished,
    Issued,
}

impl Subject {
    // Carries the case out, reports a difference or that it is no case, and counts it.
    pub(crate) fn replay<R: Print>(self, list: &mut List<'_, R>, case: &[u8]) {
        match self {
            Subject::Forward(order) => orders::replay(list, order, case),
            Subject::Table => table::replay(list, case),
            Subject::Sequences(way) | Subject::Stale(way) => sequences::replay(list, way, case),
            Subject::Roots => roots::replay(list, case),
        }
    }

    // Whether the byte ends the case that is there: a line feed ends a line, and an empty line a sequence.
    pub(crate) fn is_end(self, byte: u8, case: &[u8]) -> bool {
        if byte != b'\n' {
            return false;
        }
        match self {
            Subject::Sequences(_) | Subject::Stale(_) => case.last() == Some(&b'\n'),
            Subject::Forward(_) | Subject::Table | Subject::Roots => true,
        }
    }

    // Whether the report of a list has a line for a kind of the tape's cases: for operations 8 and 9 only where the
    // list has cases of them.
    pub(crate) fn reports(self, kind: Kind, cases: u64) -> bool {
        let is_met = !kind.is_supplied() || cases > 0;
        match self {
            Subject::Forward(_) => false,
            Subject::Table => kind.operation().is_some() && is_met,
            // Where the passes are cut, for them and the stale calls that the list has, made again with garbage too,
            // and no other kind.
            Subject::Sequences(way) if way.is_cut() => {
                (kind.is_pass() || !kind.is_call()) && cases > 0
            }
            Subject::Sequences(_) => kind.is_call() && is_met,
            Subject::Stale(_) => !kind.is_call(),
            Subject::Roots => kind == Kind::Sqrt,
        }
    }

    // How a list's passes are carried out.
    pub(crate) fn way(self) -> Way {
        match self {
            Subject::Sequences(way) | Subject::Stale(way) => way,
            Subject::Forward(_) | Subject::Table | Subject::Roots => Way::InOneGo,
        }
    }
}

impl Way {
    pub(crate) fn is_cut(self) -> bool {
        matches!(self, Way::InSlices | Way::Unfinished)
    }
}

// As it stands after a list's name.
impl fmt::Display for Way {
    fn fmt<W: fmt::Write>(&self, f: &mut fmt::Formatter<W>) -> fmt::Result {
        f.write_str(match *self {
            Way::InOneGo => "",
            Way::InSlices => " in slices",
            Way::Unfinished => " unfinished",
            Way::Issued => " issued",
        })
    }
}
