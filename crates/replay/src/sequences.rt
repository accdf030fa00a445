// A sequence of calls, a line each, carried out by the port on one tape and compared line by line.
use crate::calls::{Call, Places, Task};
use crate::carry_out::carry_out;
use crate::kinds::Kind;
use crate::list::List;
use crate::machine::{CAPACITY, Machine, NO_CHILD, NO_COUNT, SLOTS, UNLIKELY};
use crate::said::Answer;
use crate::subject::Way;
use crate::tally::Aside;
use crate::{calls, garbage};
use tape::{NodesMut, Tape};

// How far a sequence has come. What comes after a line that differs or is no call is left out, since the two tapes may
// be unlike from there on.
#[derive(Clone, Copy)]
pub enum Stage {
    // Another call may come.
    Going,
    Ended,
    // With this call, refused for a stale handle as it has to be.
    EndedStale(Task),
    Broken,
}

#[derive(Drop)]
pub struct Run<'a> {
    pub way: Way,
    pub machine: Machine<'a>,
    places: &'a mut Places,
    pub stage: Stage,
}

pub(crate) fn replay<R: Print>(list: &mut List<'_, R>, way: Way, lines: &[u8]) {
    let mut places = Places::new();
    let machine = Machine {
        tape: Tape::new(),
        nodes: NodesMut {
            value: &mut [UNLIKELY; CAPACITY],
            serial: &mut [1; CAPACITY],
            count: &mut [NO_COUNT; CAPACITY],
            child: &mut [NO_CHILD; SLOTS],
            partial: &mut [UNLIKELY; SLOTS],
        },
        adjoint: &mut [UNLIKELY; CAPACITY],
    };
    let mut run = Run {
        way,
        machine,
        places: &mut places,
        stage: Stage::Going,
    };
    let lines = lines.strip_suffix(b"\n").unwrap_or(lines);
    for line in lines.split(|&byte| byte == b'\n') {
        run.line(list, line);
    }
    garbage::replay(list, &mut run);
    run.finish(list);
}

impl Run<'_> {
    fn line<R: Print>(&mut self, list: &mut List<'_, R>, line: &[u8]) {
        list.tally.next_line();
        match self.stage {
            Stage::Going => self.call(list, line),
            // Nothing may follow the end of a sequence that agrees.
            Stage::Ended | Stage::EndedStale(_) => self.malformed(list),
            Stage::Broken => {}
        }
    }

    fn call<R: Print>(&mut self, list: &mut List<'_, R>, line: &[u8]) {
        let Some(call) = calls::read(line, &*self.places) else {
            self.malformed(list);
            return;
        };
        let answer = self.carry_out(list, call);
        let agrees = answer == call.answer;
        let kind = call.counted_as();
        list.tally
            .next_case(kind as usize, agrees, Aside::default());
        if agrees {
            self.stage = after(call);
        } else {
            list.difference(line, &answer);
            self.stage = Stage::Broken;
        }
    }

    // Carries the call out, with the digests after it where the line has them.
    fn carry_out<R: Print>(&mut self, list: &mut List<'_, R>, call: Call) -> Answer {
        let heard = carry_out(&mut self.machine, call.task, self.way, list.tally.lines);
        list.tally.more_slices(heard.slices);
        if let Some(node) = heard.node {
            self.places.keep(node);
        }
        let length = self.machine.tape.length;
        Answer {
            said: heard.said,
            digests: call.answer.digests.map(|_| self.machine.digests(length)),
        }
    }

    fn malformed<R: Print>(&mut self, list: &mut List<'_, R>) {
        list.malformed();
        self.stage = Stage::Broken;
    }

    // The empty line after the sequence has been read. The sequence has to have an end before it.
    fn finish<R: Print>(&mut self, list: &mut List<'_, R>) {
        list.tally.next_line();
        if matches!(self.stage, Stage::Going) {
            self.malformed(list);
        }
        list.tally.next_run(matches!(self.stage, Stage::Broken));
    }
}

// How far the sequence has come with a call that agrees.
fn after(call: Call) -> Stage {
    match call.counted_as() {
        Kind::Stale => Stage::EndedStale(call.task),
        Kind::End => Stage::Ended,
        _ => Stage::Going,
    }
}
