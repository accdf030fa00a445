// Replays recorded answers of the Rust with the port's own calls, and compares every word of them (docs/REPLAY.md).
#![tactic(auto)]

mod calls;
mod carry_out;
mod comparison;
mod forward_kinds;
mod garbage;
mod kinds;
mod list;
mod lists;
mod machine;
mod nodes;
mod number_words;
mod numbers;
mod orders;
mod pending;
mod roots;
mod said;
mod sequences;
mod slices;
mod subject;
mod table;
mod tally;
mod words;

use forward_kinds::Order;
use lists::replay;
use subject::{Subject, Way};

const IN_ONE_GO: Subject = Subject::Sequences(Way::InOneGo);

const IN_SLICES: Subject = Subject::Sequences(Way::InSlices);

const LISTS: [(&str, Subject); 18] = [
    ("fwd1.txt", Subject::Forward(Order::First)),
    ("fwd2.txt", Subject::Forward(Order::Second)),
    ("fwd3.txt", Subject::Forward(Order::Third)),
    ("fwd4.txt", Subject::Forward(Order::Fourth)),
    ("table.txt", Subject::Table),
    ("sequences.txt", IN_ONE_GO),
    ("sessions.txt", IN_ONE_GO),
    ("stale.txt", Subject::Stale(Way::InOneGo)),
    ("supplied_table.txt", Subject::Table),
    ("supplied_sequences.txt", IN_ONE_GO),
    ("supplied_sessions.txt", IN_ONE_GO),
    ("roots.txt", Subject::Roots),
    ("sequences.txt", IN_SLICES),
    ("sessions.txt", IN_SLICES),
    ("stale.txt", IN_SLICES),
    ("supplied_sequences.txt", IN_SLICES),
    ("supplied_sessions.txt", IN_SLICES),
    // Whole, it has to agree, so that as a control it differs by the last slices alone.
    ("slices_control.txt", IN_SLICES),
];

const CONTROLS: [(&str, Subject); 14] = [
    ("control.txt", Subject::Forward(Order::First)),
    ("table_control.txt", Subject::Table),
    ("sequences_control.txt", IN_ONE_GO),
    ("sessions_control.txt", IN_ONE_GO),
    ("supplied_table_control.txt", Subject::Table),
    ("supplied_sequences_control.txt", IN_ONE_GO),
    ("supplied_sessions_control.txt", IN_ONE_GO),
    ("roots_control.txt", Subject::Roots),
    ("sequences_control.txt", IN_SLICES),
    ("sessions_control.txt", IN_SLICES),
    ("supplied_sequences_control.txt", IN_SLICES),
    ("supplied_sessions_control.txt", IN_SLICES),
    ("slices_control.txt", Subject::Sequences(Way::Unfinished)),
    ("garbage_control.txt", Subject::Stale(Way::Issued)),
];

fn main(rt: HostRuntime) {
    for (path, subject) in LISTS {
        replay(&rt, path, subject);
    }
    // Without them, a comparison that sees nothing would pass for one that finds nothing.
    let _ = println!(&rt; "control: each of these must differ");
    for (path, subject) in CONTROLS {
        replay(&rt, path, subject);
    }
}
