// Sessions, handed to the function that the export for C calls. Among the samples is each answer that a session can
// get; the damaged sessions are compared with a second reading of the papers (host/reckon).
#![tactic(auto)]

mod answer;
mod cases;
mod files;
mod lent;
mod report;
mod sample;

use cases::compare;
use lent::{MOST_LISTING, spoil};
use sample::{show, show_each};
use std::io;
use std::rt::Files;

fn main(rt: HostRuntime) -> io::Result<()> {
    samples(&rt)?;
    compare(&rt, "damaged", "damaged.bin", "damaged_answers.txt")?;
    // Without them, a comparison that sees nothing would pass for one that finds nothing.
    println!(rt; "control: each of these must differ")?;
    show(&rt, "example.txt", SOME, spoil)?;
    show(&rt, "op_8.txt", SOME, spoil)?;
    compare(&rt, "control", "control.bin", "control_answers.txt")
}

// Bytes to lend, more than a short listing has.
const SOME: usize = 400;

fn samples(rt: &(impl Files + Print)) -> io::Result<()> {
    let answered = [
        "example.txt",
        "every_form.txt",
        "revolutions.txt",
        "square_roots.txt",
        "nan.txt",
        "longest_session.txt",
    ];
    let long = [
        "all_nodes.txt",
        "longest_listing.txt",
        "node_1025.txt",
        "full_then_malformed.txt",
    ];
    let stale = [
        "index_at_length.txt",
        "index_rewound.txt",
        "root_rewound.txt",
        "index_99999.txt",
        "stale_then_malformed.txt",
    ];
    show_each(rt, &answered, SOME)?;
    show_each(rt, &long, MOST_LISTING)?;
    show_each(rt, &["longest_listing.txt"], MOST_LISTING - 1)?;
    for room in [24, 23, 0] {
        show_each(rt, &["empty.txt"], room)?;
    }
    show_each(rt, &stale, SOME)?;
    malformed(rt)
}

fn malformed(rt: &(impl Files + Print)) -> io::Result<()> {
    let lines = [
        "overlong.txt",
        "overlong_and_stale.txt",
        "malformed_and_stale.txt",
        "no_last_line_feed.txt",
        "empty_line.txt",
    ];
    let bytes = [
        "carriage_return.txt",
        "trailing_space.txt",
        "tab.txt",
        "nul.txt",
        "byte_over_127.txt",
        "upper_case_digit.txt",
    ];
    let words = [
        "leading_zero.txt",
        "six_digits.txt",
        "root_with_n.txt",
        "op_0.txt",
        "op_8.txt",
        "op_03.txt",
        "op_010.txt",
        "op_10_with_right.txt",
    ];
    show_each(rt, &lines, SOME)?;
    show_each(rt, &bytes, SOME)?;
    show_each(rt, &words, SOME)
}
