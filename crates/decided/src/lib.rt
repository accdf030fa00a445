// Every answer is decided: that the promises of the library crates leave nothing open, and which wrong answers they
// rule out. No code of its own; read specs/ and docs/PROMISES.md.
#![tactic(auto)]
