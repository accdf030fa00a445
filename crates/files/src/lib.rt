// The theorems over whole session files, with no code of their own: what a file runs, what it can be refused, how long
// its listing is, and demand 3 of document 01. Read specs/.
#![tactic(auto)]
