// The theorems over sequences of calls, with no code of their own: demands 1 and 3 of document 01 and its proved table.
// Read specs/.
#![tactic(auto)]
