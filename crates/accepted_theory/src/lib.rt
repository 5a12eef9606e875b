// Theorems on accepted tables: the words in use alone decide every call; a node's links are no more than its lines; what passes 12 and 13, and
// intervals as records (recorded); the intervals as the Rust collects them, one position at a time, are 01's (collecting). No code.
#![tactic(auto)]
