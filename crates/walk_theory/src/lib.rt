// The queue walk with marks and a queue of N words, and that it answers as 01's walk, which keeps repeats. No code.
#![tactic(auto)]
