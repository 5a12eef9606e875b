// Theorems on the order: the queue's invariant, that links go forward, and that all is ordered exactly if nothing goes round. No code.
#![tactic(auto)]
