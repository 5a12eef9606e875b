// Demand 3: a check's yes means convex, and the count is what it counts. The line check by lines and walk; the order check passed place by
// place with marks (places); both as promises about the answers (trust). No code.
#![tactic(auto)]
