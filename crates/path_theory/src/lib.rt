// Theorems on the path: the steps by their distance from a list, and that the path by distance is the one that 02 asks for (levels); there is
// one exactly when a list is not convex; the path's promise, and that it agrees with both checks. No code.
#![tactic(auto)]
