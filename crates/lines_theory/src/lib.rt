// Theorems on the lines: what preparing lays into the area is read back as it was, and is accepted. No code.
#![tactic(auto)]
