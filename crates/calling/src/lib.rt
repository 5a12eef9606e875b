// Each call of the paper from the answer of its opening: a refusal passed up, or what the question answers on the opened area. No code.
#![tactic(auto)]
