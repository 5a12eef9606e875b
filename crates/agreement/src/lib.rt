// The lists of the tables held against each other, and the links against the neighbours on the lines: the sentences of the acceptance that
// compare pairs.
#![tactic(auto)]

pub mod linked;
pub mod listed;
