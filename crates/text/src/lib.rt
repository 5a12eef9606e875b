// The text of the programs `ask` and `why`: the lines and numbers of their input read, their output printed into lent bytes.
#![tactic(auto)]

pub mod parts;
pub mod printer;
pub mod reader;
