// The line checker's questions on an opened area, each with the refusals that are its own.
#![tactic(auto)]

pub mod extend;
pub mod line_check;
pub mod list_intervals;
pub mod nodes;
pub mod room;
