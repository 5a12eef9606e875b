// The path that a no shows, on an opened area: "found by distance and written out from its end, each step asking for the shorter path before it".
#![tactic(auto)]

pub mod showing;
pub mod writing;
