// The public calls on a step map and its area, 01's and the path of 02, each with its refusals in their order. None of them requires anything.
#![tactic(auto)]

pub mod line_convex_checker;
pub mod path;
pub mod prepare;
pub mod topo_convex_checker;
