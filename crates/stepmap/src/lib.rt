// The step map: its fields, its ports, its reader, and the check of its links.
#![tactic(auto)]

pub mod access;
pub mod links;
pub mod ports;
pub mod read;
