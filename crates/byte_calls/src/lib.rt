// The calls on lists, records and buffers whose words cross as bytes, however long they are. Each opens, asks and clears as the word call of the
// same name (`convex`) does, and answers the same.
#![tactic(auto)]

pub mod line_convex_checker;
pub mod path;
pub mod topo_convex_checker;
