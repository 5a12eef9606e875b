// The calls exported for hosts in other languages, on numbers and byte slices. Words cross as two bytes each, low byte first; an odd last byte is
// neither read nor written. A number says the case: 1 is an answer or yes; 2 is no, not contiguous, not extendable or no path; 3 is refused.
// The C interface asks for a function of its own for each call, with what it tells in numbers.
#![tactic(auto)]

pub mod line_exports;
pub mod path_export;
pub mod prepare_export;
pub mod topo_exports;
