// The file of recorded answers: the parts of its lines, its maps laid out as bytes, its tables, and answers held against what it says.
#![tactic(auto)]

pub mod comparing;
pub mod held;
pub mod laying;
pub mod line_parts;
pub mod map_line;
pub mod sections;
