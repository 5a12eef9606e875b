// 16-bit fields in bytes, filling and copying sections of one lent slice of words, bytes to words and back; and the trait of a list, in words or in bytes.
#![tactic(auto)]

pub mod bytes;
pub mod entries;
pub mod field;
pub mod section;
