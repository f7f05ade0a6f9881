//! What follows an operand (calls, indexes, fields), the fields of a record, and ranges.
#![tactic(auto)]

pub mod postfix;
pub mod ranges;
pub mod records;
