//! The core grammar as a table, and a checker of scripts against its rows. The only code is functions that do nothing,
//! whose contracts are laws of the table.
#![tactic(auto)]

pub mod shape_laws;
pub mod table_laws;
