//! The small grammar: the part of the core grammar that is read in a minute, as a relation with a constructor for each of
//! its rules, in `specs/Derives.antt`. All that it derives the table derives, with the same tree. The only code is
//! functions that do nothing, whose contracts are laws.
#![tactic(auto)]

pub mod laws;
