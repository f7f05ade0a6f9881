//! Script source: the shebang and the frontmatter before the Rust code of a Cargo script.
#![tactic(auto)]

pub mod frontmatter;
