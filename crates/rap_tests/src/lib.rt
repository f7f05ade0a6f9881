//! Tests of the public calls of the libraries below the grammar's rules whose results no built program shows; they are in
//! a crate of their own, since in those libraries each would be proved a second time.
#![tactic(auto)]

#[cfg(test)]
mod derivation;
#[cfg(test)]
mod document;
#[cfg(test)]
mod edition;
#[cfg(test)]
mod escape;
#[cfg(test)]
mod events;
#[cfg(test)]
mod frames;
#[cfg(test)]
mod frontmatter;
#[cfg(test)]
mod frontmatter_error;
#[cfg(test)]
mod lexed_str;
#[cfg(test)]
mod literals;
#[cfg(test)]
mod places;
#[cfg(test)]
mod shortcuts;
#[cfg(test)]
mod strip;
#[cfg(test)]
mod syntax_kind;
#[cfg(test)]
mod token_set;
