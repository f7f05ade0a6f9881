//! How the rules of the grammar call one another.
//!
//! Rust's grammar is one recursion: an expression holds types, a type expressions, a block both. Here no function
//! calls itself, not even through others. Each is generic over [`Grammar`], the recursive rules that it may call, and
//! is proved from what that trait promises. A rule is called directly before a token was taken, and through the
//! trait afterwards.
//!
//! One function, `run_brief` of the crate above all rules, ties the knot: it hands each rule a `Grammar` that runs
//! `run_brief` again. It ends because a rule that is called through the trait has fewer tokens left than its caller: the
//! trait requires that, so a rule that called itself without taking a token would not be proved. And since a rule knows
//! the others by this trait alone, the crates of rules do not depend on one another.
ghost use Rattle.std.specs.Prelude.{◌≡◌, ℕ, ◌<◌, ◌≤◌, IfOk};
ghost use Rattle.rap_events.specs.State.{state};
ghost use Rattle.rap_grammar_frame.specs.Rules.{Pre, Post};

use rap_base::no_memory::NoMemory;
use rap_events::parser::{CompletedMarker, Parser};
use rap_grammar_scripts::arguments::BlockLike;
use rap_grammar_scripts::rule::Rule;

/// The recursive rules, which may be called where fewer than `left` tokens are left.
pub trait Grammar {
    ghost left: { Self → ℕ };

    ghost valid: { Self → Type 0 };

    /// Runs a rule. The error means out of memory.
    fn run(&self, p: &mut Parser<'_>, rule: Rule) -> Result<Answer, NoMemory>
        requires valid { valid self.now }
        requires left { (state p.old).left < left self.now }
        requires pre { Pre rule (state p.old) }
        ensures { IfOk result (Post (left self.now) rule (state p.old) (state p.new)) };
}

/// The result of a rule. `ExprBp` returns the node of the expression, if it made one, and whether it reads like a
/// block; the other rules return `None`.
pub type Answer = Option<(CompletedMarker, BlockLike)>;
