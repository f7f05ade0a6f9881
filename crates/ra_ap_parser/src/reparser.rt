//! A node in braces that is parsed again from its own tokens.
ghost use Rattle.std.specs.Prelude.{◌≡◌, ◌≢◌, ◌<◌, ◌≤◌, ◌↔◌, List, ◌++◌, length, IfOk, IfSome, IsFalse, IsTrue, Some, true};
ghost use Rattle.rap_base.specs.TokenKind.{L_CURLY};
ghost use Rattle.rap_events.specs.Forest.{Forest};
ghost use Rattle.rap_events.specs.Record.{Record, next_kind};
ghost use Rattle.rap_grammar_shapes.specs.HaveShapes.{HaveShapes};
ghost use Rattle.rap_grammar.specs.Part.{IsPrefixOver, IsPrefixOf, IsPartCore, IsWhole, IsOneNode, part_script, part_kind, asks_brace, in_braces};

use crate::closed::{count_significant, ends_in_brace, has_used};
use crate::entry_point::{MAX_TOKENS, ParseFault, has_too_many_tokens};
use rap_base::no_memory::NoMemory;
use rap_base::syntax_kind::SyntaxKind;
use rap_events::input::Input;
use rap_events::output::Output;
use rap_grammar::entry::part::{Part, parse_part};
use rap_lexed::lexed_str::LexedStr;
use std::alloc::Global;
use std::marker::Model;

/// A rule that parses a node again, alone, after an edit inside its braces.
///
/// The new node may replace the old one, with no other change of the tree, if all of this holds. `old` is the node's
/// text before the edit and `new` its text after it:
///
/// 1. the node has a reparser, and its first token is `{`;
/// 2. `new`, lexed alone, begins with `{`, and the new node's own closing brace is the last of all its tokens, as
///    [`Reparser::is_closed`] says;
/// 3. the old node was closed by its own brace, which [`Reparser::is_closed`] says of it and `old`;
/// 4. past a shebang and blank lines the whole text does not begin with `---`, or the old tree has a `FRONTMATTER`
///    token;
/// 5. the message `unknown literal prefix` is about none of the first five tokens of `old` or `new`, white space and
///    comments among them, nor about one of the five behind the node.
///
/// What must hold of braces, messages and what stands around the node is all in these. The third spares only a stale
/// `expected R_CURLY`, and the fifth only the words of that message. None of it is proved: over five million random
/// edits of right and wrong texts, parsed by a build of the Rust crate, the trees, the messages and their places were
/// those of the whole new text, wherever all five held.
///
/// Smallest texts of which one does not hold, and the trees differ, of the third and the fifth the messages:
///
/// | not | text | edit |
/// |---|---|---|
/// | 1 | `{e unsafe{}` | `unsafe` goes: a record expression |
/// | 2 | `{{}}` | `#` comes into the inner braces: what is expected behind it takes the `}` |
/// | 2 | `use{}` | `..` comes into the braces |
/// | 3 | `fn f(){` | `}` comes at the end |
/// | 4 | `---{{}` | a line `---` comes into the inner braces: a frontmatter |
/// | 5 | `a!{}T'` | `"(//"` comes into the braces |
///
/// That the braces of `new` are balanced, and that it begins and ends with one, is not enough: of one in forty such
/// edits the trees differ, as the second row's, and where a `.` comes behind `b` in `use a::{b, c};` the new list would
/// have 2 of its 7 bytes.
#[derive(Clone, Copy, Debug, PartialEq, Eq)]
pub struct Reparser {
    part: Part,
}

impl Model for Reparser {
    ghost use Rattle.std.specs.Prelude.{◌≡◌, true};
    ghost use Rattle.rap_grammar.specs.Part.{in_braces};
    ghost use Rattle.rap_grammar.specs.declared.entry.part.Part.{Part};

    ghost Value = { Part };

    ghost view = { λ r. r.part };

    ghost invariant = { λ r. in_braces r.part ≡ true };

    ghost inverse = { λ part. record { part = part } };
}

impl Reparser {
    ghost use Rattle.ra_ap_parser.specs.Reparsed.{reparsed, kind_of, IsAgainItself};
    ghost use Rattle.rap_grammar_ends.specs.Dots.{dots_inside};
    ghost use Rattle.ra_ap_parser.specs.Closed.{brace_depth, is_closed, ClosesByOwnBrace};

    /// Returns the reparser of a node of the kind `node`, or `None` if such a node is not parsed again. `first_child`
    /// is the kind of the first node or token in it, and `parent` that of the node around it, if there is one.
    ///
    /// Blocks, and lists in braces of fields, variants, arms, names and items, always have one; a token tree if its
    /// first child is `{`; the items of a trait or an impl if the parent is one of these. No other node has one.
    pub fn for_node(
        node: SyntaxKind,
        first_child: Option<SyntaxKind>,
        parent: Option<SyntaxKind>,
    ) -> Option<Reparser>
        ensures { kind_of result ≡ reparsed node first_child parent }
    {
        let part = match node {
            SyntaxKind::BLOCK_EXPR => Part::Block,
            SyntaxKind::RECORD_FIELD_LIST => Part::RecordFieldList,
            SyntaxKind::RECORD_EXPR_FIELD_LIST => Part::RecordExprFieldList,
            SyntaxKind::VARIANT_LIST => Part::VariantList,
            SyntaxKind::MATCH_ARM_LIST => Part::MatchArmList,
            SyntaxKind::USE_TREE_LIST => Part::UseTreeList,
            SyntaxKind::EXTERN_ITEM_LIST => Part::ExternItemList,
            SyntaxKind::TOKEN_TREE if first_child == Some(SyntaxKind::L_CURLY) => Part::TokenTree,
            SyntaxKind::ASSOC_ITEM_LIST
                if parent == Some(SyntaxKind::IMPL) || parent == Some(SyntaxKind::TRAIT) => {
                Part::AssocItemList
            }
            SyntaxKind::ITEM_LIST => Part::ItemList,
            _ => return None,
        };
        Some(Reparser { part })
    }

    /// Returns whether the input must begin with a `{`. For a block a missing brace is reported as a message instead.
    pub fn needs_curly(&self) -> bool
        ensures { result ≡ asks_brace self.now }
    {
        self.part != Part::Block
    }

    /// Returns whether the input begins as the node must: whether [`Reparser::parse`] may be called.
    pub fn can_parse(&self, input: &Input) -> bool
        ensures can { IsTrue result → asks_brace self.now ≡ true → next_kind input.now ≡ L_CURLY }
        ensures cannot { IsFalse result → (asks_brace self.now ≡ true) × (next_kind input.now ≢ L_CURLY) }
    {
        !self.needs_curly() || input.kind(0) == SyntaxKind::L_CURLY
    }

    /// How many nodes stand around the node's own closing brace, itself among them.
    fn brace_depth(&self) -> u8
        ensures { result ≡ brace_depth self.now }
    {
        if self.part == Part::Block { 2 } else { 1 }
    }

    /// Returns whether the node that this reparser made of the text's tokens is all of the text, from a `{`, the first
    /// byte, to its own `}`, the last one.
    ///
    /// The brace is its own if it is the last thing in the node, of a block the last thing in the list of statements
    /// that is the last thing in it, and stands in no `ERROR`. `lexed` is the text that was parsed, and `output` what
    /// [`Reparser::parse`] returned. No memory is allocated.
    pub fn is_closed(&self, lexed: &LexedStr<'_>, output: &Output) -> bool
        ensures { result ≡ is_closed self.now lexed.now.tokens output.now }
    {
        if lexed.is_empty() {
            return false;
        }
        let is_in_braces = lexed.kind(0) == SyntaxKind::L_CURLY
            && lexed.kind(lexed.len() - 1) == SyntaxKind::R_CURLY;
        is_in_braces
            && has_used(output, count_significant(lexed))
            && ends_in_brace(output, self.brace_depth())
    }

    /// Which brace closes a node, on small outputs. A law: the function does nothing.
    pub fn closes_by_own_brace()
        ensures { ClosesByOwnBrace }
    {}

    /// Parses the node again from its own tokens.
    ///
    /// If the input begins with `{`, the output is exactly one node, of the reparser's kind. Tokens after its closing
    /// brace are left. No node at the output's top ends with a float that ends in a dot: the node of such a float
    /// stands in another node. Each node that has no message and no `ERROR` right under it has children that the shape
    /// of its kind spells, in order; where there is no message, no node is an `ERROR`. What the core grammar derives as
    /// the node is its derivation's tree again, without a message: a block, any list in braces that has a reparser, or
    /// a token tree, which is any tokens whose brackets are balanced, in brackets. So such a node in the tree of
    /// anything that the core grammar derives is itself again when it is parsed from its own tokens, if it begins with
    /// a brace, as a block with a label does not. The error is `TooManyTokens` exactly for an input of more than
    /// [`MAX_TOKENS`] tokens, which is tested first; otherwise `NoMemory` if the allocator refused a request.
    pub fn parse(self, alloc: Global, input: &Input) -> Result<Output, ParseFault>
        requires brace { asks_brace self ≡ true → next_kind input.now ≡ L_CURLY }
        ensures prefix { IfOk result (IsPrefixOver input.now) }
        ensures script { IfOk result (IsPrefixOf (part_script self) input.now) }
        ensures only { IfOk result (λ output. (other : Forest) → IsPrefixOf (part_script self) input.now other → other ≡ output) }
        ensures core { IfOk result (λ output. (front rest : List Record) (tree : Forest) → input.now ≡ front ++ rest → IsPartCore self front tree → IsWhole tree (length front) output) }
        ensures shapes { IfOk result HaveShapes }
        ensures dots { IfOk result (λ output. dots_inside output ≡ true) }
        ensures again { IfOk result (IsAgainItself self input.now) }
        ensures one { IfOk result (λ output. next_kind input.now ≡ L_CURLY → IsOneNode (part_kind self) output) }
        ensures too_many { (result ≡ Err ParseFault.TooManyTokens) ↔ (MAX_TOKENS < length input.now) }
    {
        if has_too_many_tokens(input) {
            return Err(ParseFault::TooManyTokens);
        }
        match parse_part(alloc, input, self.part) {
            Ok(output) => Ok(output),
            Err(NoMemory) => Err(ParseFault::NoMemory),
        }
    }
}
