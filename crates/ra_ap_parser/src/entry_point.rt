//! Entry points: what an input is parsed as.
ghost use Rattle.std.specs.Prelude.{◌≡◌, ◌<◌, ◌≤◌, ◌↔◌, List, ◌++◌, length, All, IfOk, IsTrue, Some, true};
ghost use Rattle.rap_events.specs.Forest.{Forest, message_count};
ghost use Rattle.rap_events.specs.Record.{Record, IsTokenRecord};
ghost use Rattle.rap_grammar.specs.Part.{IsPrefixOver, IsWhole};
ghost use Rattle.rap_grammar.specs.Top.{IsTreeOver};
ghost use Rattle.rap_grammar_shapes.specs.HaveShapes.{HaveShapes, HaveShapesWithin};

use rap_base::no_memory::NoMemory;
use rap_events::input::Input;
use rap_events::output::Output;
use rap_grammar::entry::part::Part;
use rap_grammar::entry::{part, top};
use std::alloc::Global;
use std::error::Error;
use std::fmt;

/// The most tokens of an input that can be parsed: each event's place fits in 32 bits.
pub const MAX_TOKENS: usize = 8_388_607;

/// Why an input was not parsed.
#[derive(Clone, Copy, Debug, PartialEq, Eq)]
pub enum ParseFault {
    /// The input has more than [`MAX_TOKENS`] tokens.
    TooManyTokens,
    /// Out of memory: the allocator refused a request.
    NoMemory,
}

impl fmt::Display for ParseFault {
    ghost use Rattle.ra_ap_parser.specs.Fault.{parse_fault_text};

    ghost output = { λ fault. Some (parse_fault_text fault) };

    fn fmt<W: fmt::Write>(&self, f: &mut fmt::Formatter<W>) -> fmt::Result {
        match self {
            ParseFault::TooManyTokens => f.write_str("too many tokens"),
            ParseFault::NoMemory => f.write_str("no memory"),
        }
    }
}

impl Error for ParseFault {}

/// Whether the input has more than [`MAX_TOKENS`] tokens.
pub(crate) fn has_too_many_tokens(input: &Input) -> bool
    ensures many { IsTrue result ↔ (MAX_TOKENS < length input.now) }
    ensures tokens { All IsTokenRecord input.now }
{
    input.len() > MAX_TOKENS
}

/// What a whole input is parsed as.
#[derive(Clone, Copy, Debug, PartialEq, Eq)]
pub enum TopEntryPoint {
    /// A file.
    SourceFile,
    /// The statements that a macro expands to.
    MacroStmts,
    /// The items that a macro expands to.
    MacroItems,
    /// A pattern, with its alternatives.
    Pattern,
    /// A type.
    Ty,
    /// An expression.
    Expr,
    /// What stands in the brackets of an attribute, as `cfg(a)` in `#[cfg(a)]`.
    MetaItem,
}

impl TopEntryPoint {
    ghost use Rattle.ra_ap_parser.specs.EntryScript.{IsOutputOf, IsCore, KeepsFront, WrapsPrefix};

    /// Parses the input as one tree.
    fn run(&self, alloc: Global, input: &Input) -> Result<Output, NoMemory>
        requires { length input.now ≤ MAX_TOKENS }
        ensures tree { IfOk result (IsTreeOver input.now) }
        ensures script { IfOk result (IsOutputOf self.now input.now) }
    {
        match self {
            TopEntryPoint::SourceFile => top::source_file(alloc, input),
            TopEntryPoint::MacroStmts => top::macro_stmts(alloc, input),
            TopEntryPoint::MacroItems => top::macro_items(alloc, input),
            TopEntryPoint::Pattern => top::pattern(alloc, input),
            TopEntryPoint::Ty => top::type_(alloc, input),
            TopEntryPoint::Expr => top::expr(alloc, input),
            TopEntryPoint::MetaItem => top::meta_item(alloc, input),
        }
    }

    /// Parses the whole input as one tree, for all tokens.
    ///
    /// The error is `TooManyTokens` exactly for an input of more than [`MAX_TOKENS`] tokens, which is tested first;
    /// otherwise `NoMemory` if the allocator refused a request. The tree is that of the entry's script, and no other.
    /// Each node that has no message and no `ERROR` right under it has children that the shape of its kind spells, in
    /// order, of right and of wrong inputs; but an `ERROR` over everything, which an entry puts around what it did not
    /// read as one tree, may hold anything. Where there is no message, no other node is an `ERROR`. What the shapes are
    /// is in docs/NODES.md.
    ///
    /// An input that the core grammar derives gives its derivation's tree, without a message: under `SourceFile` as a
    /// file, under `Expr` as an expression, under `Ty` as a type, under `Pattern` as a pattern and under `MetaItem` as
    /// what stands in the brackets of an attribute. The core grammar is a table of rows; the small grammar is a part of
    /// it ([`holds_in_table`](crate::laws::holds_in_table)), and so is a macro call, of a name and balanced tokens in
    /// braces, that is all of a `SourceFile` or `MacroItems` ([`calls_are_core`](crate::laws::calls_are_core)). Items,
    /// fields, statements and more may have attributes and documentation, and a file a shebang and frontmatter. Under
    /// `MacroItems` it is any number of items, and the tree is a `MACRO_ITEMS` of them; under `MacroStmts` it is the
    /// contents of a block, and the tree is a `MACRO_STMTS` of the statements, and of the value after them if there is
    /// one. Where an input begins with items of the core grammar and with `@`, `,` and integers, in any order, the
    /// entry's node begins under these two with the tree of each item and an `ERROR` of a message and one leaf for each
    /// such token, whatever follows the last one. Before these may stand, with their trees, a shebang, frontmatter and
    /// attributes of the file, and under `MacroItems` such attributes. `Pattern`, `Ty`, `Expr` and `MetaItem` give what
    /// `PatTop`, `Ty`, `Expr` and `MetaItem` of
    /// [`PrefixEntryPoint`] read, where that is one tree over the whole input, and else an `ERROR` over it and a leaf
    /// for each token that is left.
    pub fn parse(&self, alloc: Global, input: &Input) -> Result<Output, ParseFault>
        ensures tree { IfOk result (IsTreeOver input.now) }
        ensures script { IfOk result (IsOutputOf self.now input.now) }
        ensures only { IfOk result (λ output. (other : Forest) → IsOutputOf self.now input.now other → other ≡ output) }
        ensures shapes { IfOk result HaveShapesWithin }
        ensures core { IfOk result (λ output. (tree : Forest) → IsCore self.now input.now tree → (output ≡ tree) × (message_count output ≡ 0)) }
        ensures front { IfOk result (KeepsFront self.now input.now) }
        ensures wraps { IfOk result (WrapsPrefix self.now input.now) }
        ensures too_many { (result ≡ Err ParseFault.TooManyTokens) ↔ (MAX_TOKENS < length input.now) }
    {
        if has_too_many_tokens(input) {
            return Err(ParseFault::TooManyTokens);
        }
        match self.run(alloc, input) {
            Ok(output) => Ok(output),
            Err(NoMemory) => Err(ParseFault::NoMemory),
        }
    }
}

/// What a prefix of an input is parsed as, as a macro matches it.
#[derive(Clone, Copy, Debug, PartialEq, Eq)]
pub enum PrefixEntryPoint {
    /// A visibility, if there is one.
    Vis,
    /// A block.
    Block,
    /// A statement, without the semicolon after it.
    Stmt,
    /// A pattern without alternatives.
    Pat,
    /// A pattern, with its alternatives.
    PatTop,
    /// A type.
    Ty,
    /// An expression.
    Expr,
    /// A path, as in a type.
    Path,
    /// An item, or a macro call in its place.
    Item,
    /// What stands in the brackets of an attribute, as `cfg(a)` in `#[cfg(a)]`.
    MetaItem,
}

impl PrefixEntryPoint {
    ghost use Rattle.ra_ap_parser.specs.EntryScript.{IsPrefixOutputOf, IsPrefixCore};
    ghost use Rattle.rap_grammar_ends.specs.Dots.{dots_inside};

    /// Parses what the entry names.
    fn run(&self, alloc: Global, input: &Input) -> Result<Output, NoMemory>
        requires { length input.now ≤ MAX_TOKENS }
        ensures prefix { IfOk result (IsPrefixOver input.now) }
        ensures script { IfOk result (IsPrefixOutputOf self.now input.now) }
    {
        match self {
            PrefixEntryPoint::Vis => part::parse_part(alloc, input, Part::Visibility),
            PrefixEntryPoint::Block => part::parse_part(alloc, input, Part::Block),
            PrefixEntryPoint::Stmt => part::stmt(alloc, input),
            PrefixEntryPoint::Pat => part::pattern_single(alloc, input),
            PrefixEntryPoint::PatTop => part::pattern(alloc, input),
            PrefixEntryPoint::Ty => part::type_(alloc, input),
            PrefixEntryPoint::Expr => part::expr(alloc, input),
            PrefixEntryPoint::Path => part::parse_part(alloc, input, Part::Path),
            PrefixEntryPoint::Item => part::item(alloc, input),
            PrefixEntryPoint::MetaItem => part::meta_item(alloc, input),
        }
    }

    /// Parses a prefix of the input, and leaves the other tokens.
    ///
    /// The output may be no tree, or several trees, with messages beside them. No node at its top ends with a float
    /// that ends in a dot: the node of such a float stands in another node. The number of tokens that it takes is the
    /// sum of the `n_input_tokens` of its steps, and one for each float that is split. The error is `TooManyTokens`
    /// exactly for an input of more than [`MAX_TOKENS`] tokens, which is tested first; otherwise `NoMemory` if the
    /// allocator refused a request. The output is that of the entry's script, and no other. Each of its nodes that has
    /// no message and no `ERROR` right under it has children that the shape of its kind spells, in order; where there
    /// is no message, no node is an `ERROR`. If the core grammar derives a prefix of the input and the next tokens can
    /// follow it, the output is the tree of the derivation, without a message, and takes that prefix. It may be a
    /// block, a type, an expression, an item, a pattern with or without alternatives, what stands in the brackets of an
    /// attribute, the path of a type, a visibility, or a statement without its semicolon.
    pub fn parse(&self, alloc: Global, input: &Input) -> Result<Output, ParseFault>
        ensures prefix { IfOk result (IsPrefixOver input.now) }
        ensures script { IfOk result (IsPrefixOutputOf self.now input.now) }
        ensures only { IfOk result (λ output. (other : Forest) → IsPrefixOutputOf self.now input.now other → other ≡ output) }
        ensures shapes { IfOk result HaveShapes }
        ensures dots { IfOk result (λ output. dots_inside output ≡ true) }
        ensures core { IfOk result (λ output. (front rest : List Record) (tree : Forest) → input.now ≡ front ++ rest → IsPrefixCore self.now front rest tree → IsWhole tree (length front) output) }
        ensures too_many { (result ≡ Err ParseFault.TooManyTokens) ↔ (MAX_TOKENS < length input.now) }
    {
        if has_too_many_tokens(input) {
            return Err(ParseFault::TooManyTokens);
        }
        match self.run(alloc, input) {
            Ok(output) => Ok(output),
            Err(NoMemory) => Err(ParseFault::NoMemory),
        }
    }
}
