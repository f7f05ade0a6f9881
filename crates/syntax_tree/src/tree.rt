//! Trees over a text.
ghost use Rattle.std.specs.Prelude.{◌≡◌, ◌<◌, ◌↔◌, [], Err, IfOk, true, length, slice_range};
ghost use Rattle.rap_base.specs.declared.edition.Edition.{Edition};
ghost use Rattle.rap_events.specs.Cover.{covers};
ghost use Rattle.rap_events.specs.Forest.{one_tree, used};
ghost use Rattle.ra_ap_parser.specs.Headline.{HasTooManyTokens};
ghost use Rattle.rap_lexed.specs.Input.{records};
ghost use Rattle.rap_lexed.specs.LexedStr.{joined};
ghost use Rattle.rap_lexed.specs.Trivia.{front_of, significant, with_trivia};
ghost use Rattle.syntax_tree.specs.Children.{children_of};
ghost use Rattle.syntax_tree.specs.Places.{HavePlaces, IsPlace};
ghost use Rattle.syntax_tree.specs.Ranged.{Ranged};
ghost use Rattle.syntax_tree.specs.RangedForest.{RangedNode, alone};
ghost use Rattle.syntax_tree.specs.TextTree.{IsTextTree};

use crate::builder::Builder;
use crate::collector::Collector;
use crate::node::{Child, Node};
use crate::report::all_placed;
use ra_ap_parser::{Edition, MAX_TEXT, TextFault, TopEntryPoint, parse_text};
use rap_base::no_memory::NoMemory;
use rap_events::output::Output;
use rap_lexed::lexed_str::LexedStr;
use rap_ranged::message::Message;
use std::alloc::Global;

/// A tree over a text: it owns its nodes, and borrows the text.
#[derive(Drop)]
pub struct Tree<'t> {
    text: &'t str,
    root: Node,
    messages: Vec<Message>,
}

impl<'t> Tree<'t> {
    /// The tree of an output over a lexed text, with the trivia that the parser left out put back.
    ///
    /// It requires what [`LexedStr::intersperse_trivia`] requires, and has the nodes and leaves of that call, in order.
    /// The first leaf begins at 0, each further one where the leaf before it ends, and each is as long as its text. A
    /// node begins where the leaves before it end, and ends where its own last leaf ends; a node without a leaf is
    /// empty. The root ends where the tokens that the output covers end, with the trivia after them; what follows in the
    /// text is in no node. Every range is on character boundaries of the text, so [`Tree::text_of`] returns the text of
    /// each node. The output's messages are not kept. The error means out of memory.
    pub fn build(alloc: Global, lexed: &LexedStr<'t>, output: &Output) -> Result<Tree<'t>, NoMemory>
        requires tree { one_tree output.now ≡ true }
        requires prefix { (edition : Edition) × (covers (records lexed.now.tokens edition) output.now ≡ true) }
        ensures ranged { IfOk result (λ tree. Ranged (with_trivia lexed.now.tokens output.now) tree.root) }
        ensures text { IfOk result (λ tree. tree.text.now ≡ joined lexed.now.tokens) }
        ensures messages { IfOk result (λ tree. tree.messages.items ≡ []) }
        ensures begins { IfOk result (λ tree. tree.root.start ≡ 0) }
        ensures ends { IfOk result (λ tree. tree.root.end ≡ length (joined (front_of (used output.now) lexed.now.tokens))) }
        ensures whole { IfOk result (λ tree. used output.now ≡ significant lexed.now.tokens
            → tree.root.end ≡ length (joined lexed.now.tokens)) }
        ensures places { IfOk result (λ tree. HavePlaces (joined lexed.now.tokens) (alone tree.root)) }
    {
        let mut builder = Builder::new(alloc);
        // For the proof: it fits its type.
        let _count = lexed.len();
        let _whole = lexed.intersperse_trivia(output, &mut builder)?;
        Ok(Tree {
            text: lexed.as_str(),
            root: only_node(builder.into_children()),
            messages: Vec::new(alloc),
        })
    }

    /// The tree of a text: the text is divided into tokens, and parsed from the entry point. The
    /// tree keeps the messages.
    ///
    /// The errors are those of [`parse_text`]; if a node or a message is out of memory, the error is `Refused`.
    pub fn of_text(
        alloc: Global,
        edition: Edition,
        entry: TopEntryPoint,
        text: &'t str,
    ) -> Result<Tree<'t>, TextFault<NoMemory>>
        ensures tree { IfOk result (λ tree. IsTextTree text.now edition entry tree.root tree.messages.items) }
        ensures text { IfOk result (λ tree. tree.text.now ≡ text.now) }
        ensures too_long { (result ≡ Err TextFault.TextTooLong) ↔ (MAX_TEXT < length text.now) }
        ensures too_many { (result ≡ Err TextFault.TooManyTokens) ↔ HasTooManyTokens text.now edition }
    {
        let mut collector = Collector::new(alloc);
        let parsed = parse_text(alloc, edition, entry, text, &mut collector)?;
        let Ok(()) = parsed.lexed.report_errors(&mut collector) else {
            return Err(TextFault::Refused(NoMemory));
        };
        let Collector {
            builder,
            reports,
            ..
        } = collector;
        let root = only_node(builder.into_children());
        match all_placed(alloc, reports, &root) {
            Ok(messages) => Ok(Tree {
                text,
                root,
                messages,
            }),
            Err(NoMemory) => Err(TextFault::Refused(NoMemory)),
        }
    }

    /// The messages: none after [`Tree::build`]; after [`Tree::of_text`] those of the parser in the order of the tree,
    /// and after them those of the lexer in the order of their tokens, each with the range of the token at which it is.
    pub fn messages(&self) -> &[Message]
        ensures { result.now ≡ self.now.messages.items }
    {
        self.messages.as_slice()
    }

    /// The tree's root.
    pub fn root(&self) -> &Node
        ensures { result.now ≡ self.now.root }
    {
        &self.root
    }

    /// The text that the tree is over.
    pub fn text(&self) -> &'t str
        ensures { result.now ≡ self.now.text.now }
    {
        self.text
    }

    /// The text of a node: that of its range. No memory is allocated, and nothing is copied.
    pub fn text_of(&self, node: &Node) -> &'t str
        requires { IsPlace self.now.text.now node.now.start node.now.end }
        ensures { result.now ≡ slice_range self.now.text.now node.now.start node.now.end }
    {
        let range = node.range();
        &self.text[range.start..range.end]
    }
}

/// The node that is alone in a list.
fn only_node(mut children: Vec<Child>) -> Node
    requires { (node : RangedNode) × (children_of children.items ≡ alone node) }
    ensures { children_of children.items ≡ alone result }
{
    match children.pop() {
        Some(Child::Node(node)) => node,
        Some(Child::Leaf { .. }) => unreachable!(),
        None => unreachable!(),
    }
}
