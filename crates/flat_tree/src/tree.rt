//! Flat trees over a text.
ghost use Rattle.std.specs.Prelude.{◌≡◌, ◌<◌, ◌↔◌, [], Err, IfOk, true, length, option_copied, slice_range};
ghost use Rattle.ra_ap_parser.specs.Headline.{HasTooManyTokens};
ghost use Rattle.flat_tree.specs.TextTree.{IsFlatText};
ghost use Rattle.std.specs.List.{slice_get};
ghost use Rattle.rap_base.specs.declared.edition.Edition.{Edition};
ghost use Rattle.rap_events.specs.Cover.{covers};
ghost use Rattle.rap_events.specs.Forest.{one_tree, used};
ghost use Rattle.rap_lexed.specs.Input.{records};
ghost use Rattle.rap_lexed.specs.LexedStr.{joined};
ghost use Rattle.rap_lexed.specs.Trivia.{front_of, significant, with_trivia};
ghost use Rattle.rap_ranged.specs.Places.{IsPlace};
ghost use Rattle.flat_tree.specs.Built.{IsFlat, IsOver};
ghost use Rattle.flat_tree.specs.Order.{ParentsComeFirst, PassesForward, PassesWithin};

use crate::builder::Builder;
use crate::collector::Collector;
use crate::element::Element;
use crate::report::all_messages;
use crate::room::Room;
use ra_ap_parser::{Edition, MAX_TEXT, ParsedTokens, TextFault, TopEntryPoint, parse_tokens};
use rap_base::no_memory::NoMemory;
use rap_events::output::Output;
use rap_lexed::lexed_str::LexedStr;
use rap_ranged::message::Message;
use std::alloc::Global;

/// A tree over a text: the list of its nodes and leaves in preorder. It borrows the text.
#[derive(Drop)]
pub struct FlatTree<'t> {
    text: &'t str,
    elements: Vec<Element>,
    messages: Vec<Message>,
    ghost parents: { ParentsComeFirst elements.items },
    ghost forward: { PassesForward elements.items },
    ghost within: { PassesWithin elements.items },
}

impl<'t> FlatTree<'t> {
    /// The tree of an output over a lexed text, with the trivia that the parser left out put back.
    ///
    /// It requires what [`LexedStr::intersperse_trivia`] requires, and has the nodes and leaves of that call, in order.
    /// The first leaf begins at 0, each further one where the leaf before it ends, and each is as long as its text. A
    /// node begins where the leaves before it end, and ends where its own last leaf ends; a node without a leaf is
    /// empty. The root ends where the tokens that the output covers end, with the trivia after them; what follows in
    /// the text is in no node. Every range is on character boundaries of the text, so [`FlatTree::text_of`] returns the
    /// text of each element. The output's messages are not kept. Room is made once, for as many elements as the output
    /// has steps and the text has tokens. The error means out of memory.
    pub fn build(
        alloc: Global,
        lexed: &LexedStr<'t>,
        output: &Output,
    ) -> Result<FlatTree<'t>, NoMemory>
        requires tree { one_tree output.now ≡ true }
        requires prefix { (edition : Edition) × (covers (records lexed.now.tokens edition) output.now ≡ true) }
        ensures flat { IfOk result (λ tree. IsFlat (with_trivia lexed.now.tokens output.now) tree.elements.items) }
        ensures text { IfOk result (λ tree. tree.text.now ≡ joined lexed.now.tokens) }
        ensures messages { IfOk result (λ tree. tree.messages.items ≡ []) }
        ensures over { IfOk result (λ tree. IsOver (joined lexed.now.tokens) (joined (front_of (used output.now) lexed.now.tokens))
            (with_trivia lexed.now.tokens output.now) tree.elements.items) }
        ensures whole { IfOk result (λ tree. used output.now ≡ significant lexed.now.tokens
            → IsOver (joined lexed.now.tokens) (joined lexed.now.tokens) (with_trivia lexed.now.tokens output.now) tree.elements.items) }
    {
        let count = lexed.len();
        let room = output.iter().len().saturating_add(count);
        let mut builder = Builder::with_room(alloc, room)?;
        let _whole = lexed.intersperse_trivia(output, &mut builder)?;
        Ok(FlatTree {
            text: lexed.as_str(),
            elements: builder.into_elements(),
            messages: Vec::new(alloc),
        })
    }

    /// The tree of a text: the text is divided into tokens, and parsed from the entry point. The tree keeps the messages.
    ///
    /// The errors are those of [`parse_text`]; if the list or a message is out of memory, the error is `Refused`.
    pub fn of_text(
        alloc: Global,
        edition: Edition,
        entry: TopEntryPoint,
        text: &'t str,
    ) -> Result<FlatTree<'t>, TextFault<NoMemory>>
        ensures tree { IfOk result (λ tree. IsFlatText text.now edition entry tree.elements.items tree.messages.items) }
        ensures text { IfOk result (λ tree. tree.text.now ≡ text.now) }
        ensures too_long { (result ≡ Err TextFault.TextTooLong) ↔ (MAX_TEXT < length text.now) }
        ensures too_many { (result ≡ Err TextFault.TooManyTokens) ↔ HasTooManyTokens text.now edition }
    {
        FlatTree::with_room(alloc, edition, entry, text, Room::Doubled)
    }

    /// The tree of a text, as [`FlatTree::of_text`] makes it, for whoever keeps it: the list asks for no more room than
    /// its elements need, and what it has more where a float was split, which is not counted beforehand, is given back if
    /// the allocator can do so.
    ///
    /// The errors are those of [`FlatTree::of_text`].
    pub fn of_text_exact(
        alloc: Global,
        edition: Edition,
        entry: TopEntryPoint,
        text: &'t str,
    ) -> Result<FlatTree<'t>, TextFault<NoMemory>>
        ensures tree { IfOk result (λ tree. IsFlatText text.now edition entry tree.elements.items tree.messages.items) }
        ensures text { IfOk result (λ tree. tree.text.now ≡ text.now) }
        ensures too_long { (result ≡ Err TextFault.TextTooLong) ↔ (MAX_TEXT < length text.now) }
        ensures too_many { (result ≡ Err TextFault.TooManyTokens) ↔ HasTooManyTokens text.now edition }
    {
        let mut tree = FlatTree::with_room(alloc, edition, entry, text, Room::Exact)?;
        tree.elements.shrink_to_fit();
        Ok(tree)
    }

    // The tree of a text, whose list gets this room before its first step, if there is memory for it.
    fn with_room(
        alloc: Global,
        edition: Edition,
        entry: TopEntryPoint,
        text: &'t str,
        room: Room,
    ) -> Result<FlatTree<'t>, TextFault<NoMemory>>
        ensures tree { IfOk result (λ tree. IsFlatText text.now edition entry tree.elements.items tree.messages.items) }
        ensures text { IfOk result (λ tree. tree.text.now ≡ text.now) }
        ensures too_long { (result ≡ Err TextFault.TextTooLong) ↔ (MAX_TEXT < length text.now) }
        ensures too_many { (result ≡ Err TextFault.TooManyTokens) ↔ HasTooManyTokens text.now edition }
    {
        let parsed = parse_tokens(alloc, edition, entry, text)?;
        let ParsedTokens { lexed, output } = parsed;
        let mut collector = Collector::with_hint(alloc, room.of(&lexed, &output));
        let Ok(_whole) = lexed.intersperse_trivia(&output, &mut collector) else {
            return Err(TextFault::Refused(NoMemory));
        };
        drop(output);
        let mut of_lexer = Collector::with_hint(alloc, 0);
        let Ok(()) = lexed.report_errors(&mut of_lexer) else {
            return Err(TextFault::Refused(NoMemory));
        };
        let Collector {
            builder,
            reports,
            ..
        } = collector;
        let elements = builder.into_elements();
        match all_messages(alloc, reports, of_lexer.reports, elements.as_slice()) {
            Ok(messages) => Ok(FlatTree {
                text,
                elements,
                messages,
            }),
            Err(NoMemory) => Err(TextFault::Refused(NoMemory)),
        }
    }

    /// The messages, each with the range of the leaf at which it is: none after [`FlatTree::build`]; after
    /// [`FlatTree::of_text`] and [`FlatTree::of_text_exact`] those of the parser and those of the lexer in the order of their positions. Of two at one
    /// position that of the parser comes first, and each of the two lists keeps its order.
    pub fn messages(&self) -> &[Message]
        ensures { result.now ≡ self.now.messages.items }
    {
        self.messages.as_slice()
    }

    /// The nodes and leaves in preorder, and the messages, without the text: so they outlive its borrow.
    pub fn into_lists(self) -> (Vec<Element>, Vec<Message>)
        ensures elements { result.0.items ≡ self.entry.elements.items }
        ensures messages { result.1.items ≡ self.entry.messages.items }
    {
        let FlatTree {
            text: _,
            elements,
            messages,
        } = self;
        (elements, messages)
    }

    /// The text that the tree is over.
    pub fn text(&self) -> &'t str
        ensures { result.now ≡ self.now.text.now }
    {
        self.text
    }

    /// The nodes and leaves in preorder.
    pub fn elements(&self) -> &[Element]
        ensures { result.now ≡ self.now.elements.items }
    {
        self.elements.as_slice()
    }

    /// The node or leaf with this index. `None` exactly of an index that none has.
    pub fn element(&self, index: u32) -> Option<&Element>
        ensures { option_copied result ≡ slice_get self.now.elements.items index }
    {
        self.elements.get(index as usize)
    }

    /// The text of a node or leaf: that of its range. No memory is allocated, and nothing is copied.
    pub fn text_of(&self, element: &Element) -> &'t str
        requires { IsPlace self.now.text.now element.now.start element.now.end }
        ensures { result.now ≡ slice_range self.now.text.now element.now.start element.now.end }
    {
        let range = element.range();
        &self.text[range.start..range.end]
    }
}
