//! For how many nodes and leaves of a text's tree a list gets room before its first step.

ghost use Rattle.std.specs.Prelude.{◌≡◌, true};
ghost use Rattle.rap_events.specs.Forest.{splits_placed};

use rap_base::room::doubled;
use rap_events::output::Output;
use rap_lexed::lexed_str::LexedStr;

/// How much room a list gets. More than that is needed only where a float is split: what it gives is not counted.
#[derive(Clone, Copy, Debug, PartialEq, Eq)]
pub(crate) enum Room {
    /// As much as a list comes to that begins with one to two bytes of the text and doubles its room, so that it has never
    /// less: where trees are made and dropped, blocks of like sizes serve the next one.
    Doubled,
    /// As much as the elements need.
    Exact,
}

impl Room {
    /// For how many elements of an output's tree, which must cover the text, room is made.
    ///
    /// It is not inlined, so that the walk which fills the list keeps its registers: else that took a twentieth
    /// more instructions.
    #[inline(never)]
    pub(crate) fn of(self, lexed: &LexedStr<'_>, output: &Output) -> usize
        ensures { splits_placed output.now ≡ true }
    {
        let used = output.used();
        let steps = output.iter();
        let trivia = lexed.len().saturating_sub(used);
        // No list begins with room for less than four.
        let first = (lexed.as_str().len() / 2).max(4);
        // A node has two steps, and a leaf one that stands for at least one token.
        let most = (steps.len().saturating_add(used) / 2).saturating_add(trivia);
        if self == Room::Doubled && most <= first {
            return first;
        }
        let needed = steps.elements().saturating_add(trivia);
        match self {
            Room::Doubled => doubled(first, needed),
            Room::Exact => needed,
        }
    }
}
