//! Text without white space and comments.
ghost use Rattle.std.specs.Prelude.{◌≡◌, ◌++◌, IfOk, OnOk, string_bytes};
ghost use Rattle.syntax_tree.specs.Leaves.{leaves_of};
ghost use Rattle.syntax_tree.specs.Places.{HavePlaces, IsPlace};
ghost use Rattle.syntax_tree.specs.PlainText.{plain_leaf, plain_text};

use crate::leaf::Leaf;
use crate::node::Node;
use crate::tree::Tree;
use rap_base::no_memory::NoMemory;
use std::alloc::Global;

impl Node {
    /// The text of the node without white space and comments: the texts of its other leaves, in order, with nothing
    /// between them. The tree must be that of the node, as [`Tree::build`] and [`Tree::of_text`] return it. The error
    /// means out of memory.
    pub fn text_without_trivia(&self, alloc: Global, tree: &Tree<'_>) -> Result<String, NoMemory>
        requires { HavePlaces tree.now.text.now self.now.children }
        ensures { IfOk result (λ text. string_bytes text ≡ plain_text tree.now.text.now (leaves_of self.now.children)) }
    {
        let mut plain = String::new(alloc);
        'leaves: for leaf in self.leaves(alloc)? {
            push_plain(&mut plain, &leaf, tree.text())?;
        }
        Ok(plain)
    }
}

/// Adds the text of a leaf that is no trivia.
fn push_plain(plain: &mut String, leaf: &Leaf, text: &str) -> Result<(), NoMemory>
    requires { IsPlace text.now leaf.now.start leaf.now.end }
    ensures { OnOk result (string_bytes plain.new ≡ string_bytes plain.old ++ plain_leaf text.now leaf.now) }
{
    if !leaf.kind().is_trivia() {
        let range = leaf.range();
        plain.push_str(&text[range.start..range.end])?;
    }
    Ok(())
}
