//! Queries on a tree.
ghost use Rattle.std.specs.Prelude.{◌≡◌, option_copied};
ghost use Rattle.syntax_tree.specs.Queries.{first_of_kind};

use crate::node::{Child, Node};
use rap_base::syntax_kind::SyntaxKind;

impl Node {
    /// The first child node of the kind. A leaf of the kind does not count, nor does a node
    /// further inside.
    pub fn child_of_kind(&self, kind: SyntaxKind) -> Option<&Node>
        ensures { option_copied result ≡ first_of_kind kind self.now.children }
    {
        for child in self.children() {
            let Child::Node(node) = child else {
                continue;
            };
            if node.kind() == kind {
                return Some(node);
            }
        }
        None
    }
}
