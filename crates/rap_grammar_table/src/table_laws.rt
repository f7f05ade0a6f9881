//! Laws of what the table derives. Each is a function that does nothing and whose contract is the law.
ghost use Rattle.rap_grammar_table.specs.Again.{MakesItsNodes};
ghost use Rattle.rap_grammar_table.specs.Category.{AnchoredPath, AssocItems, Block, Expr, ExternItems, FrontStmt, GlobalPath, Item, ItemList, LastStmt, MatchArms, Meta, Path, Pattern, RecordFields, RecordValues, SinglePattern, TokenTree, Ty, UseTrees, Variants, Visibility};
ghost use Rattle.rap_grammar_table.specs.Laws.{HasOneForest, HasOneTree};
ghost use Rattle.rap_grammar_table.specs.Tops.{file_row, items_row, stmts_row};

/// The same tokens have at most one tree, in each category that an entry point or a reparser reads, and at most one
/// forest under the node of an entry that makes one over the whole input.
pub fn one_tree_each()
    ensures types { HasOneTree Ty }
    ensures expressions { HasOneTree Expr }
    ensures patterns { HasOneTree Pattern }
    ensures single_patterns { HasOneTree SinglePattern }
    ensures metas { HasOneTree Meta }
    ensures paths { HasOneTree Path }
    ensures global_paths { HasOneTree GlobalPath }
    ensures anchored_paths { HasOneTree AnchoredPath }
    ensures last_statements { HasOneTree LastStmt }
    ensures items { HasOneTree Item }
    ensures visibilities { HasOneTree Visibility }
    ensures statements { HasOneTree FrontStmt }
    ensures blocks { HasOneTree Block }
    ensures field_lists { HasOneTree RecordFields }
    ensures value_lists { HasOneTree RecordValues }
    ensures variant_lists { HasOneTree Variants }
    ensures arm_lists { HasOneTree MatchArms }
    ensures use_lists { HasOneTree UseTrees }
    ensures extern_lists { HasOneTree ExternItems }
    ensures assoc_lists { HasOneTree AssocItems }
    ensures item_lists { HasOneTree ItemList }
    ensures token_trees { HasOneTree TokenTree }
    ensures files { HasOneForest file_row }
    ensures macro_items { HasOneForest items_row }
    ensures macro_statements { HasOneForest stmts_row }
{}

/// A node that begins with a brace and has a reparser is made by its own tokens, wherever it stands in the tree of
/// something that the table derives.
pub fn nodes_are_made_again()
    ensures { MakesItsNodes }
{}
