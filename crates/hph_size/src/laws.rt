//! Laws on how large files, their trees and what they print are. Each is the contract of a function that does nothing, so
//! that crates above can cite it.

ghost use Rattle.std.specs.Prelude.{◌≡◌, ◌+◌, ◌*◌, ◌≤◌, ℕ, List, length, Ok};
ghost use Rattle.std.specs.List.{concat};
ghost use Rattle.hph_ast.specs.declared.token.Token.{Token};
ghost use Rattle.hph_ast.specs.declared.program.FileTree.{FileTree};
ghost use Rattle.hph_ast.specs.Tokens.{SpellsTokens};
ghost use Rattle.hph_ast.specs.Statements.{IsFile};
ghost use Rattle.hph_text.specs.Texts.{file_texts};
ghost use Rattle.hph_size.specs.Nodes.{tree_nodes};

use hph_ast::expression_uses_a_front;

/// The texts that a file prints have, with one byte more for each of them, at most twice as many bytes as the file.
pub fn texts_are_short()
    ensures { (bytes : List ℕ) (tokens : List Token) (tree : FileTree) (texts : List (List ℕ)) → SpellsTokens bytes tokens → IsFile tokens tree → file_texts tree ≡ Ok texts → length (concat texts) + length texts ≤ 2 * length bytes }
{
    expression_uses_a_front();
}

/// A file prints no more texts than its tree has nodes.
#[tactic(auto, using(crate::proofs::Nodes::texts_nodes))]
pub fn texts_are_nodes()
    ensures { (tree : FileTree) (texts : List (List ℕ)) → file_texts tree ≡ Ok texts → length texts ≤ tree_nodes tree }
{}
