//! The tree of a file.
ghost use Rattle.std.specs.Prelude.{◌≡◌, ◌<◌, ◌≤◌, ◌^◌, length, IfOk, IfErr};
ghost use Rattle.hph_ast.specs.Tokens.{SpellsTokens};
ghost use Rattle.hph_file.specs.Answers.{IsParsed, IsRead, IsFirst};
ghost use Rattle.hph_file.specs.Trees.{IsTree, offset_of};

use crate::fault::FileFault;
use hph_accept::{token_construct, tree_construct};
use hph_ast::{FileTree, Token};
use hph_lex::LexFault;
use hph_parse::{TreeFault, parse};
use sqlite_items::Items;
use std::alloc::Global;

/// What a file's bytes spell.
#[derive(Drop)]
pub struct Parsed {
    pub tokens: Items<Token>,
    /// What the tokens spell. Its sites have no numbers.
    pub tree: FileTree,
}

/// The tree of a file's bytes; or the file's first fault, as `FileFault` says. Memory may run out at any file.
pub fn read(alloc: Global, bytes: &[u8]) -> Result<FileTree, FileFault>
    requires { length bytes.now < 2 ^ 32 }
    ensures tree { IfOk result (IsRead bytes.now) }
    ensures fault { IfErr result (IsFirst bytes.now) }
{
    let parsed = front(alloc, bytes)?;
    Ok(parsed.tree)
}

/// The tokens and the tree of a file's bytes; or the file's first fault.
pub fn front(alloc: Global, bytes: &[u8]) -> Result<Parsed, FileFault>
    requires { length bytes.now < 2 ^ 32 }
    ensures parsed { IfOk result (λ parsed. IsParsed bytes.now parsed.tokens parsed.tree) }
    ensures fault { IfErr result (IsFirst bytes.now) }
{
    let tokens = tokens(alloc, bytes)?;
    if let Some((kind, offset)) = token_construct(&tokens) {
        return Err(FileFault::Construct { kind, offset });
    }
    let tree = tree(alloc, &tokens, bytes.len() as u32)?;
    if let Some((kind, offset)) = tree_construct(alloc, &tree) {
        return Err(FileFault::Construct { kind, offset });
    }
    Ok(Parsed {
        tokens: Items::from_vec(tokens),
        tree,
    })
}

/// The tokens of a file's bytes.
fn tokens(alloc: Global, bytes: &[u8]) -> Result<Vec<Token>, FileFault>
    requires { length bytes.now < 2 ^ 32 }
    ensures spelled { IfOk result (λ tokens. SpellsTokens bytes.now tokens.items) }
    ensures fault { IfErr result (IsFirst bytes.now) }
{
    match hph_lex::tokens(alloc, bytes) {
        Ok(tokens) => Ok(tokens),
        Err(LexFault::Bad(kind, offset)) => Err(FileFault::Lex { kind, offset }),
        Err(LexFault::Refused(kind, offset)) => Err(FileFault::Construct { kind, offset }),
        Err(LexFault::NoMemory) => Err(FileFault::NoMemory),
    }
}

/// The tree of all tokens of a file of so many bytes.
fn tree(alloc: Global, tokens: &[Token], length: u32) -> Result<FileTree, FileFault>
    ensures { IsTree tokens.now result }
{
    match parse(alloc, tokens) {
        Ok(tree) => Ok(tree),
        Err(TreeFault::TooDeep(index)) => Err(FileFault::TooDeep {
            offset: offset_of(tokens, index, length),
        }),
        Err(TreeFault::Syntax(index)) => Err(FileFault::Syntax {
            offset: offset_of(tokens, index, length),
        }),
        Err(TreeFault::NoMemory) => Err(FileFault::NoMemory),
    }
}

/// Where a token begins; behind the last one the file's length.
fn offset_of(tokens: &[Token], index: usize, length: u32) -> u32
    ensures { result ≡ offset_of tokens.now index length }
{
    match tokens.get(index) {
        Some(token) => token.start,
        None => length,
    }
}
