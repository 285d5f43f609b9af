//! Rows of this project's list of refused constructs, on tokens and trees that are put together by hand.
use hph_accept::{token_construct, tree_construct};
use hph_ast::{At, Construct, Expr, FileTree, Keyword, Kind, Mark, Statement, Token};
use sqlite_items::{Boxed, Items};
use std::alloc::{AllocError, Global};
use std::test::Fail;

/// A token of this kind from a byte to the next.
fn token(kind: Kind, start: u32) -> Token {
    Token {
        kind,
        start,
        end: start.saturating_add(1),
    }
}

fn name(alloc: Global, spelled: &[u8], start: u32) -> Result<Token, AllocError> {
    Ok(token(Kind::Name(Items::from_slice(alloc, spelled)?), start))
}

#[test]
fn the_first_refused_token_is_told(rt: HostRuntime) {
    let tokens = [
        token(Kind::Keyword(Keyword::Echo), 6),
        token(Kind::Keyword(Keyword::Clone), 11),
        token(Kind::Keyword(Keyword::Eval), 17),
    ];
    assert!(rt; token_construct(tokens.as_slice()) == Some((Construct::Clone, 11)));
    assert!(rt; token_construct(&tokens[..1]) == None);
}

#[test]
fn an_enum_is_refused_before_a_name_and_not_as_a_member(rt: HostRuntime) -> Result<(), Fail> {
    let alloc = rt.alloc();
    let declared = [name(alloc, b"Enum", 6)?, name(alloc, b"Suit", 11)?];
    assert!(rt; token_construct(declared.as_slice()) == Some((Construct::TypeKind, 6)));
    let member = [
        token(Kind::Mark(Mark::Arrow), 6),
        name(alloc, b"enum", 8)?,
        name(alloc, b"as", 13)?,
    ];
    assert!(rt; token_construct(member.as_slice()) == None);
    Ok(())
}

/// From a byte to the next.
fn at(start: u32) -> At {
    At {
        start,
        end: start.saturating_add(1),
        site: 0,
    }
}

fn variable(alloc: Global, spelled: &[u8], start: u32) -> Result<Expr, AllocError> {
    Ok(Expr::Variable {
        at: at(start),
        name: Items::from_slice(alloc, spelled)?,
    })
}

/// The tree of a file with this statement.
fn file(alloc: Global, statement: Statement) -> Result<FileTree, Fail> {
    let mut statements = Items::new(alloc);
    statements.push(statement)?;
    Ok(FileTree {
        at: at(0),
        statements,
    })
}

fn leave(levels: Option<u64>) -> Statement {
    Statement::Break { at: at(20), levels }
}

/// `while ($a) break ..;`
fn leave_in_a_loop(alloc: Global, levels: Option<u64>) -> Result<FileTree, Fail> {
    let test = Boxed::new(alloc, variable(alloc, b"a", 12)?)?;
    let body = Boxed::new(alloc, leave(levels))?;
    file(
        alloc,
        Statement::While {
            at: at(6),
            test,
            body,
        },
    )
}

#[test]
fn a_break_needs_as_many_loops_as_it_leaves(rt: HostRuntime) -> Result<(), Fail> {
    let alloc = rt.alloc();
    let bad = Some((Construct::BadBreak, 20));
    assert!(rt; tree_construct(alloc, &file(alloc, leave(None))?) == bad);
    assert!(rt; tree_construct(alloc, &leave_in_a_loop(alloc, None)?) == None);
    assert!(rt; tree_construct(alloc, &leave_in_a_loop(alloc, Some(1))?) == None);
    assert!(rt; tree_construct(alloc, &leave_in_a_loop(alloc, Some(0))?) == bad);
    assert!(rt; tree_construct(alloc, &leave_in_a_loop(alloc, Some(2))?) == bad);
    Ok(())
}

#[test]
fn this_is_refused_outside_methods(rt: HostRuntime) -> Result<(), Fail> {
    let alloc = rt.alloc();
    let value = Boxed::new(alloc, variable(alloc, b"this", 6)?)?;
    let tree = file(alloc, Statement::Expression { at: at(6), value })?;
    assert!(rt; tree_construct(alloc, &tree) == Some((Construct::ThisOutside, 6)));
    Ok(())
}
