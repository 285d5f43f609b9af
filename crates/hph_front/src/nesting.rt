use hph_ast::{At, Expr, FileTree, Prefix, Statement};
use hph_nest::{expr_fits, file_fits, is_constant};
use sqlite_items::{Boxed, Items};
use std::alloc::Global;
use std::test::Fail;

const AT: At = At {
    start: 0,
    end: 1,
    site: 0,
};

/// A file of the one statement `exit;`, which is nested 3 deep: the file, the statement and the expression.
fn exits(alloc: Global) -> Result<FileTree, Fail> {
    let mut statements = Items::new(alloc);
    let value = Boxed::new(alloc, Expr::Exit { at: AT })?;
    statements.push(Statement::Expression { at: AT, value })?;
    Ok(FileTree { at: AT, statements })
}

#[test]
fn the_file_and_the_statement_are_nodes(rt: HostRuntime) -> Result<(), Fail> {
    let tree = exits(rt.alloc())?;
    assert!(rt; file_fits(&tree, 3));
    assert!(rt; !file_fits(&tree, 2));
    Ok(())
}

#[test]
fn a_parenthesis_is_a_node(rt: HostRuntime) -> Result<(), Fail> {
    let inner = Boxed::new(rt.alloc(), Expr::Exit { at: AT })?;
    let outer = Expr::Paren { at: AT, inner };
    assert!(rt; expr_fits(&outer, 2));
    assert!(rt; !expr_fits(&outer, 1));
    Ok(())
}

#[test]
fn a_negative_number_is_constant_and_a_variable_is_not(rt: HostRuntime) -> Result<(), Fail> {
    let operand = Boxed::new(rt.alloc(), Expr::Int { at: AT, value: 1 })?;
    let negative = Expr::Prefix {
        at: AT,
        operator: Prefix::Minus,
        operand,
    };
    assert!(rt; is_constant(&negative));
    let variable = Expr::Variable {
        at: AT,
        name: Items::new(rt.alloc()),
    };
    assert!(rt; !is_constant(&variable));
    Ok(())
}
