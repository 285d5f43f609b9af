ghost use Rattle.std.specs.Prelude.{◌≡◌, ◌∷◌, [], Ok};
ghost use Rattle.hph_ast.specs.declared.stmt.Statement.{out-Statement};
ghost use Rattle.hph_text.specs.Texts as spec;
ghost use Rattle.hph_text.specs.Texts.{in_order, statement_start};
ghost use Rattle.hph_text.specs.Gives.{Gives, GivesOne, Adds};

use crate::fault::TextsFault;
use hph_ast::{Expr, FileTree, Statement};
use hph_cursor::place;
use itoa::Buffer;
use sqlite_items::Items;
use std::alloc::Global;

/// The texts that a file prints, in order; `Unlowered` where it is of another form, with the offset of the first node that
/// is neither inline text, nor an empty statement, nor `echo`, nor a whole number or a text that is echoed.
#[tactic(auto, using(crate::proofs::Order::order))]
pub fn texts(alloc: Global, tree: &FileTree) -> Result<Items<Items<u8>>, TextsFault>
    ensures { Gives (spec.file_texts tree.now) result }
{
    let mut texts = Items::new(alloc);
    for statement in tree.statements.as_slice() {
        add_statement(alloc, statement, &mut texts)?;
    }
    Ok(texts)
}

/// The texts of a statement, behind those before it.
#[tactic(auto, using(crate::proofs::Order::order))]
fn add_statement(
    alloc: Global,
    statement: &Statement,
    texts: &mut Items<Items<u8>>,
) -> Result<(), TextsFault>
    ensures { Adds (spec.statement_texts statement.now) texts.old texts.new result }
{
    match statement {
        Statement::Empty { .. } => Ok(()),
        Statement::InlineText { bytes, .. } => {
            texts.push(Items::from_slice(alloc, bytes.as_slice())?)?;
            Ok(())
        }
        Statement::Echo { values, .. } => add_operands(alloc, values.as_slice(), texts),
        _ => Err(TextsFault::Unlowered(start(statement))),
    }
}

/// The texts of operands, behind those before them.
#[tactic(auto, using(crate::proofs::Order::order))]
fn add_operands(
    alloc: Global,
    operands: &[Expr],
    texts: &mut Items<Items<u8>>,
) -> Result<(), TextsFault>
    ensures { Adds (in_order spec.operand_texts operands.now) texts.old texts.new result }
{
    for operand in operands {
        let text = operand_text(alloc, operand)?;
        texts.push(text)?;
    }
    Ok(())
}

/// The text of an operand.
fn operand_text(alloc: Global, operand: &Expr) -> Result<Items<u8>, TextsFault>
    ensures { GivesOne (λ text. Ok (text ∷ [])) (spec.operand_texts operand.now) result }
{
    match operand {
        Expr::Int { value, .. } => Ok(Items::from_slice(
            alloc,
            Buffer::new().format(*value).as_bytes(),
        )?),
        Expr::Text { bytes, .. } => Ok(Items::from_slice(alloc, bytes.as_slice())?),
        _ => Err(TextsFault::Unlowered(place(operand).start)),
    }
}

/// The offset of a statement's first byte.
fn start(statement: &Statement) -> u32
    ensures { result ≡ statement_start (out-Statement statement.now) }
{
    match statement {
        Statement::Function { function } => function.get().at.start,
        Statement::Class { class } => class.get().at.start,
        Statement::Empty { at }
        | Statement::InlineText { at, .. }
        | Statement::Block { at, .. }
        | Statement::Expression { at, .. }
        | Statement::If { at, .. }
        | Statement::While { at, .. }
        | Statement::DoWhile { at, .. }
        | Statement::For { at, .. }
        | Statement::Foreach { at, .. }
        | Statement::Switch { at, .. }
        | Statement::Break { at, .. }
        | Statement::Continue { at, .. }
        | Statement::Return { at, .. }
        | Statement::Echo { at, .. }
        | Statement::Global { at, .. }
        | Statement::Static { at, .. }
        | Statement::Unset { at, .. }
        | Statement::Const { at, .. } => at.start,
    }
}
