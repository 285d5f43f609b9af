//! Bodies of functions (Core Specification 1.0, 3.3 and 3.4.1).
ghost use Rattle.std.specs.Prelude.{◌≡◌, ◌+◌, ◌<◌, ◌^◌, reverse, IfOk, OnOk, MatchOption};
ghost use Rattle.hph_wasm.specs.Rows.{size, list_size};
ghost use Rattle.hph_wasm.specs.Validity.{under_label, results_of, IsBody};
ghost use Rattle.hph_wasm.specs.Faults.{IsFirstFault};
ghost use Rattle.hph_wvalid.specs.Checking.{nothing, check, check_list, closed_by, first_at_fault, block_verdict, alone_verdict, branches_verdict, Agrees, AgreesBlock};
ghost use Rattle.hph_wvalid.specs.Spaces.{spaces_of, context_of, IsNumbered};

use crate::plain::check_plain;
use crate::scope::Scope;
use crate::spaces::Spaces;
use crate::stack::{Stack, ends_with, pop_any, pop_choice, pop_type, push_each};
use hph_wasm::{BlockType, Func, FuncType, Instr, Module, ValType};
use sqlite_items::Items;
use std::alloc::{AllocError, Global};

/// A block's results.
fn results(alloc: Global, ty: BlockType) -> Result<Items<ValType>, AllocError>
    ensures { IfOk result (λ types. types ≡ results_of ty) }
{
    match ty.result {
        None => Items::from_slice(alloc, &[]),
        Some(ty) => Items::from_slice(alloc, &[ty]),
    }
}

/// The types in the other order.
fn reversed(alloc: Global, types: &[ValType]) -> Result<Items<ValType>, AllocError>
    ensures { IfOk result (λ all. all ≡ reverse types.now) }
{
    let mut all = Vec::from_slice(alloc, types)?;
    all.reverse();
    Ok(Items::from_vec(all))
}

/// Counts the opcode of an instruction that is valid.
fn counted(stack: Option<Stack>, at: &mut usize) -> Option<Stack>
    requires room { at.old + 1 < 2 ^ 63 }
    ensures { Agrees (first_at_fault stack) at.old at.new 1 result }
{
    match stack {
        None => None,
        Some(stack) => {
            *at += 1;
            Some(stack)
        }
    }
}

/// The stack behind the instructions; none at a fault, and `at` has then counted the opcodes before it.
#[cycle(checks)]
fn check_all(
    alloc: Global,
    scope: &mut Scope<'_>,
    list: &[Instr],
    stack: Stack,
    at: &mut usize,
) -> Result<Option<Stack>, AllocError>
    requires numbered { IsNumbered scope.old }
    requires room { at.old + list_size list.now < 2 ^ 63 }
    ensures told { IfOk result (λ o. Agrees (check_list scope.old.«module».now (context_of scope.old) list.now stack) at.old at.new (list_size list.now) o) }
    ensures same { OnOk result (scope.new ≡ scope.old) }
{
    let mut stack = stack;
    for instr in list {
        match check_one(alloc, scope, instr, stack, at)? {
            None => return Ok(None),
            Some(next) => stack = next,
        }
    }
    Ok(Some(stack))
}

/// The same of one instruction.
#[cycle(checks)]
fn check_one(
    alloc: Global,
    scope: &mut Scope<'_>,
    instr: &Instr,
    stack: Stack,
    at: &mut usize,
) -> Result<Option<Stack>, AllocError>
    requires numbered { IsNumbered scope.old }
    requires room { at.old + size instr.now < 2 ^ 63 }
    ensures told { IfOk result (λ o. Agrees (check scope.old.«module».now (context_of scope.old) instr.now stack) at.old at.new (size instr.now) o) }
    ensures same { OnOk result (scope.new ≡ scope.old) }
{
    match instr {
        Instr::Block(ty, body) => {
            let label = results(alloc, *ty)?;
            check_block(alloc, scope, label, *ty, body.as_slice(), stack, at)
        }
        Instr::Loop(ty, body) => {
            let label = Items::new(alloc);
            check_block(alloc, scope, label, *ty, body.as_slice(), stack, at)
        }
        Instr::If(ty, body, other) => match pop_type(ValType::I32, stack) {
            None => Ok(None),
            Some(rest) => match other {
                None => check_alone(alloc, scope, *ty, body.as_slice(), rest, at),
                Some(other) => {
                    let other = other.as_slice();
                    check_branches(alloc, scope, *ty, body.as_slice(), other, rest, at)
                }
            },
        },
        Instr::Drop => Ok(counted(pop_any(stack), at)),
        Instr::Select => Ok(counted(pop_choice(stack)?, at)),
        _ => Ok(counted(check_plain(scope, instr, stack)?, at)),
    }
}

/// The same of a block or a loop, at whose label a branch takes these types.
#[cycle(checks)]
#[tactic(auto, using(crate::proofs::Views::block_well, crate::proofs::Views::block_ill))]
fn check_block(
    alloc: Global,
    scope: &mut Scope<'_>,
    label: Items<ValType>,
    ty: BlockType,
    body: &[Instr],
    stack: Stack,
    at: &mut usize,
) -> Result<Option<Stack>, AllocError>
    requires numbered { IsNumbered scope.old }
    requires room { at.old + (2 + list_size body.now) < 2 ^ 63 }
    ensures told { IfOk result (λ o. Agrees (block_verdict scope.old.«module».now (context_of scope.old) label ty body.now stack)
        at.old at.new (2 + list_size body.now) o) }
    ensures same { OnOk result (scope.new ≡ scope.old) }
{
    let given = results(alloc, ty)?;
    *at += 1;
    if check_inside(alloc, scope, label, given.as_slice(), body, at)? {
        *at += 1;
        Ok(Some(push_each(given.as_slice(), stack)?))
    } else {
        Ok(None)
    }
}

/// The same of an `if` without `else`, whose condition has been taken.
#[cycle(checks)]
#[tactic(auto, using(crate::proofs::Views::alone_well, crate::proofs::Views::alone_left, crate::proofs::Views::alone_ill))]
fn check_alone(
    alloc: Global,
    scope: &mut Scope<'_>,
    ty: BlockType,
    body: &[Instr],
    stack: Stack,
    at: &mut usize,
) -> Result<Option<Stack>, AllocError>
    requires numbered { IsNumbered scope.old }
    requires room { at.old + (2 + list_size body.now) < 2 ^ 63 }
    ensures told { IfOk result (λ o. Agrees (alone_verdict scope.old.«module».now (context_of scope.old) ty body.now stack)
        at.old at.new (2 + list_size body.now) o) }
    ensures same { OnOk result (scope.new ≡ scope.old) }
{
    let given = results(alloc, ty)?;
    let label = results(alloc, ty)?;
    *at += 1;
    if check_inside(alloc, scope, label, given.as_slice(), body, at)? {
        if given.is_empty() {
            *at += 1;
            Ok(Some(stack))
        } else {
            Ok(None)
        }
    } else {
        Ok(None)
    }
}

/// The same of an `if` with two branches, whose condition has been taken.
#[cycle(checks)]
#[tactic(auto, using(crate::proofs::Branches::branches_well, crate::proofs::Branches::other_ill, crate::proofs::Views::branches_ill))]
fn check_branches(
    alloc: Global,
    scope: &mut Scope<'_>,
    ty: BlockType,
    body: &[Instr],
    other: &[Instr],
    stack: Stack,
    at: &mut usize,
) -> Result<Option<Stack>, AllocError>
    requires numbered { IsNumbered scope.old }
    requires room { at.old + (2 + (list_size body.now + (1 + list_size other.now))) < 2 ^ 63 }
    ensures told { IfOk result (λ o. Agrees (branches_verdict scope.old.«module».now (context_of scope.old) ty body.now other.now stack)
        at.old at.new (2 + (list_size body.now + (1 + list_size other.now))) o) }
    ensures same { OnOk result (scope.new ≡ scope.old) }
{
    let given = results(alloc, ty)?;
    let label = results(alloc, ty)?;
    let other_label = results(alloc, ty)?;
    *at += 1;
    if check_inside(alloc, scope, label, given.as_slice(), body, at)? {
        *at += 1;
        if check_inside(alloc, scope, other_label, given.as_slice(), other, at)? {
            *at += 1;
            Ok(Some(push_each(given.as_slice(), stack)?))
        } else {
            Ok(None)
        }
    } else {
        Ok(None)
    }
}

/// Whether the instructions inside a label are valid, and give just these types.
#[cycle(checks)]
#[tactic(auto, using(crate::proofs::Labels::label_entered, crate::proofs::Labels::label_left))]
fn check_inside(
    alloc: Global,
    scope: &mut Scope<'_>,
    label: Items<ValType>,
    given: &[ValType],
    body: &[Instr],
    at: &mut usize,
) -> Result<bool, AllocError>
    requires numbered { IsNumbered scope.old }
    requires room { at.old + list_size body.now < 2 ^ 63 }
    ensures told { IfOk result (λ ok. AgreesBlock
        (closed_by 0 (list_size body.now) given.now nothing (check_list scope.old.«module».now (under_label label (context_of scope.old)) body.now nothing))
        at.old at.new (list_size body.now) ok) }
    ensures same { OnOk result (scope.new ≡ scope.old) }
{
    scope.labels.push(label)?;
    let inner = check_all(alloc, scope, body, Stack::new(alloc), at)?;
    scope.labels.pop();
    match inner {
        None => Ok(false),
        Some(stack) => Ok(ends_with(given, stack)),
    }
}

/// The number of the first opcode at fault in a function's body; none where the body is valid.
pub fn first_fault(
    alloc: Global,
    m: &Module,
    spaces: &Spaces,
    ty: &FuncType,
    func: &Func,
) -> Result<Option<usize>, AllocError>
    requires numbered { spaces.now ≡ spaces_of m.now }
    requires short { list_size func.now.body < 2 ^ 32 }
    ensures { IfOk result (λ fault. MatchOption fault (IsBody m.now ty.now func.now) (λ k. IsFirstFault m.now ty.now func.now k)) }
{
    let given = reversed(alloc, ty.results.as_slice())?;
    let label = reversed(alloc, ty.results.as_slice())?;
    let mut scope = Scope {
        module: m,
        spaces,
        ty,
        func,
        labels: Items::new(alloc),
    };
    let mut at = 0;
    if check_inside(
        alloc,
        &mut scope,
        label,
        given.as_slice(),
        func.body.as_slice(),
        &mut at,
    )? {
        Ok(None)
    } else {
        Ok(Some(at))
    }
}
