//! The code of functions (Core Specification 1.0, 5.5.13).
ghost use Rattle.std.specs.Prelude.{◌≡◌, length, IfOk, IfErr, OnOk};
ghost use Rattle.std.specs.List.{AllByRecursion};
ghost use Rattle.hph_wasm.specs.Grammar.{Vector, Sized};
ghost use Rattle.hph_wasm.specs.ModuleGrammar.{Code};
ghost use Rattle.hph_wasm.specs.Unsupported.{Any, IsSmallCode, StopsCode};
ghost use Rattle.hph_wread.specs.Reading.{Took, Fails};
ghost use Rattle.hph_wdec.specs.Locals.{LocalsAndBody, StopsLocalsAndBody};
ghost use Rattle.hph_wdec.specs.Next.{CountedCode, StopsCounted, CodesFor, StopsCodesFor};

use crate::entries::{EntryForm, counted_entries};
use crate::locals::locals;
use crate::sized::{is_filled, moved, within};
use hph_wasm::{
    Instr, Locals, instructions_are_read_in_one_way, parts_stop_in_one_place,
    sections_are_read_in_one_way, types_are_read_in_one_way,
};
use hph_wread::{Fault, expression, unsigned};
use sqlite_items::Items;
use std::alloc::Global;

/// The locals of a function behind its parameters, and its body.
pub type FuncCode = (Locals, Items<Instr>);

/// Code of functions.
pub struct CodeForm;

impl EntryForm for CodeForm {
    ghost use Rattle.hph_wasm.specs.ModuleGrammar.{Code};
    ghost use Rattle.hph_wasm.specs.Unsupported.{IsSmallCode, StopsCode};

    type Entry = FuncCode;

    ghost grammar = { Code };

    ghost fits = { IsSmallCode };

    ghost stop = { StopsCode };

    fn read_in_one_way() {
        sections_are_read_in_one_way();
        parts_stop_in_one_place();
    }

    fn read_entry(alloc: Global, bytes: &[u8]) -> Result<(FuncCode, &[u8]), Fault> {
        code(alloc, bytes)
    }
}

/// Code behind its size, which is read within that, and compared with it where the body ends.
fn code(alloc: Global, bytes: &[u8]) -> Result<(FuncCode, &[u8]), Fault>
    ensures read { IfOk result (λ r. Took (Code r.0) bytes.now r.1.now) }
    ensures fit { IfOk result (λ r. IsSmallCode r.0) }
    ensures stopped { IfErr result (λ e. Fails (Any Code) StopsCode bytes.now e) }
{
    types_are_read_in_one_way();
    sections_are_read_in_one_way();
    instructions_are_read_in_one_way();
    parts_stop_in_one_place();
    let (size, behind) = unsigned(bytes)?;
    let (inside, rest) = within(behind, size);
    match locals_and_body(alloc, inside) {
        Ok((code, after)) => {
            if !is_filled(size, inside, after) {
                return Err(Fault::Malformed(after.len() + rest.len()));
            }
            Ok((code, rest))
        }
        Err(fault) => Err(moved(fault, inside, rest)),
    }
}

/// What stands behind the size of code.
fn locals_and_body(alloc: Global, bytes: &[u8]) -> Result<(FuncCode, &[u8]), Fault>
    ensures read { IfOk result (λ r. Took (LocalsAndBody r.0) bytes.now r.1.now) }
    ensures fit { IfOk result (λ r. IsSmallCode r.0) }
    ensures stopped { IfErr result (λ e. Fails (Any LocalsAndBody) StopsLocalsAndBody bytes.now e) }
{
    sections_are_read_in_one_way();
    parts_stop_in_one_place();
    let (locals, behind) = locals(alloc, bytes)?;
    let (body, rest) = expression(alloc, behind)?;
    Ok(((locals, body), rest))
}

/// The content of the code section behind its size: code for each of so many functions, in place of what is in `into`.
pub fn codes<'a>(
    alloc: Global,
    functions: usize,
    bytes: &'a [u8],
    into: &mut Items<FuncCode>,
) -> Result<&'a [u8], Fault>
    ensures read { IfOk result (λ rest. Took (Sized (Vector Code into.new)) bytes.now rest.now) }
    ensures count { OnOk result (length into.new ≡ functions) }
    ensures fit { OnOk result (AllByRecursion IsSmallCode into.new) }
    ensures stopped { IfErr result (λ e. Fails (CodesFor functions) (StopsCodesFor functions) bytes.now e) }
{
    types_are_read_in_one_way();
    sections_are_read_in_one_way();
    parts_stop_in_one_place();
    let (size, behind) = unsigned(bytes)?;
    let (inside, rest) = within(behind, size);
    match codes_for(alloc, functions, inside) {
        Ok((codes, after)) => {
            if !is_filled(size, inside, after) {
                return Err(Fault::Malformed(after.len() + rest.len()));
            }
            *into = codes;
            Ok(rest)
        }
        Err(fault) => Err(moved(fault, inside, rest)),
    }
}

/// Code for each of so many functions, behind their number.
fn codes_for(
    alloc: Global,
    functions: usize,
    bytes: &[u8],
) -> Result<(Items<FuncCode>, &[u8]), Fault>
    ensures read { IfOk result (λ r. Took (Vector Code r.0) bytes.now r.1.now) }
    ensures count { IfOk result (λ r. length r.0 ≡ functions) }
    ensures fit { IfOk result (λ r. AllByRecursion IsSmallCode r.0) }
    ensures stopped { IfErr result (λ e. Fails (CountedCode functions) (StopsCounted functions) bytes.now e) }
{
    types_are_read_in_one_way();
    let (count, first) = unsigned(bytes)?;
    if count as usize != functions {
        return Err(Fault::Malformed(bytes.len()));
    }
    let (codes, rest) = counted_entries::<CodeForm>(alloc, count, first)?;
    Ok((codes, rest))
}
