//! Whether the first faults of modules are found, and none where there is none.
ghost use Rattle.std.specs.Prelude.{◌≡◌, ◌<◌, ◌^◌, length, IsTrue, IfSome};
ghost use Rattle.std.specs.List.{AllByRecursion};
ghost use Rattle.hph_wasm.specs.Functions.{functions};
ghost use Rattle.hph_wasm.specs.Rows.{size, list_size};

use crate::rows::{
    ACCESSES, AROUND, CONTROL, IN_FUNCTIONS, NUMBERS, OUTSIDE, VALID_CODE, VALID_MODULES, VARIABLES,
};
use crate::text::bytes_of;
use hph_wasm::{Func, Import, ImportDesc, Instr, Limits, Module, Name};
use hph_wdec::read;
use hph_wvalid::{ValidFault, decide};
use sqlite_items::Items;
use std::alloc::{AllocError, Global};
use std::process::Abort;
use std::test::Fail;

/// How many opcodes the instruction has, if fewer than 2^32.
#[cycle(counts)]
fn opcodes(instr: &Instr) -> Option<u32>
    ensures { IfSome result (λ n. n ≡ size instr.now) }
{
    match instr {
        Instr::Block(_, body) => opcodes_of(body.as_slice())?.checked_add(2),
        Instr::Loop(_, body) => opcodes_of(body.as_slice())?.checked_add(2),
        Instr::If(_, body, other) => {
            let inside = opcodes_of(body.as_slice())?.checked_add(2)?;
            match other {
                None => Some(inside),
                Some(other) => {
                    let behind = opcodes_of(other.as_slice())?.checked_add(1)?;
                    inside.checked_add(behind)
                }
            }
        }
        _ => Some(1),
    }
}

/// How many opcodes the instructions have, if fewer than 2^32.
#[cycle(counts)]
fn opcodes_of(list: &[Instr]) -> Option<u32>
    ensures { IfSome result (λ n. n ≡ list_size list.now) }
{
    match list {
        [] => Some(0),
        [first, rest @ ..] => {
            let one = opcodes(first)?;
            one.checked_add(opcodes_of(rest)?)
        }
    }
}

/// Whether each body has fewer than 2^32 opcodes.
fn are_short(funcs: &[Func]) -> bool
    ensures { IsTrue result → AllByRecursion (λ func. list_size func.body < 2 ^ 32) funcs.now }
{
    match funcs {
        [] => true,
        [func, rest @ ..] => opcodes_of(func.body.as_slice()).is_some() && are_short(rest),
    }
}

/// Whether there are fewer than 2^32 functions.
#[tactic(auto, using(crate::proofs::Counts::functions_fewer))]
fn are_few(m: &Module) -> bool
    ensures { IsTrue result → length (functions m.now) < 2 ^ 32 }
{
    m.imports.len() < 1 << 31 && m.funcs.len() < 1 << 31
}

/// The first fault of a module; none where it is valid.
fn fault_of(alloc: Global, m: &Module) -> Result<Option<(u32, u32)>, Fail> {
    if !are_few(m) || !are_short(m.funcs.as_slice()) {
        return Err("more than 2^32 functions or opcodes")?;
    }
    match decide(alloc, m) {
        Ok(()) => Ok(None),
        Err(ValidFault::Invalid(func, instr)) => Ok(Some((func, instr))),
        Err(ValidFault::NoMemory) => Err("no memory")?,
    }
}

/// The module of a text.
fn module(alloc: Global, text: &str) -> Result<Module, Fail> {
    let bytes = bytes_of(alloc, text)?;
    if bytes.len() >= 1 << 32 {
        return Err("more than 2^32 bytes")?;
    }
    match read(alloc, &bytes) {
        Ok(m) => Ok(m),
        Err(_) => Err("the bytes are not read")?,
    }
}

/// The first fault of the module of a text; none where it is valid.
fn fault_of_text(alloc: Global, text: &str) -> Result<Option<(u32, u32)>, Fail> {
    let m = module(alloc, text)?;
    fault_of(alloc, &m)
}

/// The first fault of a module that has this code in function 1.
fn fault_of_code(alloc: Global, code: &str) -> Result<Option<(u32, u32)>, Fail> {
    let text = format!(in alloc; "{AROUND} {code})")?;
    fault_of_text(alloc, text.as_str())
}

fn are_at(rt: &impl Abort, alloc: Global, rows: &[(&str, u32)]) -> Result<(), Fail> {
    for (code, opcode) in rows {
        let fault = fault_of_code(alloc, code)?;
        assert!(rt; fault == Some((1, *opcode)), "of {code}");
    }
    Ok(())
}

#[test]
fn accepts_code_by_the_rules(rt: HostRuntime) -> Result<(), Fail> {
    for code in &VALID_CODE {
        let fault = fault_of_code(rt.alloc(), code)?;
        assert!(rt; fault.is_none(), "of {code}");
    }
    Ok(())
}

#[test]
fn finds_faults_of_instructions_on_numbers(rt: HostRuntime) -> Result<(), Fail> {
    are_at(&rt, rt.alloc(), &NUMBERS)
}

#[test]
fn finds_faults_of_operands_and_variables(rt: HostRuntime) -> Result<(), Fail> {
    are_at(&rt, rt.alloc(), &VARIABLES)
}

#[test]
fn finds_faults_of_accesses_to_the_memory(rt: HostRuntime) -> Result<(), Fail> {
    are_at(&rt, rt.alloc(), &ACCESSES)
}

#[test]
fn finds_faults_of_control(rt: HostRuntime) -> Result<(), Fail> {
    are_at(&rt, rt.alloc(), &CONTROL)
}

#[test]
fn accepts_modules_by_the_rules(rt: HostRuntime) -> Result<(), Fail> {
    for text in &VALID_MODULES {
        let fault = fault_of_text(rt.alloc(), text)?;
        assert!(rt; fault.is_none(), "of {text}");
    }
    Ok(())
}

#[test]
fn refuses_what_breaks_a_rule_outside_code(rt: HostRuntime) -> Result<(), Fail> {
    for text in &OUTSIDE {
        let fault = fault_of_text(rt.alloc(), text)?;
        assert!(rt; fault == Some((4294967295, 0)), "of {text}");
    }
    Ok(())
}

#[test]
fn numbers_functions_and_their_opcodes(rt: HostRuntime) -> Result<(), Fail> {
    for (text, func, opcode) in &IN_FUNCTIONS {
        let fault = fault_of_text(rt.alloc(), text)?;
        assert!(rt; fault == Some((*func, *opcode)), "of {text}");
    }
    Ok(())
}

/// An import of a memory.
fn import_of(alloc: Global, memory: Limits) -> Result<Items<Import>, AllocError> {
    let module = Name::new(alloc, "a")?;
    let name = Name::new(alloc, "m")?;
    let desc = ImportDesc::Memory(memory);
    Ok(Items::from_vec(vec![in alloc; Import { module, name, desc }]?))
}

/// The first fault of a module that has a memory, or imports one.
fn fault_of_memory(alloc: Global, memory: Limits) -> Result<Option<(u32, u32)>, Fail> {
    let memories = Items::from_slice(alloc, &[memory])?;
    let mut m = module(alloc, "")?;
    m.memories = memories;
    fault_of(alloc, &m)
}

fn fault_of_import(alloc: Global, memory: Limits) -> Result<Option<(u32, u32)>, Fail> {
    let imports = import_of(alloc, memory)?;
    let mut m = module(alloc, "")?;
    m.imports = imports;
    fault_of(alloc, &m)
}

/// Memories that begin with more pages than the reader takes.
#[test]
fn allows_memories_of_65536_pages_at_first(rt: HostRuntime) -> Result<(), Fail> {
    let greatest = Limits {
        min: 65536,
        max: Some(65536),
    };
    let greater = Limits {
        min: 65537,
        max: None,
    };
    let valid = (
        fault_of_memory(rt.alloc(), greatest)?,
        fault_of_import(rt.alloc(), greatest)?,
    );
    assert!(rt; valid == (None, None));
    let invalid = (
        fault_of_memory(rt.alloc(), greater)?,
        fault_of_import(rt.alloc(), greater)?,
    );
    let outside = Some((4294967295, 0));
    assert!(rt; invalid == (outside, outside));
    Ok(())
}
