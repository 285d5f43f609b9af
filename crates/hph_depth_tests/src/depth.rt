//! Blocks nested as deep as is read: they pass through writer, reader and validator and are let go of, on the main thread and on
//! worker threads.
ghost use Rattle.std.specs.Prelude.{◌≡◌, ◌≤◌, ◌<◌, ◌*◌, ◌^◌, length, flat_map, IfOk};
ghost use Rattle.hph_wasm.specs.Spelling.{instr_bytes, IsWritable};

use hph_wasm::{BlockType, Feature, Func, FuncType, Instr, Locals, Module};
use hph_wdec::{ModuleFault, read};
use hph_wenc::write;
use hph_wvalid::valid;
use rayon::prelude::*;
use sqlite_items::Items;
use std::alloc::{AllocError, Global};
use std::test::Fail;

/// The most blocks, loops and ifs that may be open at once.
const MOST_BLOCKS: u32 = 4096;

/// So many blocks, one inside the other.
fn nested(alloc: Global, blocks: u32) -> Result<Items<Instr>, AllocError>
    ensures { IfOk result (λ body. length (flat_map instr_bytes body) ≡ 3 * blocks) }
{
    let nothing = BlockType { result: None };
    let mut body = Items::new(alloc);
    for _ in 0..blocks {
        body = Items::from_vec(vec![in alloc; Instr::Block(nothing, body)]?);
    }
    Ok(body)
}

/// A module with one function, whose body is so many blocks in one another.
fn deep_module(alloc: Global, blocks: u32) -> Result<Module, AllocError>
    requires { blocks ≤ 2 ^ 20 }
    ensures { IfOk result IsWritable }
{
    let body = nested(alloc, blocks)?;
    let func = Func {
        ty: 0,
        locals: Locals::new(alloc),
        body,
    };
    let funcs = Items::from_vec(vec![in alloc; func]?);
    let nothing = FuncType {
        params: Items::new(alloc),
        results: Items::new(alloc),
    };
    let types = Items::from_vec(vec![in alloc; nothing]?);
    Ok(Module {
        types,
        imports: Items::new(alloc),
        funcs,
        tables: Items::new(alloc),
        memories: Items::new(alloc),
        globals: Items::new(alloc),
        exports: Items::new(alloc),
        elements: Items::new(alloc),
        segments: Items::new(alloc),
    })
}

/// The bytes of that module.
fn deep_bytes(alloc: Global, blocks: u32) -> Result<Vec<u8>, AllocError>
    requires { blocks ≤ 2 ^ 20 }
    ensures { IfOk result (λ bytes. length bytes.items < 2 ^ 32) }
{
    let m = deep_module(alloc, blocks)?;
    write(alloc, &m)
}

/// Whether the module of as many blocks as may be is written, read again and valid.
fn passes(alloc: Global) -> bool {
    let Ok(bytes) = deep_bytes(alloc, MOST_BLOCKS) else {
        return false;
    };
    match read(alloc, &bytes) {
        Ok(m) => valid(alloc, m).is_ok(),
        Err(_) => false,
    }
}

#[test]
fn as_many_blocks_as_may_be_pass_on_the_main_thread(rt: HostRuntime) {
    assert!(rt; passes(rt.alloc()));
}

#[test]
fn as_many_blocks_as_may_be_pass_on_worker_threads(rt: HostRuntime) -> Result<(), Fail> {
    let alloc = rt.alloc();
    let passed = (0..4u32)
        .into_par_iter()
        .map(|_: u32| -> bool { passes(alloc) })
        .collect::<Vec<bool>>(&rt, alloc)?;
    for one in &passed {
        assert!(rt; *one);
    }
    Ok(())
}

#[test]
fn one_block_more_is_left_out_at_its_opcode(rt: HostRuntime) -> Result<(), Fail> {
    let alloc = rt.alloc();
    let bytes = deep_bytes(alloc, MOST_BLOCKS + 1)?;
    // 25 bytes stand before the first opcode, and two for each block that is open before the last.
    let fault = match read(alloc, &bytes) {
        Ok(_) => None,
        Err(fault) => Some(fault),
    };
    assert!(rt; fault == Some(ModuleFault::Unsupported(25 + 2 * 4096, Feature::BlockDepth)));
    Ok(())
}
