//! The modules of programs that print texts, part by part.
ghost use Rattle.std.specs.Prelude.{◌≡◌, ◌≤◌, ◌+◌, ◌^◌, length, IfOk};
ghost use Rattle.std.specs.List.{concat};

use hph_lowm::module;
use hph_wasm::{Export, ExportDesc, Import, ImportDesc, Instr, Module};
use sqlite_items::Items;
use std::alloc::{AllocError, Global};
use std::test::Fail;

/// Whether the instructions print pieces of the memory, each given by its place and its length.
fn print(body: &[Instr], pieces: &[(i32, i32)]) -> bool {
    match (body, pieces) {
        ([], []) => true,
        (
            [
                Instr::I32Const(place),
                Instr::I32Const(length),
                Instr::Call(0),
                rest @ ..,
            ],
            [(first, size), behind @ ..],
        ) => place == first && length == size && print(rest, behind),
        _ => false,
    }
}

/// Whether `main` prints these pieces of these bytes, with which the memory begins.
fn prints(m: &Module, pieces: &[(i32, i32)], bytes: &[u8]) -> bool {
    match (m.funcs.as_slice(), m.segments.as_slice()) {
        ([main], [segment]) => {
            print(main.body.as_slice(), pieces) && segment.bytes.as_slice() == bytes
        }
        _ => false,
    }
}

/// The texts "3", nothing and "ab".
fn three_texts(alloc: Global) -> Result<Items<Items<u8>>, AllocError>
    ensures { IfOk result (λ texts. length (concat texts) + length texts ≡ 6) }
{
    let mut texts = Items::new(alloc);
    texts.push(Items::from_slice(alloc, b"3")?)?;
    texts.push(Items::from_slice(alloc, b"")?)?;
    texts.push(Items::from_slice(alloc, b"ab")?)?;
    Ok(texts)
}

#[test]
fn prints_each_text_from_its_place(rt: HostRuntime) -> Result<(), Fail> {
    let texts = three_texts(rt.alloc())?;
    let m = module(rt.alloc(), texts.as_slice())?;
    assert!(rt; prints(&m, &[(0, 1), (1, 0), (1, 2)], b"3ab"));
    Ok(())
}

/// Whether the module has a memory that begins with so many pages.
fn has_pages(m: &Module, pages: u32) -> bool {
    match m.memories.as_slice() {
        [memory] => memory.min == pages,
        _ => false,
    }
}

#[test]
fn has_no_segment_without_texts(rt: HostRuntime) -> Result<(), Fail> {
    let m = module(rt.alloc(), &[])?;
    assert!(rt; m.segments.is_empty() && has_pages(&m, 1));
    Ok(())
}

/// One text of so many bytes.
fn one_text(alloc: Global, size: usize) -> Result<Items<Items<u8>>, AllocError>
    ensures { IfOk result (λ texts. length (concat texts) + length texts ≡ size + 1) }
{
    let mut texts = Items::new(alloc);
    texts.push(Items::from_vec(vec![in alloc; b'x'; size]?))?;
    Ok(texts)
}

/// Whether the module of a text of so many bytes has so many pages.
fn needs_pages(alloc: Global, size: usize, pages: u32) -> Result<bool, AllocError>
    requires { size ≤ 2 ^ 20 }
{
    let texts = one_text(alloc, size)?;
    let m = module(alloc, texts.as_slice())?;
    Ok(has_pages(&m, pages))
}

#[test]
fn has_the_pages_that_the_texts_need(rt: HostRuntime) -> Result<(), Fail> {
    assert!(rt; needs_pages(rt.alloc(), 65536, 1)?);
    assert!(rt; needs_pages(rt.alloc(), 65537, 2)?);
    Ok(())
}

/// Whether it is function 0, `php1.write`.
fn is_write(import: &Import) -> bool {
    import.module.as_str() == "php1"
        && import.name.as_str() == "write"
        && import.desc == ImportDesc::Func(0)
}

/// Whether it shows function 1 as `main`.
fn is_main(export: &Export) -> bool {
    export.name.as_str() == "main" && export.desc == ExportDesc::Func(1)
}

fn has_write_and_main(m: &Module) -> bool {
    match (m.imports.as_slice(), m.exports.as_slice()) {
        ([import], [export]) => is_write(import) && is_main(export),
        _ => false,
    }
}

#[test]
fn imports_write_and_exports_main(rt: HostRuntime) -> Result<(), Fail> {
    let m = module(rt.alloc(), &[])?;
    assert!(rt; has_write_and_main(&m));
    Ok(())
}
