ghost use Rattle.std.specs.Prelude.{◌≡◌, ◌≤◌, ℕ, ◌+◌, ◌^◌, ◌∷◌, [], length, pos, IfOk};
ghost use Rattle.std.specs.List.{concat};
ghost use Rattle.hph_wasm.specs.Spelling.{IsWritable};
ghost use Rattle.hph_lowm.specs.Compiles.{Compiles};
ghost use Rattle.hph_lowm.specs.Layout.{pages_of, write_type, main_type, write_import, main_export, prints_from, segments_of, module_of};

use hph_effect_laws::{Php1, php1_both_directions};
use hph_wasm::{
    Export, ExportDesc, Func, FuncType, Import, ImportDesc, Instr, Limits, Locals, Module, Name,
    Segment, ValType, reductions_in_turn,
};
use sqlite_items::Items;
use std::alloc::{AllocError, Global};

const PAGE_BYTES: usize = 65536;

const WRITE_TYPE: u32 = 0;

const MAIN_TYPE: u32 = 1;

/// The number of the function that the host prints with.
const WRITE: u32 = 0;

/// The number of the function that a run begins with.
const MAIN: u32 = 1;

/// The module that prints these texts, in order, and ends.
pub fn module(alloc: Global, texts: &[Items<u8>]) -> Result<Module, AllocError>
    requires { length (concat texts.now) + length texts.now ≤ 2 ^ 21 }
    ensures laid_out { IfOk result (λ m. m ≡ module_of texts.now) }
    ensures writable { IfOk result IsWritable }
    ensures compiles { (nodes : ℕ) → length texts.now ≤ nodes → IfOk result (Compiles texts.now nodes) }
{
    reductions_in_turn::<Php1>();
    php1_both_directions();
    laid_out(alloc, texts)
}

fn laid_out(alloc: Global, texts: &[Items<u8>]) -> Result<Module, AllocError>
    requires { length (concat texts.now) ≤ 2 ^ 21 }
    ensures { IfOk result (λ m. m ≡ module_of texts.now) }
{
    let pool = pool(alloc, texts)?;
    let main = Func {
        ty: MAIN_TYPE,
        locals: Locals::new(alloc),
        body: body(alloc, texts)?,
    };
    let memory = Limits {
        min: pages_of(pool.len()),
        max: None,
    };
    Ok(Module {
        types: types(alloc)?,
        imports: one(alloc, write_import(alloc)?)?,
        funcs: one(alloc, main)?,
        tables: Items::new(alloc),
        memories: one(alloc, memory)?,
        globals: Items::new(alloc),
        exports: one(alloc, main_export(alloc)?)?,
        elements: Items::new(alloc),
        segments: segments(alloc, texts, pool)?,
    })
}

/// A list of one thing.
fn one<T: Drop>(alloc: Global, item: T) -> Result<Items<T>, AllocError>
    ensures { IfOk result (λ items. items ≡ item ∷ []) }
{
    let mut items = Items::new(alloc);
    items.push(item)?;
    Ok(items)
}

fn types(alloc: Global) -> Result<Items<FuncType>, AllocError>
    ensures { IfOk result (λ types. types ≡ write_type ∷ main_type ∷ []) }
{
    let write = FuncType {
        params: Items::from_slice(alloc, &[ValType::I32, ValType::I32])?,
        results: Items::new(alloc),
    };
    let main = FuncType {
        params: Items::new(alloc),
        results: Items::new(alloc),
    };
    let mut types = one(alloc, write)?;
    types.push(main)?;
    Ok(types)
}

fn write_import(alloc: Global) -> Result<Import, AllocError>
    ensures { IfOk result (λ import. import ≡ write_import) }
{
    Ok(Import {
        module: Name::new(alloc, "php1")?,
        name: Name::new(alloc, "write")?,
        desc: ImportDesc::Func(WRITE_TYPE),
    })
}

fn main_export(alloc: Global) -> Result<Export, AllocError>
    ensures { IfOk result (λ export. export ≡ main_export) }
{
    Ok(Export {
        name: Name::new(alloc, "main")?,
        desc: ExportDesc::Func(MAIN),
    })
}

/// The pages that so many bytes need, at least one.
#[tactic(auto, unfolding(crate::specs::Layout::pages_of))]
fn pages_of(bytes: usize) -> u32
    requires { bytes ≤ 2 ^ 21 }
    ensures { result ≡ pages_of bytes }
{
    bytes.div_ceil(PAGE_BYTES).max(1) as u32
}

/// The texts, one behind the other.
fn pool(alloc: Global, texts: &[Items<u8>]) -> Result<Items<u8>, AllocError>
    ensures { IfOk result (λ pool. pool ≡ concat texts.now) }
{
    let mut pool = Vec::new(alloc);
    for text in texts {
        pool.extend_from_slice(text.as_slice())?;
    }
    Ok(Items::from_vec(pool))
}

/// What prints each text from its place in the pool.
fn body(alloc: Global, texts: &[Items<u8>]) -> Result<Items<Instr>, AllocError>
    requires { length (concat texts.now) ≤ 2 ^ 21 }
    ensures { IfOk result (λ body. body ≡ prints_from 0 texts.now) }
{
    let mut body = Items::new(alloc);
    let mut place = 0usize;
    for text in texts {
        let length = text.len();
        body.push(Instr::I32Const(place as i32))?;
        body.push(Instr::I32Const(length as i32))?;
        body.push(Instr::Call(WRITE))?;
        place += length;
    }
    Ok(body)
}

/// The segment that the memory begins with, where there are texts.
fn segments(
    alloc: Global,
    texts: &[Items<u8>],
    pool: Items<u8>,
) -> Result<Items<Segment>, AllocError>
    requires { pool ≡ concat texts.now }
    ensures { IfOk result (λ segments. segments ≡ segments_of texts.now) }
{
    if texts.is_empty() {
        return Ok(Items::new(alloc));
    }
    let segment = Segment {
        memory: 0,
        offset: one(alloc, Instr::I32Const(0))?,
        bytes: pool,
    };
    one(alloc, segment)
}
