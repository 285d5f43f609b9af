ghost use Rattle.std.specs.Prelude.{◌≡◌, ℕ, IfOk, OnOk, IfErr, MatchResult};
ghost use Rattle.hph_wasm.specs.Run.{IsLinked, IsFirstUnlinked};
ghost use Rattle.hph_wlink.specs.Linking.{AreRows, RowTold, IsMain, IsFault, IsUnlinkedAt, IsNoMemory};

use crate::entry::main_function;
use hph_wasm::{Host, Import, ImportDesc, Module, one_obstacle_is_first};
use sqlite_items::Items;
use std::alloc::Global;

/// What a run needs to know of a linked module: the host's row of each import, in the order of the imports, and the number of
/// the function `main`.
#[derive(Debug, Drop)]
pub struct Linked {
    pub rows: Items<u16>,
    pub main: u32,
}

/// Why a module isn't linked.
#[derive(Clone, Copy, Debug, PartialEq, Eq)]
pub enum LinkFault {
    /// The host doesn't have the import with this number. It is the number of imports where only `main` is missing: a function
    /// under that name that takes and gives nothing.
    Unlinked(usize),
    NoMemory,
}

/// Looks each import of the module up in the host, once, and finds `main`. The first import that the host doesn't have at its
/// type is told.
pub fn link<H: Host>(alloc: Global, m: &Module, host: &H) -> Result<Linked, LinkFault>
    ensures linked { OnOk result (IsLinked H.meaning m.now) }
    ensures rows { IfOk result (λ linked. AreRows H.meaning m.now m.now.imports linked.rows) }
    ensures main { IfOk result (λ linked. IsMain m.now linked.main) }
    ensures fault { IfErr result (IsFault H.meaning m.now) }
    // With enough memory no other answer is possible.
    ensures accepted { IsLinked H.meaning m.now → IfErr result IsNoMemory }
    ensures refused { (k : ℕ) → IsFirstUnlinked H.meaning m.now k → MatchResult result (λ _. ⊥) (IsUnlinkedAt k) }
{
    one_obstacle_is_first::<H>();
    let rows = rows(alloc, m, host)?;
    match main_function(m) {
        Some(main) => Ok(Linked { rows, main }),
        None => Err(LinkFault::Unlinked(m.imports.len())),
    }
}

/// The row of each import.
fn rows<H: Host>(alloc: Global, m: &Module, host: &H) -> Result<Items<u16>, LinkFault>
    ensures rows { IfOk result (AreRows H.meaning m.now m.now.imports) }
    ensures fault { IfErr result (IsFault H.meaning m.now) }
{
    let mut rows = Items::new(alloc);
    for import in m.imports.as_slice() {
        match row_of(m, host, import) {
            None => return Err(LinkFault::Unlinked(rows.len())),
            Some(row) => match rows.push(row) {
                Ok(()) => {}
                Err(_) => return Err(LinkFault::NoMemory),
            },
        }
    }
    Ok(rows)
}

/// The row of an import, if the host has that.
fn row_of<H: Host>(m: &Module, host: &H, import: &Import) -> Option<u16>
    ensures { RowTold H.meaning m.now import.now result }
{
    match import.desc {
        ImportDesc::Func(number) => match m.types.get(number as usize) {
            None => None,
            Some(ty) => {
                let module_name = import.module.as_str().as_bytes();
                host.row(module_name, import.name.as_str().as_bytes(), ty)
            }
        },
        ImportDesc::Table(_) | ImportDesc::Memory(_) | ImportDesc::Global(_) => None,
    }
}
