//! What a run looks up by number, found once before it.
ghost use Rattle.std.specs.Prelude.{◌≡◌};
ghost use Rattle.hph_wasm.specs.declared.module.Module.{Module};
ghost use Rattle.hph_wasm.specs.Reduction.{same_types, same_func_type};
ghost use Rattle.hph_wmach.specs.Program.{type_of_callee, Tells, EntryTold};

use hph_wasm::{Func, FuncType, Host, ValType};
use sqlite_items::{Items, at};

/// A function of the module's own, with its type and whether it gives a value.
#[derive(Clone, Copy)]
pub struct OwnFunction<'m> {
    pub func: &'m Func,
    pub ty: &'m FuncType,
    pub gives: bool,
}

/// A function of the host, by its row, with its type.
#[derive(Clone, Copy)]
pub struct HostFunction<'m> {
    pub row: u16,
    pub ty: &'m FuncType,
}

/// A function that may be called.
#[derive(Clone, Copy)]
pub enum Callee<'m> {
    Own(OwnFunction<'m>),
    OfHost(HostFunction<'m>),
}

/// The types and the functions of a module, and its table: the numbers of functions.
#[derive(Drop)]
pub struct Program<'m> {
    pub types: &'m [FuncType],
    pub callees: Items<Callee<'m>>,
    pub table: Items<Option<u32>>,
}

/// Whether two lists of types are the same.
fn same_lists(types: &[ValType], others: &[ValType]) -> bool
    ensures { result ≡ same_types types.now others.now }
{
    types == others
}

/// Whether two types of functions are the same.
fn same_type(ty: &FuncType, other: &FuncType) -> bool
    ensures { result ≡ same_func_type ty.now other.now }
{
    same_lists(ty.params.as_slice(), other.params.as_slice())
        && same_lists(ty.results.as_slice(), other.results.as_slice())
}

/// The type of a function.
fn type_of<'m>(callee: &Callee<'m>) -> &'m FuncType
    ensures { result.now ≡ type_of_callee callee.now }
{
    match callee {
        Callee::Own(own) => own.ty,
        Callee::OfHost(host) => host.ty,
    }
}

impl<'m> Program<'m> {
    /// The function that stands in the table at a place, if it is of the type with a number.
    pub fn entry<H: Host>(&self, place: u32, number: u32) -> Option<u32>
        ensures { (m : Module) → Tells H.meaning m self.now → EntryTold H.meaning m place number result }
    {
        match at(self.table.as_slice(), place as usize) {
            None => None,
            Some(entry) => match entry {
                None => None,
                Some(f) => match at(self.callees.as_slice(), *f as usize) {
                    None => None,
                    Some(callee) => match at(self.types, number as usize) {
                        None => None,
                        Some(wanted) => {
                            if same_type(type_of(callee), wanted) {
                                Some(*f)
                            } else {
                                None
                            }
                        }
                    },
                },
            },
        }
    }
}
