//! Memory instructions (Core Specification 1.0, 4.4.4).
ghost use Rattle.std.specs.Prelude.{◌≡◌, ◌<◌, ◌≤◌, ◌^◌, ◌*◌};
ghost use Rattle.hph_wasm.specs.Memory.{byte_width, load_bytes, narrow_value, store_bytes, store_type};
ghost use Rattle.hph_integers.specs.Accesses.{byte_count};
ghost use Rattle.hph_wstate.specs.Machine.{core};
ghost use Rattle.hph_wmach.specs.Reached.{Steps};

use crate::next::Next;
use crate::numeric::put;
use hph_integers::{Access, extended_i32, extended_i64, load};
use hph_wasm::{Host, Instr, MemArg, NarrowLoad, NarrowStore, ValType, Value};
use hph_wstate::{Machine, pop_i32, pop_i64};

/// `i32.load`.
fn load_i32<H: Host>(machine: &mut Machine<'_>, arg: MemArg) -> Next
    ensures { Steps H.meaning (Instr.Load ValType.I32 arg) (core machine.old) result (core machine.new) }
{
    let Some(address) = pop_i32(machine) else {
        return Next::Traps;
    };
    match load(
        machine.memory(),
        Access::Word,
        u64::from(address) + u64::from(arg.offset),
    ) {
        None => Next::Traps,
        Some(n) => put(machine, Value::I32(n as u32)),
    }
}

/// `i64.load`.
fn load_i64<H: Host>(machine: &mut Machine<'_>, arg: MemArg) -> Next
    ensures { Steps H.meaning (Instr.Load ValType.I64 arg) (core machine.old) result (core machine.new) }
{
    let Some(address) = pop_i32(machine) else {
        return Next::Traps;
    };
    match load(
        machine.memory(),
        Access::Double,
        u64::from(address) + u64::from(arg.offset),
    ) {
        None => Next::Traps,
        Some(n) => put(machine, Value::I64(n)),
    }
}

/// A load of a whole value.
pub fn load_whole<H: Host>(machine: &mut Machine<'_>, ty: ValType, arg: MemArg) -> Next
    ensures { Steps H.meaning (Instr.Load ty arg) (core machine.old) result (core machine.new) }
{
    match ty {
        ValType::I32 => load_i32::<H>(machine, arg),
        ValType::I64 => load_i64::<H>(machine, arg),
    }
}

/// How many bytes a narrow load takes.
fn access_of(how: NarrowLoad) -> Access
    ensures { byte_count result ≡ load_bytes how }
{
    match how {
        NarrowLoad::I32From8(_) | NarrowLoad::I64From8(_) => Access::Byte,
        NarrowLoad::I32From16(_) | NarrowLoad::I64From16(_) => Access::Half,
        NarrowLoad::I64From32(_) => Access::Word,
    }
}

/// The value that a narrow load makes of a number.
fn value_from(how: NarrowLoad, n: u64) -> Value
    requires { n < 256 ^ load_bytes how }
    ensures { result ≡ narrow_value how n }
{
    match how {
        NarrowLoad::I32From8(sign) => Value::I32(extended_i32(sign, 8, n as u32)),
        NarrowLoad::I32From16(sign) => Value::I32(extended_i32(sign, 16, n as u32)),
        NarrowLoad::I64From8(sign) => Value::I64(extended_i64(sign, 8, n)),
        NarrowLoad::I64From16(sign) => Value::I64(extended_i64(sign, 16, n)),
        NarrowLoad::I64From32(sign) => Value::I64(extended_i64(sign, 32, n)),
    }
}

/// A load of fewer bits.
pub fn load_narrow<H: Host>(machine: &mut Machine<'_>, how: NarrowLoad, arg: MemArg) -> Next
    ensures { Steps H.meaning (Instr.LoadNarrow how arg) (core machine.old) result (core machine.new) }
{
    let Some(address) = pop_i32(machine) else {
        return Next::Traps;
    };
    match load(
        machine.memory(),
        access_of(how),
        u64::from(address) + u64::from(arg.offset),
    ) {
        None => Next::Traps,
        Some(n) => put(machine, value_from(how, n)),
    }
}

/// `i32.store`.
fn store_i32<H: Host>(machine: &mut Machine<'_>, arg: MemArg) -> Next
    ensures { Steps H.meaning (Instr.Store ValType.I32 arg) (core machine.old) result (core machine.new) }
{
    let Some(n) = pop_i32(machine) else {
        return Next::Traps;
    };
    let Some(address) = pop_i32(machine) else {
        return Next::Traps;
    };
    if machine.store(
        Access::Word,
        u64::from(address) + u64::from(arg.offset),
        u64::from(n),
    ) {
        Next::Goes
    } else {
        Next::Traps
    }
}

/// `i64.store`.
fn store_i64<H: Host>(machine: &mut Machine<'_>, arg: MemArg) -> Next
    ensures { Steps H.meaning (Instr.Store ValType.I64 arg) (core machine.old) result (core machine.new) }
{
    let Some(n) = pop_i64(machine) else {
        return Next::Traps;
    };
    let Some(address) = pop_i32(machine) else {
        return Next::Traps;
    };
    if machine.store(
        Access::Double,
        u64::from(address) + u64::from(arg.offset),
        n,
    ) {
        Next::Goes
    } else {
        Next::Traps
    }
}

/// A store of a whole value.
pub fn store_whole<H: Host>(machine: &mut Machine<'_>, ty: ValType, arg: MemArg) -> Next
    ensures { Steps H.meaning (Instr.Store ty arg) (core machine.old) result (core machine.new) }
{
    match ty {
        ValType::I32 => store_i32::<H>(machine, arg),
        ValType::I64 => store_i64::<H>(machine, arg),
    }
}

/// A store of the lowest bytes of an i32.
fn store_narrow_i32<H: Host>(
    machine: &mut Machine<'_>,
    how: NarrowStore,
    access: Access,
    arg: MemArg,
) -> Next
    requires narrow { store_type how ≡ ValType.I32 }
    requires size { byte_count access ≡ store_bytes how }
    ensures { Steps H.meaning (Instr.StoreNarrow how arg) (core machine.old) result (core machine.new) }
{
    let Some(n) = pop_i32(machine) else {
        return Next::Traps;
    };
    let Some(address) = pop_i32(machine) else {
        return Next::Traps;
    };
    if machine.store(
        access,
        u64::from(address) + u64::from(arg.offset),
        u64::from(n),
    ) {
        Next::Goes
    } else {
        Next::Traps
    }
}

/// A store of the lowest bytes of an i64.
fn store_narrow_i64<H: Host>(
    machine: &mut Machine<'_>,
    how: NarrowStore,
    access: Access,
    arg: MemArg,
) -> Next
    requires narrow { store_type how ≡ ValType.I64 }
    requires size { byte_count access ≡ store_bytes how }
    ensures { Steps H.meaning (Instr.StoreNarrow how arg) (core machine.old) result (core machine.new) }
{
    let Some(n) = pop_i64(machine) else {
        return Next::Traps;
    };
    let Some(address) = pop_i32(machine) else {
        return Next::Traps;
    };
    if machine.store(access, u64::from(address) + u64::from(arg.offset), n) {
        Next::Goes
    } else {
        Next::Traps
    }
}

/// A store of the lowest bytes.
pub fn store_narrow<H: Host>(machine: &mut Machine<'_>, how: NarrowStore, arg: MemArg) -> Next
    ensures { Steps H.meaning (Instr.StoreNarrow how arg) (core machine.old) result (core machine.new) }
{
    match how {
        NarrowStore::I32To8 => store_narrow_i32::<H>(machine, how, Access::Byte, arg),
        NarrowStore::I32To16 => store_narrow_i32::<H>(machine, how, Access::Half, arg),
        NarrowStore::I64To8 => store_narrow_i64::<H>(machine, how, Access::Byte, arg),
        NarrowStore::I64To16 => store_narrow_i64::<H>(machine, how, Access::Half, arg),
        NarrowStore::I64To32 => store_narrow_i64::<H>(machine, how, Access::Word, arg),
    }
}
