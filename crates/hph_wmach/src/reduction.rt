//! One reduction (Core Specification 1.0, 4.4), but for the second ones of calls and branches.
ghost use Rattle.std.specs.Prelude.{◌≡◌, ◌∷◌};
ghost use Rattle.hph_wasm.specs.declared.module.Module.{Module};
ghost use Rattle.hph_wstate.specs.Machine.{core};
ghost use Rattle.hph_wmach.specs.Program.{Tells};
ghost use Rattle.hph_wmach.specs.Reached.{StepsIn, SteppedIn, Stood};

use crate::calls::call_indirect;
use crate::control::{again, block, branch_if, branch_now, branch_table, end, if_else, return_now};
use crate::memory::{load_narrow, load_whole, store_narrow, store_whole};
use crate::next::Next;
use crate::numeric::{combine, compare, extend, is_zero, operate, wrap};
use crate::program::Program;
use crate::variables::{
    const_i32, const_i64, do_nothing, drop_value, get_global, get_local, select, set_global,
    set_local, tee_local, trap,
};
use hph_wasm::{Host, Instr};
use hph_wstate::Machine;

/// An instruction, which stands first here.
fn run_one<'m, H: Host>(
    program: &Program<'m>,
    machine: &mut Machine<'m>,
    i: &'m Instr,
    here: &'m [Instr],
) -> Next
    requires { here.now ≡ i.now ∷ (core machine.old).code }
    ensures { (m : Module) → Tells H.meaning m program.now →
        StepsIn H.meaning m i.now (core machine.old) result (core machine.new) }
{
    match i {
        Instr::Unreachable => trap::<H>(machine),
        Instr::Nop => do_nothing::<H>(machine),
        Instr::Block(ty, body) => block::<H>(machine, here, *ty, body),
        Instr::Loop(ty, body) => again::<H>(machine, here, *ty, body),
        Instr::If(ty, body, other) => if_else::<H>(machine, here, *ty, body, other),
        Instr::Br(k) => branch_now::<H>(machine, *k),
        Instr::BrIf(k) => branch_if::<H>(machine, *k),
        Instr::BrTable(labels, other) => branch_table::<H>(machine, labels, *other),
        Instr::Return => return_now::<H>(machine),
        Instr::Call(f) => Next::Calls(*f),
        Instr::CallIndirect(number) => call_indirect::<H>(program, machine, *number),
        Instr::Drop => drop_value::<H>(machine),
        Instr::Select => select::<H>(machine),
        Instr::LocalGet(x) => get_local::<H>(machine, *x),
        Instr::LocalSet(x) => set_local::<H>(machine, *x),
        Instr::LocalTee(x) => tee_local::<H>(machine, *x),
        Instr::GlobalGet(x) => get_global::<H>(machine, *x),
        Instr::GlobalSet(x) => set_global::<H>(machine, *x),
        Instr::Load(ty, arg) => load_whole::<H>(machine, *ty, *arg),
        Instr::LoadNarrow(how, arg) => load_narrow::<H>(machine, *how, *arg),
        Instr::Store(ty, arg) => store_whole::<H>(machine, *ty, *arg),
        Instr::StoreNarrow(how, arg) => store_narrow::<H>(machine, *how, *arg),
        Instr::I32Const(z) => const_i32::<H>(machine, z),
        Instr::I64Const(z) => const_i64::<H>(machine, z),
        Instr::Eqz(ty) => is_zero::<H>(machine, *ty),
        Instr::Compare(ty, o) => compare::<H>(machine, *ty, *o),
        Instr::Unary(ty, o) => operate::<H>(machine, *ty, *o),
        Instr::Binary(ty, o) => combine::<H>(machine, *ty, *o),
        Instr::Wrap => wrap::<H>(machine),
        Instr::Extend(sign) => extend::<H>(machine, *sign),
    }
}

/// Stands before the instructions again, where the first of them has trapped.
fn stand<'m>(machine: &mut Machine<'m>, here: &'m [Instr], next: Next)
    ensures { Stood next here.now (core machine.old) (core machine.new) }
{
    match next {
        Next::Traps => machine.go_on(here),
        Next::Goes | Next::Calls(_) | Next::Branches(_) | Next::Ends | Next::NoMemory => {}
    }
}

/// One reduction.
pub fn step<'m, H: Host>(program: &Program<'m>, machine: &mut Machine<'m>) -> Next
    ensures { (m : Module) → Tells H.meaning m program.now →
        SteppedIn H.meaning m (core machine.old) result (core machine.new) }
{
    let here = machine.code();
    match here {
        [] => end::<H>(machine),
        [i, rest @ ..] => {
            machine.go_on(rest);
            let next = run_one::<H>(program, machine, i, here);
            stand(machine, here, next);
            next
        }
    }
}
