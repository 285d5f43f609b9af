//! Structured control instructions (Core Specification 1.0, 4.4.5), but for calls.
ghost use Rattle.std.specs.Prelude.{◌≡◌, ◌<◌, ◌+◌, [], ◌∷◌, length, drop, Some, slice_index_or};
ghost use Rattle.hph_wasm.specs.declared.instr.Instr.TheViews as view;
ghost use Rattle.hph_wstate.specs.Machine.{core};
ghost use Rattle.hph_wasm.specs.Blocks.{else_list};
ghost use Rattle.hph_wstate.specs.Changes.{TellsLabel};
ghost use Rattle.hph_wmach.specs.Reached.{EntersBlock, BehindCall, LeftOn, Steps, Branched, GivenBack, Closed};
ghost use Rattle.hph_wstate.specs.Core.{count, label_around};

use crate::next::Next;
use hph_wasm::{BlockType, Host, Instr};
use hph_wstate::{Machine, Side, pop_i32};
use sqlite_items::{Items, at};

/// `block`.
pub fn block<'m, H: Host>(
    machine: &mut Machine<'m>,
    here: &'m [Instr],
    ty: BlockType,
    body: &'m Items<Instr>,
) -> Next
    requires { drop 1 here.now ≡ (core machine.old).code }
    ensures { Steps H.meaning (view.Block ty body.now) (core machine.old) result (core machine.new) }
{
    match machine.enter_block(here, Side::Block, ty.result.is_some(), body.as_slice()) {
        Ok(()) => Next::Goes,
        Err(_) => Next::NoMemory,
    }
}

/// `loop`.
#[tactic(auto, using(crate::proofs::Branches::loop_done))]
pub fn again<'m, H: Host>(
    machine: &mut Machine<'m>,
    here: &'m [Instr],
    ty: BlockType,
    body: &'m Items<Instr>,
) -> Next
    requires { here.now ≡ view.Loop ty body.now ∷ (core machine.old).code }
    ensures { Steps H.meaning (view.Loop ty body.now) (core machine.old) result (core machine.new) }
{
    match machine.enter_block(here, Side::Loop, false, body.as_slice()) {
        Ok(()) => Next::Goes,
        Err(_) => Next::NoMemory,
    }
}

/// What stands behind an `else`.
fn else_code<'m>(other: &'m Option<Items<Instr>>) -> &'m [Instr]
    ensures { result.now ≡ else_list other.now }
{
    match other {
        None => &[],
        Some(code) => code.as_slice(),
    }
}

/// Enters a block, which stands first here.
fn enter<'m>(
    machine: &mut Machine<'m>,
    here: &'m [Instr],
    side: Side,
    gives: bool,
    body: &'m [Instr],
) -> Next
    ensures { EntersBlock (label_around side gives here.now (core machine.old).values) body.now (core machine.old) result (core machine.new) }
{
    match machine.enter_block(here, side, gives, body) {
        Ok(()) => Next::Goes,
        Err(_) => Next::NoMemory,
    }
}

/// `if`.
pub fn if_else<'m, H: Host>(
    machine: &mut Machine<'m>,
    here: &'m [Instr],
    ty: BlockType,
    body: &'m Items<Instr>,
    other: &'m Option<Items<Instr>>,
) -> Next
    requires { here.now ≡ view.If ty body.now other.now ∷ (core machine.old).code }
    ensures { Steps H.meaning (view.If ty body.now other.now) (core machine.old) result (core machine.new) }
{
    match pop_i32(machine) {
        None => Next::Traps,
        Some(n) => {
            if n == 0 {
                enter(
                    machine,
                    here,
                    Side::Else,
                    ty.result.is_some(),
                    else_code(other),
                )
            } else {
                enter(
                    machine,
                    here,
                    Side::Then,
                    ty.result.is_some(),
                    body.as_slice(),
                )
            }
        }
    }
}

/// `br_if`.
pub fn branch_if<H: Host>(machine: &mut Machine<'_>, k: u32) -> Next
    ensures { Steps H.meaning (Instr.BrIf k) (core machine.old) result (core machine.new) }
{
    match pop_i32(machine) {
        None => Next::Traps,
        Some(0) => Next::Goes,
        Some(_) => Next::Branches(k),
    }
}

/// `br_table`.
pub fn branch_table<H: Host>(machine: &mut Machine<'_>, labels: &Items<u32>, other: u32) -> Next
    ensures { Steps H.meaning (Instr.BrTable labels.now other) (core machine.old) result (core machine.new) }
{
    match pop_i32(machine) {
        None => Next::Traps,
        Some(n) => Next::Branches(label_of(labels.as_slice(), n, other)),
    }
}

/// The label with a number, or the one for every greater number.
#[tactic(auto, using(crate::proofs::Ifs::default_past))]
fn label_of(labels: &[u32], n: u32, other: u32) -> u32
    ensures { result ≡ slice_index_or labels.now n other }
{
    match at(labels, n as usize) {
        Some(k) => *k,
        None => other,
    }
}

/// Behind a call: the function that waits goes on, or the run ends where none does.
pub fn behind_call<H: Host>(machine: &Machine<'_>) -> Next
    ensures { BehindCall H.meaning result (core machine.now) }
{
    match machine.frame_gives() {
        None => Next::Ends,
        Some(_) => Next::Goes,
    }
}

/// A branch to a label of the function that runs.
fn branch_inside<H: Host>(machine: &mut Machine<'_>, k: usize, gives: bool) -> Next
    requires { TellsLabel (core machine.old).labels k (Some gives) }
    ensures { Branched H.meaning k (core machine.old) result (core machine.new) }
{
    match machine.keep(gives) {
        None => Next::Traps,
        Some(kept) => {
            machine.skip(k);
            machine.go_outside(true);
            match machine.put(kept) {
                Ok(()) => Next::Goes,
                Err(_) => Next::NoMemory,
            }
        }
    }
}

/// Back to the function that waits, where no label is left.
fn leave_on<H: Host>(machine: &mut Machine<'_>) -> Next
    requires { (core machine.old).labels ≡ [] }
    ensures { LeftOn H.meaning (core machine.old) result (core machine.new) }
{
    machine.leave();
    behind_call::<H>(machine)
}

/// `return`.
fn give_back<H: Host>(machine: &mut Machine<'_>) -> Next
    ensures { GivenBack H.meaning (core machine.old) result (core machine.new) }
{
    match machine.frame_gives() {
        None => Next::Traps,
        Some(gives) => match machine.keep(gives) {
            None => Next::Traps,
            Some(kept) => {
                let count = machine.label_count();
                machine.skip(count);
                match machine.put(kept) {
                    Ok(()) => leave_on::<H>(machine),
                    Err(_) => Next::NoMemory,
                }
            }
        },
    }
}

/// A branch to the label with a number, or to the function's outermost one.
pub fn branch<H: Host>(machine: &mut Machine<'_>, k: u32) -> Next
    ensures { Branched H.meaning k (core machine.old) result (core machine.new) }
{
    let number = k as usize;
    match machine.label_gives(number) {
        Some(gives) => branch_inside::<H>(machine, number, gives),
        None => {
            if number == machine.label_count() {
                give_back::<H>(machine)
            } else {
                Next::Traps
            }
        }
    }
}

/// How many values are given.
fn count_of(gives: bool) -> usize
    ensures { result ≡ count gives }
{
    if gives { 1 } else { 0 }
}

/// The end of a function.
fn end_function<H: Host>(machine: &mut Machine<'_>) -> Next
    requires { (core machine.old).labels ≡ [] }
    ensures { Closed H.meaning (core machine.old) result (core machine.new) }
{
    match machine.frame_gives() {
        None => Next::Traps,
        Some(gives) => {
            let wanted = count_of(gives);
            if machine.value_count() == wanted {
                leave_on::<H>(machine)
            } else {
                Next::Traps
            }
        }
    }
}

/// The end of a block or a function.
pub fn end<H: Host>(machine: &mut Machine<'_>) -> Next
    ensures { Closed H.meaning (core machine.old) result (core machine.new) }
{
    if machine.label_count() > 0 {
        machine.go_outside(false);
        Next::Goes
    } else {
        end_function::<H>(machine)
    }
}

/// `br`.
pub fn branch_now<H: Host>(machine: &mut Machine<'_>, k: u32) -> Next
    ensures { Steps H.meaning (Instr.Br k) (core machine.old) result (core machine.new) }
{
    branch::<H>(machine, k)
}

/// `return`.
pub fn return_now<H: Host>(machine: &mut Machine<'_>) -> Next
    ensures { Steps H.meaning Instr.Return (core machine.old) result (core machine.new) }
{
    give_back::<H>(machine)
}
