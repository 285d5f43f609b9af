//! What an event makes of the entry of the seat that acts. Where there is no memory the entry stays as it was.
ghost use Rattle.std.specs.Prelude.{◌≡◌, ◌-◌, ◌<◌, OnOk, OnErr};
ghost use Rattle.hph_core.specs.Effects.{note, after_take, after_mark, after_put_back, after_try, after_release, after_read, after_raise, after_add, after_pay, after_done, after_join};
ghost use Rattle.hph_core.specs.State.{fresh, spent};

use crate::lists;
use hph_core::{Finding, Known, View};
use hph_type::Ty;
use std::alloc::{AllocError, Global};
use std::collections::LinkedList;

/// One more finding.
pub fn note(view: &mut View, finding: Finding) -> Result<(), AllocError>
    ensures ok { OnOk result (view.new ≡ note view.old finding) }
    ensures err { OnErr result (view.new ≡ view.old) }
{
    view.findings.push_back(finding)?;
    Ok(())
}

/// After a take of a scope, of which the set had this bit.
pub fn take(view: &mut View, scope: u32, bit: u64) -> Result<(), AllocError>
    ensures ok { OnOk result (view.new ≡ after_take view.old scope bit) }
    ensures err { OnErr result (view.new ≡ view.old) }
{
    view.findings.push_back(Finding::Took(scope, bit == 1))?;
    if bit == 1 {
        view.hand = Some(scope);
    }
    Ok(())
}

/// After a mark.
pub fn mark(view: &mut View, scope: u32, bit: u64) -> Result<(), AllocError>
    ensures ok { OnOk result (view.new ≡ after_mark view.old scope bit) }
    ensures err { OnErr result (view.new ≡ view.old) }
{
    view.marks.push_front(scope)?;
    if view
        .findings
        .push_back(Finding::Marked(scope, bit != 1))
        .is_err()
    {
        let _ = view.marks.pop_front();
        return Err(AllocError);
    }
    if bit != 1 {
        view.debt = false;
    }
    Ok(())
}

/// After the hand is put back.
pub fn put_back(view: &mut View, scope: u32, bit: u64) -> Result<(), AllocError>
    ensures ok { OnOk result (view.new ≡ after_put_back view.old scope bit) }
    ensures err { OnErr result (view.new ≡ view.old) }
{
    view.findings.push_back(Finding::PutBack(scope, bit != 1))?;
    view.hand = None;
    view.debt = bit == 1;
    Ok(())
}

/// After a try to hold a scope, whose holder's word was this.
pub fn try_hold(view: &mut View, scope: u32, found: u32) -> Result<(), AllocError>
    ensures ok { OnOk result (view.new ≡ after_try view.old scope found) }
    ensures err { OnErr result (view.new ≡ view.old) }
{
    if found != 0 {
        view.findings.push_back(Finding::Busy(scope, found - 1))?;
        return Ok(());
    }
    view.holds.push_front(scope)?;
    if view.findings.push_back(Finding::Got(scope)).is_err() {
        let _ = view.holds.pop_front();
        return Err(AllocError);
    }
    Ok(())
}

/// After a scope is let go.
pub fn release(alloc: Global, view: &mut View, scope: u32) -> Result<(), AllocError>
    ensures ok { OnOk result (view.new ≡ after_release view.old scope) }
    ensures err { OnErr result (view.new ≡ view.old) }
{
    let holds = lists::without(alloc, &view.holds, scope)?;
    let known = lists::elsewhere(alloc, &view.known, scope)?;
    view.findings.push_back(Finding::Released(scope))?;
    view.holds = holds;
    view.known = known;
    view.marks.clear();
    Ok(())
}

/// After a cell is read.
pub fn read(view: &mut View, cell: u32, owner: u32, ty: Ty) -> Result<(), AllocError>
    ensures ok { OnOk result (view.new ≡ after_read view.old cell owner ty) }
    ensures err { OnErr result (view.new ≡ view.old) }
{
    view.known.push_front(Known { cell, owner, ty })?;
    if view.findings.push_back(Finding::Seen(cell, ty)).is_err() {
        let _ = view.known.pop_front();
        return Err(AllocError);
    }
    Ok(())
}

/// After a cell is raised.
pub fn raise(
    alloc: Global,
    view: &mut View,
    cell: u32,
    owner: u32,
    ty: Ty,
) -> Result<(), AllocError>
    ensures ok { OnOk result (view.new ≡ after_raise view.old cell owner ty) }
    ensures err { OnErr result (view.new ≡ view.old) }
{
    let mut known = lists::others(alloc, &view.known, cell)?;
    known.push_front(Known { cell, owner, ty })?;
    view.findings.push_back(Finding::Raised(cell, ty))?;
    view.known = known;
    Ok(())
}

/// After a unit is owed.
pub fn add(view: &mut View) -> Result<(), AllocError>
    ensures ok { OnOk result (view.new ≡ after_add view.old) }
    ensures err { OnErr result (view.new ≡ view.old) }
{
    view.findings.push_back(Finding::Added)?;
    view.debt = true;
    Ok(())
}

/// After the unit is paid.
pub fn pay(view: &mut View) -> Result<(), AllocError>
    ensures ok { OnOk result (view.new ≡ after_pay view.old) }
    ensures err { OnErr result (view.new ≡ view.old) }
{
    view.findings.push_back(Finding::Paid)?;
    view.debt = false;
    Ok(())
}

/// After the hand is dropped.
pub fn finish(view: &mut View, scope: u32) -> Result<(), AllocError>
    ensures ok { OnOk result (view.new ≡ after_done view.old scope) }
    ensures err { OnErr result (view.new ≡ view.old) }
{
    view.findings.push_back(Finding::Done(scope))?;
    view.hand = None;
    Ok(())
}

/// A seat that has done nothing yet.
pub fn fresh(alloc: Global, number: u32) -> View
    ensures { result ≡ fresh number }
{
    View {
        live: true,
        number,
        hand: None,
        holds: LinkedList::new(alloc),
        marks: LinkedList::new(alloc),
        debt: false,
        known: LinkedList::new(alloc),
        findings: LinkedList::new(alloc),
        top: number,
        joined: LinkedList::new(alloc),
    }
}

/// A seat that was joined into another.
pub fn spent(alloc: Global) -> View
    ensures { result ≡ spent }
{
    View {
        live: false,
        ..fresh(alloc, 0)
    }
}

/// The greatest length of two lists that can be put together is below this.
const MOST: usize = 1 << 63;

/// After another seat, whose findings it gets, is joined into this one.
pub fn join(view: &mut View, other: &mut View) -> Result<(), AllocError>
    ensures ok { OnOk result (view.new ≡ after_join view.old other.old) }
    ensures err { OnErr result ((view.new ≡ view.old) × (other.new ≡ other.old)) }
{
    if view.findings.len() + other.findings.len() >= MOST {
        return Err(AllocError);
    }
    other.joined.push_front(other.number)?;
    if view.joined.append(&mut other.joined).is_err() {
        let _ = other.joined.pop_front();
        return Err(AllocError);
    }
    view.findings.append(&mut other.findings)
}
