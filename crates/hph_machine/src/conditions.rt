//! Where events are enabled, decided from the system, the cells and the entry of the seat that acts.
ghost use Rattle.std.specs.Prelude.{◌≡◌, ◌≢◌, ◌↔◌, ◌<◌, ◌^◌, ℕ, IsTrue, IfOk, Some, None, length};
ghost use Rattle.hph_type.specs.Types.{PhpType};
ghost use Rattle.hph_type.specs.Order.{Leq, IsOf, join};
ghost use Rattle.hph_sys.specs.Typings.{In, at, AreTypes};
ghost use Rattle.hph_sys.specs.Shape.{IsTyping, asked_in};
ghost use Rattle.hph_machine.specs.Ready.{IsReady};
ghost use Rattle.hph_core.specs.Conditions.{HoldsLook, MayRaise, MayFinish, MayPutBack, MayMark, IsIdle, last_met};

use crate::lists::{has, has_all, has_one, is_among};
use hph_core::{Finding, View};
use hph_sys::System;
use hph_type::{ClassTree, ObjPart, Ty, join, leq, meet};
use std::alloc::AllocError;
use std::collections::LinkedList;

/// A seat without a hand, a hold or a debt.
pub fn is_idle(view: &View) -> bool
    ensures { IsTrue result ↔ IsIdle view.now }
{
    view.live && view.hand.is_none() && view.holds.is_empty() && !view.debt
}

/// The seat owes a unit for a mark, and holds a scope that the marked one looks at.
pub fn may_mark<S: System>(system: &S, view: &View, scope: u32) -> bool
    ensures { IsTrue result ↔ (MayMark (S.shape system.now) view.now scope) }
{
    scope < system.scopes() && view.debt && has_one(&view.holds, system.look(scope))
}

// The scope and the seat that the last try since the last take found busy, None where that try got its scope.
fn last_met(findings: &LinkedList<Finding>) -> Option<(u32, u32)>
    ensures { result ≡ last_met None findings.now }
{
    let mut met = None;
    for finding in findings {
        match finding {
            Finding::Took(_, _) => met = None,
            Finding::Got(_) => met = None,
            Finding::Busy(scope, holder) => met = Some((*scope, *holder)),
            _ => (),
        }
    }
    met
}

// The scope is the seat's hand.
fn is_hand(view: &View, scope: u32) -> bool
    ensures { IsTrue result ↔ (view.now.hand ≡ Some scope) }
{
    match view.hand {
        Some(hand) => hand == scope,
        None => false,
    }
}

/// The hand may be put back: the last try since the take found another seat at a scope that the hand looks at.
pub fn may_put_back<S: System>(system: &S, view: &View, scope: u32) -> bool
    requires { (s : ℕ) → view.now.hand ≡ Some s → s < (S.shape system.now).scopes }
    ensures { IsTrue result ↔ (MayPutBack (S.shape system.now) view.now scope) }
{
    if !is_hand(view, scope) || view.debt {
        return false;
    }
    match last_met(&view.findings) {
        Some((met, _)) => is_among(met, system.look(scope)),
        None => false,
    }
}

// The types of all pairs are below those of their cells.
fn are_met(tree: &ClassTree, pairs: &[(u32, Ty)], cells: &[Ty]) -> bool
    requires cells { AreTypes tree.now (length cells.now) cells.now }
    requires pairs { (pair : ℕ × PhpType) → In pair pairs.now → (pair.0 < length cells.now) × IsOf tree.now pair.1 }
    ensures { IsTrue result ↔ ((pair : ℕ × PhpType) → In pair pairs.now → Leq tree.now pair.1 (at cells.now pair.0)) }
{
    for (cell, ty) in pairs {
        if !leq(*ty, cells[*cell as usize], tree) {
            return false;
        }
    }
    true
}

// The scope is the hand, and all that it looks at is held.
fn holds_all<S: System>(system: &S, view: &View, hand: u32) -> bool
    requires { hand < (S.shape system.now).scopes }
    ensures { IsTrue result ↔ ((view.now.hand ≡ Some hand) × HoldsLook (S.shape system.now) view.now hand) }
{
    is_hand(view, hand) && has_all(&view.holds, system.look(hand))
}

/// The hand may be dropped: all that it looks at is held, and all its pairs are met. Err where there is no memory.
pub fn may_finish<S: System>(
    system: &S,
    cells: &[Ty],
    view: &View,
    hand: u32,
) -> Result<bool, AllocError>
    requires hand { hand < (S.shape system.now).scopes }
    requires cells { IsTyping (S.shape system.now) cells.now }
    ensures { IfOk result (λ may. IsTrue may ↔ (MayFinish (S.shape system.now) cells.now view.now hand)) }
{
    if view.debt {
        return Ok(false);
    }
    if !holds_all(system, view, hand) {
        return Ok(false);
    }
    let pairs = system.contrib(hand, cells)?;
    Ok(are_met(system.tree(), &pairs, cells))
}

// A class is one of the tree's.
fn is_class(tree: &ClassTree, class: u32) -> bool
    ensures { IsTrue result ↔ ((class < length tree.now) × (class < 2 ^ 32)) }
{
    (class as usize) < tree.len()
}

// The classes that a type names are the tree's.
fn is_of(tree: &ClassTree, ty: Ty) -> bool
    ensures { IsTrue result ↔ (IsOf tree.now ty) }
{
    match ty.obj {
        ObjPart::Of(class) => is_class(tree, class),
        _ => true,
    }
}

// The join of the types that pairs have for a cell.
fn asked_of(tree: &ClassTree, pairs: &[(u32, Ty)], cell: u32) -> Ty
    requires { (pair : ℕ × PhpType) → In pair pairs.now → IsOf tree.now pair.1 }
    ensures value { result ≡ asked_in tree.now pairs.now cell }
    ensures of { IsOf tree.now result }
{
    let mut asked = Ty::none();
    for i in 0..pairs.len() {
        let (at, ty) = pairs[pairs.len() - 1 - i];
        if at == cell {
            asked = join(ty, asked, tree);
        }
    }
    asked
}

// A type is the join of the old one and of some type below what is asked: it is so of its meet with what is asked, if
// of any.
fn rises_by(tree: &ClassTree, old: Ty, new: Ty, asked: Ty) -> bool
    requires old { IsOf tree.now old }
    requires new { IsOf tree.now new }
    requires asked { IsOf tree.now asked }
    ensures { IsTrue result ↔ ((u : PhpType) × Leq tree.now u asked × (new ≡ join tree.now old u)) }
{
    new == join(old, meet(new, asked, tree), tree)
}

// The hand's look and the cell's owner are held.
fn reaches<S: System>(system: &S, view: &View, hand: u32, cell: u32) -> bool
    requires hand { hand < (S.shape system.now).scopes }
    requires cell { cell < (S.shape system.now).cells }
    ensures { IsTrue result ↔ (((view.now.hand ≡ Some hand) × HoldsLook (S.shape system.now) view.now hand) × In ((S.shape system.now).owner cell) view.now.holds) }
{
    holds_all(system, view, hand) && has(&view.holds, system.owner(cell))
}

// The type is another one, of the tree.
fn is_new(tree: &ClassTree, old: Ty, ty: Ty) -> bool
    ensures { IsTrue result ↔ ((ty ≢ old) × IsOf tree.now ty) }
{
    ty != old && is_of(tree, ty)
}

// All that a raise needs but what is asked: the hand's look and the cell's owner are held, the cell's readers are
// marked, and the type is another one, of the tree.
fn is_ready<S: System>(system: &S, view: &View, hand: u32, cell: u32, old: Ty, ty: Ty) -> bool
    requires hand { hand < (S.shape system.now).scopes }
    requires cell { cell < (S.shape system.now).cells }
    ensures { IsTrue result ↔ (IsReady (S.shape system.now) view.now hand cell old ty) }
{
    if !reaches(system, view, hand, cell) {
        return false;
    }
    if !has_all(&view.marks, system.readers(cell)) {
        return false;
    }
    is_new(system.tree(), old, ty)
}

/// The cell may be raised to the type, with this scope in hand. Err where there is no memory.
pub fn may_raise<S: System>(
    system: &S,
    cells: &[Ty],
    view: &View,
    hand: u32,
    cell: u32,
    ty: Ty,
) -> Result<bool, AllocError>
    requires hand { hand < (S.shape system.now).scopes }
    requires cells { IsTyping (S.shape system.now) cells.now }
    requires cell { cell < (S.shape system.now).cells }
    ensures { IfOk result (λ may. IsTrue may ↔ (MayRaise (S.shape system.now) cells.now view.now hand cell ((S.shape system.now).owner cell) ty)) }
{
    let old = cells[cell as usize];
    if !is_ready(system, view, hand, cell, old, ty) {
        return Ok(false);
    }
    let pairs = system.contrib(hand, cells)?;
    let asked = asked_of(system.tree(), &pairs, cell);
    Ok(rises_by(system.tree(), old, ty, asked))
}
