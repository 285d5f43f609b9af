//! Names that stand twice among parameters and among the members of a class.
ghost use Rattle.std.specs.Prelude.{◌≡◌, ◌++◌, ◌∷◌, [], map, flat_map, bytes_eq};
ghost use Rattle.std.specs.List.{list_any};
ghost use Rattle.hph_ast.specs.RefusedStatements as refused;
ghost use Rattle.hph_ast.specs.declared.function.Param.{Param};
ghost use Rattle.hph_accept.specs.Order.{earliest};
ghost use Rattle.hph_accept.specs.Names.{same_of, spelled, names_of, repeats, Tracks};
ghost use Rattle.hph_accept.specs.Parts.{member_of};

use crate::earliest::{Earliest, meet_if};
use crate::names::{Named, Sort, is_among, is_same};
use hph_ast::{Construct, Identifier, Member, Param};
use hph_names::MetNames;
use std::alloc::Global;
use std::slice::from_ref;

/// Whether a member declares a name of a sort.
#[tactic(auto, using(crate::proofs::StatementParts::the_parts, crate::proofs::Repeats::repeating))]
fn declares(sort: Sort, member: &Member, name: &Identifier) -> bool
    ensures { result ≡ list_any (same_of sort name.now.spelled) (spelled (names_of sort member.now)) }
{
    match member {
        Member::Constants { items, .. } => {
            sort == Sort::Constants && is_among(sort, items.as_slice(), name)
        }
        Member::Properties { items, .. } => {
            sort == Sort::Properties && is_among(sort, items.as_slice(), name)
        }
        Member::Method { function, .. } => {
            sort == Sort::Methods
                && is_same(
                    sort,
                    name.spelled.as_slice(),
                    function.get().name.spelled.as_slice(),
                )
        }
    }
}

/// Whether one of these members declares a name of a sort.
#[tactic(auto, using(crate::proofs::Repeats::repeating))]
fn is_declared(sort: Sort, members: &[Member], name: &Identifier) -> bool
    ensures { result ≡ list_any (same_of sort name.now.spelled) (spelled (flat_map (names_of sort) members.now)) }
{
    for member in members {
        if declares(sort, member, name) {
            return true;
        }
    }
    false
}

/// Whether a name stands in members before, or among items before; from now on it was met.
#[tactic(auto, using(crate::proofs::Repeats::repeating))]
fn is_met<T: Named>(
    sort: Sort,
    names: &mut MetNames,
    before: &[Member],
    items: &[T],
    name: &Identifier,
) -> bool
    requires { Tracks sort names.old (flat_map (names_of sort) before.now ++ map T.name_of items.now) }
    ensures there { result ≡ list_any (same_of sort name.now.spelled) (spelled (flat_map (names_of sort) before.now ++ map T.name_of items.now)) }
    ensures names { Tracks sort names.new ((flat_map (names_of sort) before.now ++ map T.name_of items.now) ++ name.now ∷ []) }
{
    match names.meet(name.spelled.as_slice()) {
        Some(was) => was,
        None => is_declared(sort, before, name) || is_among(sort, items, name),
    }
}

/// The earliest of what was met and of the names of these that members before or others before among them have.
#[tactic(auto, using(crate::proofs::InTurn::in_turn, crate::proofs::Repeats::repeating))]
fn repeated<T: Named>(
    met: Earliest,
    sort: Sort,
    names: &mut MetNames,
    before: &[Member],
    items: &[T],
) -> Earliest
    requires { Tracks sort names.old (flat_map (names_of sort) before.now) }
    ensures first { result ≡ earliest met (repeats sort (flat_map (names_of sort) before.now) (map T.name_of items.now)) }
    ensures names { Tracks sort names.new (flat_map (names_of sort) before.now ++ map T.name_of items.now) }
{
    let mut met = met;
    for index in 0..items.len() {
        let name = items[index].name();
        let is_there = is_met(sort, names, before, &items[..index], name);
        met = meet_if(met, is_there, Construct::DuplicateName, name.start);
    }
    met
}

/// The earliest of what was met and of the names of parameters that others before have.
#[tactic(auto, using(crate::proofs::Repeats::repeats_all))]
pub fn repeated_parameters(met: Earliest, params: &[Param], alloc: Global) -> Earliest
    ensures { result ≡ earliest met (refused.duplicates bytes_eq [] (map (λ (x : Param). x.name) params.now)) }
{
    let sort = Sort::Parameters;
    let mut names = MetNames::new(alloc, sort.case());
    repeated(met, sort, &mut names, &[], params)
}

/// The earliest of what was met and of the names of a member that members before or others of it have.
#[tactic(auto, using(crate::proofs::StatementParts::the_parts, crate::proofs::InTurn::in_turn, crate::proofs::Repeats::repeating))]
fn repeated_in(
    met: Earliest,
    sort: Sort,
    names: &mut MetNames,
    before: &[Member],
    member: &Member,
) -> Earliest
    requires { Tracks sort names.old (flat_map (names_of sort) before.now) }
    ensures first { result ≡ earliest met (repeats sort (flat_map (names_of sort) before.now) (names_of sort member.now)) }
    ensures names { Tracks sort names.new (flat_map (names_of sort) before.now ++ names_of sort member.now) }
{
    match member {
        Member::Constants { items, .. } if sort == Sort::Constants => {
            repeated(met, sort, names, before, items.as_slice())
        }
        Member::Properties { items, .. } if sort == Sort::Properties => {
            repeated(met, sort, names, before, items.as_slice())
        }
        Member::Method { function, .. } if sort == Sort::Methods => {
            repeated(met, sort, names, before, from_ref(function.get()))
        }
        _ => met,
    }
}

#[tactic(auto, using(crate::proofs::InTurn::in_turn, crate::proofs::Repeats::repeating))]
fn repeated_members(met: Earliest, sort: Sort, members: &[Member], alloc: Global) -> Earliest
    ensures { result ≡ earliest met (repeats sort [] (flat_map (names_of sort) members.now)) }
{
    let mut met = met;
    let mut names = MetNames::new(alloc, sort.case());
    for index in 0..members.len() {
        met = repeated_in(met, sort, &mut names, &members[..index], &members[index]);
    }
    met
}

/// The earliest of what was met and of the names that stand twice in a class, sort by sort.
#[tactic(auto, using(crate::proofs::InTurn::in_turn, crate::proofs::Repeats::duplicates))]
pub fn duplicate_members(met: Earliest, members: &[Member], alloc: Global) -> Earliest
    ensures { result ≡ earliest met (refused.duplicate_members (map member_of members.now)) }
{
    let met = repeated_members(met, Sort::Constants, members, alloc);
    let met = repeated_members(met, Sort::Properties, members, alloc);
    repeated_members(met, Sort::Methods, members, alloc)
}
