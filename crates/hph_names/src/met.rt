//! Names that were met, without a look at each of them.
ghost use Rattle.std.specs.Prelude.{◌≡◌, ◌++◌, ◌∷◌, ◌||◌, ℕ, List, [], bytes_eq, IfSome, OnSome};
ghost use Rattle.std.specs.List.{list_any};
ghost use Rattle.hph_names.specs.Names.{folded, is_same, Knows, spelled};

use indexmap::IndexSet;
use std::alloc::Global;
use std::marker::Model;

/// Whether names that differ in ASCII case alone are the same: those of methods are.
#[derive(Clone, Copy, PartialEq, Eq)]
pub enum Case {
    Kept,
    Ignored,
}

/// Names that were met; or nothing, once memory ran out.
#[derive(Drop)]
pub struct MetNames {
    alloc: Global,
    case: Case,
    // Each as it is compared.
    names: Option<IndexSet<Vec<u8>>>,
}

impl Model for MetNames {
    ghost use Rattle.std.specs.Prelude.{ℕ, List, Option};
    ghost use Rattle.std.specs.Option.{option_map};
    ghost use Rattle.hph_names.specs.declared.met.Case.{Case};
    ghost use Rattle.hph_names.specs.Names.{spelled};

    ghost Value = { Case × Option (List (List ℕ)) };

    ghost view = { λ m. (m.case, option_map (λ names. spelled names.keys) m.names) };
}

impl MetNames {
    /// No names.
    pub fn new(alloc: Global, case: Case) -> MetNames
        ensures case { result.0 ≡ case }
        ensures names { Knows result [] }
    {
        MetNames {
            alloc,
            case,
            names: Some(IndexSet::new(alloc)),
        }
    }

    /// Whether a name was met; from now on it was. None where memory runs out, now and from now on.
    pub fn meet(&mut self, name: &[u8]) -> Option<bool>
        ensures case { self.new.0 ≡ self.old.0 }
        ensures was { (names : List (List ℕ)) → Knows self.old names → IfSome result (λ was. was ≡ list_any (is_same self.old.0 name.now) names) }
        ensures now { (names : List (List ℕ)) → Knows self.old names → Knows self.new (names ++ name.now ∷ []) }
    {
        let mut names = self.names.take()?;
        let name = fold(self.alloc, self.case, name)?;
        let was = insert(&mut names, name)?;
        self.names = Some(names);
        Some(was)
    }
}

/// Puts a name among others, and tells whether it was there; none where memory runs out.
fn insert(names: &mut IndexSet<Vec<u8>>, name: Vec<u8>) -> Option<bool>
    ensures was { IfSome result (λ was. was ≡ list_any (bytes_eq name.items) (spelled names.old.keys)) }
    ensures now { OnSome result ((other : List ℕ) → list_any (bytes_eq other) (spelled names.new.keys) ≡ (list_any (bytes_eq other) (spelled names.old.keys) || bytes_eq other name.items)) }
{
    let Ok((_, is_new)) = names.insert_full(name) else {
        return None;
    };
    Some(!is_new)
}

/// A name as it is compared; none where memory runs out.
fn fold(alloc: Global, case: Case, name: &[u8]) -> Option<Vec<u8>>
    ensures { IfSome result (λ text. text.items ≡ folded case name.now) }
{
    match case {
        Case::Kept => Vec::from_slice(alloc, name).ok(),
        Case::Ignored => name.to_ascii_lowercase(alloc).ok(),
    }
}
