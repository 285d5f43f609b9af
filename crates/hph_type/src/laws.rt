//! What the definitions of this crate are worth, for every tree of classes. The functions do nothing: each is there
//! for its contract.
ghost use Rattle.hph_type.specs.Classes.{Parents};
ghost use Rattle.hph_type.specs.Laws.{IsOrder, HasJoins, HasMeets, HasRanks, HasCodes, Grows};

/// Types are partly ordered, from the empty type to the type of all values.
#[tactic(auto, using(crate::proofs::OrderLaws::types_are_ordered))]
pub fn types_are_ordered()
    ensures { (tree : Parents) → IsOrder tree }
{}

/// The join of two types is their least upper bound, and names no class that isn't the tree's.
#[tactic(auto, using(crate::proofs::OrderLaws::types_have_joins))]
pub fn types_have_joins()
    ensures { (tree : Parents) → HasJoins tree }
{}

/// The meet of two types is their greatest lower bound, and names no class that isn't the tree's.
#[tactic(auto, using(crate::proofs::OrderLaws::types_have_meets))]
pub fn types_have_meets()
    ensures { (tree : Parents) → HasMeets tree }
{}

/// The rank of a type grows with the type, and is at most the height of the tree.
pub fn types_have_ranks()
    ensures { (tree : Parents) → HasRanks tree }
{}

/// A type is told by its code, which has 64 bits, and a number that tells a type is its code.
#[tactic(auto, using(crate::proofs::CodeLaws::types_have_codes))]
pub fn types_have_codes()
    ensures { (tree : Parents) → HasCodes tree }
{}

/// What has a type has each type above it.
pub fn membership_grows()
    ensures { (tree : Parents) → Grows tree }
{}
