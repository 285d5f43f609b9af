//! Systems small enough to be worked by hand, with their least typings.
ghost use Rattle.std.specs.Prelude.{◌≡◌, []};
ghost use Rattle.hph_sys.specs.Least.{IsLeast};
ghost use Rattle.hph_sys.specs.Lawful.{Lawful};
ghost use Rattle.hph_sys.specs.Two.{two, two_least};
ghost use Rattle.hph_sys.specs.Ring.{ring, ring_least};

use crate::system::System;
use hph_type::{ClassTree, Kind, Ty};
use std::alloc::{AllocError, Global};

/// Scope 0 asks int of cell 0, and scope 1 asks the type of cell 0 of cell 1. Both cells are int in the least typing.
#[derive(Drop)]
pub struct Two {
    classes: ClassTree,
    alloc: Global,
    ghost no_classes: { classes ≡ [] },
}

impl Two {
    /// The system. Err where there is no memory.
    pub fn new(alloc: Global) -> Result<Two, AllocError> {
        let classes = ClassTree::new(alloc, Vec::new(alloc))?;
        Ok(Two { classes, alloc })
    }
}

impl System for Two {
    ghost use Rattle.hph_sys.specs.Two.{two};
    ghost use Rattle.hph_sys.specs.TwoLaws.{two_lawful};

    ghost shape = { λ _. two };

    fn scopes(&self) -> u32 {
        2
    }

    fn cells(&self) -> u32 {
        2
    }

    fn owner(&self, cell: u32) -> u32 {
        cell
    }

    fn look(&self, scope: u32) -> &[u32] {
        if scope == 0 { &[0] } else { &[0, 1] }
    }

    fn readers(&self, cell: u32) -> &[u32] {
        if cell == 0 { &[1] } else { &[] }
    }

    fn contrib(&self, scope: u32, known: &[Ty]) -> Result<Vec<(u32, Ty)>, AllocError> {
        let mut pairs = Vec::new(self.alloc);
        if scope == 0 {
            pairs.push((0, Ty::only(Kind::Int)))?;
        } else {
            pairs.push((1, known[0]))?;
        }
        Ok(pairs)
    }

    fn tree(&self) -> &ClassTree {
        &self.classes
    }

    ghost laws = { λ _. two_lawful };
}

/// In the least typing of `Two` both cells are int.
pub fn two_is_int()
    ensures lawful { Lawful two }
    ensures least { IsLeast two two_least }
{}

/// In a cycle of two scopes, of which one asks int and the other string, both cells are int or string.
pub fn ring_is_int_or_string()
    ensures lawful { Lawful ring }
    ensures least { IsLeast ring ring_least }
{}
