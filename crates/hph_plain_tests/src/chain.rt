ghost use Rattle.std.specs.Prelude.{◌≡◌};
ghost use Rattle.hph_plain_tests.specs.Chain.{parents, chain};

use hph_sys::System;
use hph_type::{ClassTree, ObjPart, Ty};
use std::alloc::{AllocError, Global};

/// A chain of three scopes over a class with two that extend it: scope 0 asks the first of these of cell 0, scope 1 asks
/// the type of cell 0 of cell 1, and scope 2 asks the type of cell 1, and the other of the classes, of cell 2.
#[derive(Drop)]
pub struct Chain {
    classes: ClassTree,
    alloc: Global,
    ghost three_classes: { classes ≡ parents },
}

impl Chain {
    /// The system. Err where there is no memory.
    pub fn new(alloc: Global) -> Result<Chain, AllocError> {
        let classes = ClassTree::new(alloc, vec![in alloc; None, Some(0), Some(0)]?)?;
        Ok(Chain { classes, alloc })
    }
}

impl System for Chain {
    ghost use Rattle.hph_plain_tests.specs.Chain.{chain};
    ghost use Rattle.hph_plain_tests.specs.ChainLaws.{chain_lawful};

    ghost shape = { λ _. chain };

    fn scopes(&self) -> u32 {
        3
    }

    fn cells(&self) -> u32 {
        3
    }

    fn owner(&self, cell: u32) -> u32 {
        cell
    }

    fn look(&self, scope: u32) -> &[u32] {
        match scope {
            0 => &[0],
            1 => &[0, 1],
            _ => &[1, 2],
        }
    }

    fn readers(&self, cell: u32) -> &[u32] {
        match cell {
            0 => &[1],
            1 => &[2],
            _ => &[],
        }
    }

    fn contrib(&self, scope: u32, known: &[Ty]) -> Result<Vec<(u32, Ty)>, AllocError> {
        let mut pairs = Vec::new(self.alloc);
        match scope {
            0 => pairs.push((0, Ty::object(ObjPart::Of(1))))?,
            1 => pairs.push((1, known[0]))?,
            _ => {
                pairs.push((2, known[1]))?;
                pairs.push((2, Ty::object(ObjPart::Of(2))))?;
            }
        }
        Ok(pairs)
    }

    fn tree(&self) -> &ClassTree {
        &self.classes
    }

    ghost laws = { λ _. chain_lawful };
}
