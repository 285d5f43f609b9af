ghost use Rattle.std.specs.Prelude.{◌≡◌, ◌<◌, ◌≤◌, ◌+◌, ◌^◌, ◌==◌, IfOk, MatchOption, length, slice_index};
ghost use Rattle.std.specs.Option.{ForSome};
ghost use Rattle.hph_type.specs.Classes.{AreBefore, parent_of, is_within, nearest, depth, deepest, height};

use std::alloc::{AllocError, Global};
use std::marker::Model;

/// The classes that types name, by their parents (PHP manual, 'Object Inheritance').
#[derive(Drop)]
pub struct ClassTree {
    parents: Vec<Option<u32>>,
    deepest: u64,
}

impl Model for ClassTree {
    ghost use Rattle.std.specs.Prelude.{◌≡◌, ◌≤◌, ◌^◌};
    ghost use Rattle.hph_type.specs.Classes.{Parents, MakeTree};

    ghost Value = { Parents };

    ghost view = { λ t. t.parents.items };

    ghost invariant = { λ t. MakeTree t.parents.items t.deepest };
}

impl ClassTree {
    /// The tree in which each class has the parent at its number. Err where there is no memory.
    pub fn new(alloc: Global, parents: Vec<Option<u32>>) -> Result<ClassTree, AllocError>
        requires { AreBefore parents.items }
        ensures { IfOk result (λ tree. tree ≡ parents.items) }
    {
        let deepest = greatest_depth(alloc, &parents)?;
        Ok(ClassTree { parents, deepest })
    }

    /// The number of classes.
    pub fn len(&self) -> usize
        ensures value { result ≡ length self.now }
        ensures before { AreBefore self.now }
    {
        self.parents.len()
    }

    /// Whether there is no class.
    pub fn is_empty(&self) -> bool
        ensures { result ≡ (length self.now == 0) }
    {
        self.parents.is_empty()
    }

    /// The parent of a class, None if it extends none.
    pub fn parent(&self, class: u32) -> Option<u32>
        requires { class < length self.now }
        ensures { result ≡ parent_of self.now class }
    {
        self.parents[class as usize]
    }

    /// The greatest number of times that a type of these classes can rise from the empty one: 7 plus the greatest
    /// depth of a class, where a class without parent has depth 0; 7 without classes.
    #[tactic(auto, unfolding(crate::specs::Classes::height))]
    pub fn height(&self) -> u64
        ensures { result ≡ height self.now }
    {
        7 + self.deepest
    }

    /// Whether a class is another one or extends it.
    pub fn is_within(&self, class: u32, ancestor: u32) -> bool
        requires { class < length self.now }
        ensures { result ≡ is_within self.now class ancestor }
    {
        let mut at = class;
        while at > ancestor {
            match self.parent(at) {
                Some(parent) => at = parent,
                None => return false,
            }
        }
        at == ancestor
    }

    /// The nearest class that both classes are or extend, None if there is none.
    pub fn nearest(&self, a: u32, b: u32) -> Option<u32>
        requires left { a < length self.now }
        requires right { b < length self.now }
        ensures { result ≡ nearest self.now a b }
    {
        let mut left = a;
        let mut right = b;
        while left != right {
            if left > right {
                left = self.parent(left)?;
            } else {
                right = self.parent(right)?;
            }
        }
        Some(left)
    }
}

// The greatest depth of a class.
fn greatest_depth(alloc: Global, parents: &[Option<u32>]) -> Result<u64, AllocError>
    requires { AreBefore parents.now }
    ensures value { IfOk result (λ depth. depth ≡ deepest parents.now) }
    ensures within { IfOk result (λ depth. depth ≤ 2 ^ 32) }
{
    let mut depths = Vec::new(alloc);
    let mut deepest = 0;
    for parent in parents {
        let depth = next_depth(&depths, *parent);
        depths.push(depth)?;
        deepest = deepest.max(depth);
    }
    Ok(deepest)
}

// The depth of a class, from its parent and the depths of the classes before it.
fn next_depth(depths: &[u64], parent: Option<u32>) -> u64
    requires before { ForSome parent (λ p. p < length depths.now) }
    requires low { ForSome parent (λ p. slice_index depths.now p ≤ p) }
    ensures value { MatchOption parent (result ≡ 0) (λ p. result ≡ slice_index depths.now p + 1) }
    ensures within { result ≤ 2 ^ 32 }
{
    match parent {
        Some(parent) => depths[parent as usize] + 1,
        None => 0,
    }
}
