//! The scopes that wait for a turn.
ghost use Rattle.std.specs.Prelude.{◌≡◌, ◌<◌, ℕ, [], ◌∷◌, length, slice_set, false, IfOk, OnOk, IsTrue, MatchOption};
ghost use Rattle.hph_sys.specs.Typings.{In};
ghost use Rattle.hph_plain.specs.Waiting.{waits, Wakes};

use std::alloc::{AllocError, Global};
use std::marker::Model;

/// Which scopes wait, each at most once.
#[derive(Drop)]
pub(crate) struct Waiting {
    // Whether each scope waits.
    flags: Vec<bool>,
    // Those that wait.
    stack: Vec<u32>,
}

impl Model for Waiting {
    ghost use Rattle.std.specs.Prelude.{List, Bool};
    ghost use Rattle.hph_plain.specs.Waiting.{StandOnce};

    ghost Value = { List Bool };

    ghost view = { λ w. w.flags.items };

    ghost invariant = { λ w. StandOnce w.flags.items w.stack.items };
}

impl Waiting {
    /// Every scope waits. Err where there is no memory.
    pub(crate) fn all(alloc: Global, scopes: u32) -> Result<Waiting, AllocError>
        ensures len { IfOk result (λ waiting. length waiting ≡ scopes) }
        ensures each { IfOk result (λ waiting. (scope : ℕ) → scope < scopes → IsTrue (waits waiting scope)) }
    {
        let mut flags = Vec::new(alloc);
        let mut stack = Vec::new(alloc);
        for scope in 0..scopes {
            flags.push(true)?;
            stack.push(scope)?;
        }
        Ok(Waiting { flags, stack })
    }

    /// A scope waits from now on. Err where there is no memory.
    pub(crate) fn add(&mut self, scope: u32) -> Result<(), AllocError>
        requires { scope < length self.old }
        ensures { OnOk result (Wakes (scope ∷ []) self.old self.new) }
    {
        if !self.flags[scope as usize] {
            self.stack.push(scope)?;
            self.flags[scope as usize] = true;
        }
        Ok(())
    }

    /// Takes a scope that waits, None where none does.
    pub(crate) fn take(&mut self) -> Option<u32>
        ensures { MatchOption result (self.new ≡ self.old × ((scope : ℕ) → waits self.old scope ≡ false)) (λ scope. IsTrue (waits self.old scope) × (self.new ≡ slice_set self.old scope false)) }
    {
        let scope = self.stack.pop()?;
        self.flags[scope as usize] = false;
        Some(scope)
    }
}

/// All readers wait from now on. Err where there is no memory.
pub(crate) fn wake(waiting: &mut Waiting, readers: &[u32]) -> Result<(), AllocError>
    requires { (scope : ℕ) → In scope readers.now → scope < length waiting.old }
    ensures { OnOk result (Wakes readers.now waiting.old waiting.new) }
{
    for reader in readers {
        waiting.add(*reader)?;
    }
    Ok(())
}
