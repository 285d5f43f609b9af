ghost use Rattle.std.specs.Prelude.{◌≡◌, ◌==◌, IfOk, IfErr, IfSome, length};
ghost use Rattle.std.specs.Borrow.{sem};
ghost use Rattle.std.specs.Str.{bytes_eq};
ghost use Rattle.std.specs.Cmp as Cmp;
ghost use Rattle.std.specs.Cmp.Lexicographic.{nat_list_eq_equiv};
ghost use Rattle.hph_array.specs.Bytes.{bytes_input, bytes_input_respects};

use std::alloc::{AllocError, Global};
use std::cmp::{Eq, PartialEq};
use std::hash::{Hash, Hasher};
use std::marker::Model;
use std::rc::Rc;

/// A byte string, seen as the list of its bytes. Its clones share one buffer.
#[derive(Drop)]
pub struct Bytes {
    shared: Rc<Vec<u8>>,
}

impl Model for Bytes {
    ghost use Rattle.std.specs.Prelude.{ℕ, List};

    ghost Value = { List ℕ };

    ghost view = { λ bytes. bytes.shared.value.items };
}

impl Bytes {
    ghost use Rattle.hph_array.specs.Lends.{lends_buffer};

    /// The byte string of a buffer, which isn't copied.
    pub fn new(alloc: Global, bytes: Vec<u8>) -> Result<Bytes, AllocError>
        ensures { IfOk result (λ string. string ≡ bytes.items) }
    {
        let shared = Rc::new(alloc, bytes)?;
        Ok(Bytes { shared })
    }

    /// The byte string of a copy of the bytes.
    pub fn from_slice(alloc: Global, bytes: &[u8]) -> Result<Bytes, AllocError>
        ensures { IfOk result (λ string. string ≡ bytes.now) }
    {
        Bytes::new(alloc, Vec::from_slice(alloc, bytes)?)
    }

    /// Its buffer, to be written in its place, if nothing else shares it.
    pub fn get_mut(&mut self) -> Option<&mut Vec<u8>>
        ensures* writes_back { sem 𝓛 (lends_buffer self.entry result) }
        ensures value { IfSome result (λ buffer. buffer.now.items ≡ self.old) }
    {
        Rc::get_mut(&mut self.shared)
    }

    /// Its buffer, if nothing else shares it, so that it can be written; else the byte string itself.
    pub fn try_own(self) -> Result<Vec<u8>, Bytes>
        ensures ok { IfOk result (λ buffer. buffer.items ≡ self) }
        ensures err { IfErr result (λ string. string ≡ self) }
    {
        let Bytes { shared } = self;
        match Rc::try_unwrap(shared) {
            Ok(buffer) => Ok(buffer),
            Err(shared) => Err(Bytes { shared }),
        }
    }

    /// Its bytes.
    pub fn as_slice(&self) -> &[u8]
        ensures { result.now ≡ self.now }
    {
        self.shared.as_ref().as_slice()
    }

    /// The number of its bytes.
    pub fn len(&self) -> usize
        ensures { result ≡ length self.now }
    {
        self.as_slice().len()
    }

    /// Whether it has no byte.
    pub fn is_empty(&self) -> bool
        ensures { result ≡ (length self.now == 0) }
    {
        self.len() == 0
    }
}

impl Clone for Bytes {
    ghost is_clone = { λ bytes copy. copy ≡ bytes };

    fn clone(&self) -> Result<Bytes, AllocError> {
        let shared = self.shared.clone()?;
        Ok(Bytes { shared })
    }
}

impl PartialEq for Bytes {
    ghost eq = { bytes_eq };

    ghost laws = { Cmp.partial_equiv_from_equiv nat_list_eq_equiv };

    fn eq(&self, other: &Bytes) -> bool {
        self.as_slice() == other.as_slice()
    }
}

impl Eq for Bytes {
    ghost laws = { nat_list_eq_equiv };
}

impl Hash for Bytes {
    ghost hash_input = { bytes_input };

    ghost respects_eq = { bytes_input_respects };

    fn hash<H: Hasher>(&self, state: &mut H) {
        self.as_slice().hash(state);
    }
}
