ghost use Rattle.std.specs.Prelude.{◌≡◌, [], ◌∷◌, ◌++◌, ◌==◌, ◌<◌, ◌≤◌, ◌^◌, ◌↔◌, length, false, OnOk, OnErr, IfOk, IsOk, IsSome, Err, Some, slice_get, slice_set};
ghost use Rattle.std.specs.Option.{option_copied, option_map, is_some};
ghost use Rattle.std.specs.List.{list_any};
ghost use Rattle.std.specs.Map.{values_of};
ghost use Rattle.hph_array.specs.Key.{key_eq};
ghost use Rattle.hph_array.specs.Array.{IsArray, get, set, append, unset, replace, last, pop, fallen};

use crate::copies::copied_with_room;
use crate::key::Key;
use crate::keys::Keys;
use std::alloc::{AllocError, Global};
use std::marker::Model;
use std::mem;

/// Why a value couldn't be appended.
#[derive(Clone, Copy, Debug, PartialEq, Eq)]
pub enum AppendFault {
    /// The next key is 2^63, which is no int.
    Full,
    /// There is no memory.
    NoMemory,
}

impl From<AllocError> for AppendFault {
    ghost use Rattle.std.specs.Prelude.{◌≡◌};
    ghost use Rattle.hph_array.specs.declared.map.AppendFault.TheVariants.{NoMemory};

    ghost from_gives = { λ _ fault. fault ≡ NoMemory };

    fn from(_error: AllocError) -> AppendFault {
        AppendFault::NoMemory
    }
}

/// An array (PHP manual, 'Arrays'): pairs of distinct keys and values in order, and the key of
/// the next append.
#[derive(Drop)]
pub struct OrdMap<V> {
    keys: Keys,
    values: Vec<V>,
    next: u64,
}

impl<V> Model for OrdMap<V> {
    ghost use Rattle.std.specs.List.{zip};
    ghost use Rattle.hph_array.specs.Array.{Array, array_code, MakeArray};

    ghost Value = { Array V };

    ghost coded = { array_code V.code };

    ghost view = { λ m. record { pairs = zip m.keys m.values.items; next_key = m.next } };

    ghost invariant = { λ m. MakeArray m.keys m.values.items m.next };
}

impl<V> OrdMap<V> {
    /// An array without pairs, whose next key is 0.
    pub fn new(alloc: Global) -> OrdMap<V>
        ensures pairs { result.pairs ≡ [] }
        ensures next_key { result.next_key ≡ 0 }
    {
        OrdMap {
            keys: Keys::new(alloc),
            values: Vec::new(alloc),
            next: 0,
        }
    }

    /// The number of pairs.
    pub fn len(&self) -> usize
        ensures value { result ≡ length self.now.pairs }
        ensures array { IsArray self.now }
    {
        self.keys.len()
    }

    /// Whether it has no pair.
    pub fn is_empty(&self) -> bool
        ensures { result ≡ (length self.now.pairs == 0) }
    {
        self.len() == 0
    }

    /// The key of the next append. It is 2^63, which is no int, where nothing can be appended.
    pub fn next_key(&self) -> u64
        ensures { result ≡ self.now.next_key }
    {
        self.next
    }

    /// The value at a key.
    pub fn get(&self, key: &Key) -> Option<&V>
        ensures { option_copied result ≡ get self.now key.now }
    {
        let at = self.keys.place_of(key)?;
        item(&self.values, at)
    }

    /// Its values in order, in the memory that they have. It takes no memory.
    #[tactic(auto, using(crate::proofs::Values::values_of_zip))]
    pub fn into_values(self) -> Vec<V>
        ensures { result.items ≡ values_of self.pairs }
    {
        let OrdMap {
            keys,
            values,
            next: _,
        } = self;
        drop(keys);
        values
    }

    /// The pair at a place, counted from 0.
    pub fn at(&self, index: usize) -> Option<(&Key, &V)>
        ensures { option_map (λ p. (p.0.now, p.1.now)) result ≡ slice_get self.now.pairs index }
    {
        let key = self.keys.at(index)?;
        let value = item(&self.values, index)?;
        Some((key, value))
    }
}

impl<V: Drop> OrdMap<V> {
    /// Puts a value at a key: in its place if the key is there, else last (PHP manual, 'Arrays').
    /// Where there is no memory the array is unchanged.
    pub fn set(&mut self, key: Key, value: V) -> Result<(), AllocError>
        ensures ok { OnOk result (self.new ≡ set self.old key value) }
        ensures err { OnErr result (self.new ≡ self.old) }
        ensures there { IsSome (get self.old key) → IsOk result }
    {
        let past = key.number_after();
        if let Some(at) = self.keys.place_of(&key) {
            self.values[at] = value;
            return Ok(());
        }
        push_pair(&mut self.keys, &mut self.values, key, value)?;
        self.next = self.next.max(past);
        Ok(())
    }

    /// Puts a value last, at the next key (PHP manual, 'Arrays'). Full where the next key is 2^63,
    /// NoMemory where there is no memory; the array is then unchanged.
    pub fn append(&mut self, value: V) -> Result<(), AppendFault>
        ensures ok { OnOk result (self.new ≡ append self.old value) }
        ensures err { OnErr result (self.new ≡ self.old) }
        ensures full { (result ≡ Err AppendFault.Full) ↔ (self.old.next_key ≡ 2 ^ 63) }
    {
        if self.next == 1 << 63 {
            return Err(AppendFault::Full);
        }
        let key = Key::Int(self.next as i64);
        push_pair(&mut self.keys, &mut self.values, key, value)?;
        self.next += 1;
        Ok(())
    }

    /// Removes the pair of a key, and says whether there was one. The next key stays
    /// (PHP manual, 'Arrays').
    pub fn unset(&mut self, key: &Key) -> bool
        ensures rest { self.new ≡ unset self.old key.now }
        ensures found { result ≡ is_some (get self.old key.now) }
    {
        let Some(at) = self.keys.remove(key) else {
            return false;
        };
        self.values.remove(at);
        true
    }

    /// Removes the last pair and gives it (PHP manual, 'array_pop'). The next key falls to its key
    /// if that is one below it and isn't negative.
    pub fn pop(&mut self) -> Option<(Key, V)>
        ensures value { result ≡ last self.old.pairs }
        ensures rest { self.new ≡ pop self.old }
    {
        let key = self.keys.pop()?;
        let value = self.values.pop()?;
        self.next = fallen_key(self.next, &key);
        Some((key, value))
    }

    /// Gives the value at a key and leaves `empty` in its place, so that the value can be changed
    /// without a copy.
    pub fn take(&mut self, key: &Key, empty: V) -> Option<V>
        ensures value { result ≡ get self.old key.now }
        ensures rest { self.new ≡ replace self.old key.now empty }
    {
        let place = self.keys.place_of(key)?;
        Some(exchange(&mut self.values, place, empty))
    }
}

impl<V: Drop + Clone> OrdMap<V> {
    /// An equal array of its own: neither is changed by what is done to the other.
    pub fn copy(&self) -> Result<OrdMap<V>, AllocError>
        requires { (x y : V) → V.is_clone x y → y ≡ x }
        ensures { IfOk result (λ copy. copy ≡ self.now) }
    {
        self.copy_with_room(0)
    }

    /// The same, with room for some more pairs where the array is a list, so that as many appends don't move the others.
    pub fn copy_with_room(&self, more: usize) -> Result<OrdMap<V>, AllocError>
        requires { (x y : V) → V.is_clone x y → y ≡ x }
        ensures { IfOk result (λ copy. copy ≡ self.now) }
    {
        let keys = self.keys.copy_with_room(more)?;
        let values = copied_with_room(*self.values.allocator(), &self.values, more)?;
        Ok(OrdMap {
            keys,
            values,
            next: self.next,
        })
    }
}

// The item at a place.
fn item<T>(items: &[T], at: usize) -> Option<&T>
    ensures { option_copied result ≡ slice_get items.now at }
{
    items.get(at)
}

// Puts a new key and its value last, both or neither.
fn push_pair<V: Drop>(
    keys: &mut Keys,
    values: &mut Vec<V>,
    key: Key,
    value: V,
) -> Result<(), AllocError>
    requires { list_any (key_eq key) keys.old ≡ false }
    ensures keys { OnOk result (keys.new ≡ keys.old ++ key ∷ []) }
    ensures values { OnOk result (values.new.items ≡ values.old.items ++ value ∷ []) }
    ensures keys_stay { OnErr result (keys.new ≡ keys.old) }
    ensures values_stay { OnErr result (values.new.items ≡ values.old.items) }
{
    values.push(value)?;
    match keys.push(key) {
        Ok(_) => Ok(()),
        Err(_) => {
            values.pop();
            Err(AllocError)
        }
    }
}

// Puts a value in the place of another, and gives that one.
fn exchange<V: Drop>(values: &mut Vec<V>, at: usize, value: V) -> V
    requires { at < length values.old.items }
    ensures old { slice_get values.old.items at ≡ Some result }
    ensures new { values.new.items ≡ slice_set values.old.items at value }
{
    mem::replace(&mut values[at], value)
}

// The next key after a pop of this key.
fn fallen_key(next: u64, key: &Key) -> u64
    ensures { result ≡ fallen next key.now }
{
    match key {
        Key::Int(number) if *number >= 0 && next == *number as u64 + 1 => *number as u64,
        _ => next,
    }
}
