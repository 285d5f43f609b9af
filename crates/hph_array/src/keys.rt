//! The keys of an array. An index by their hashes is kept only where they don't rise.
ghost use Rattle.std.specs.Prelude.{◌≡◌, ◌++◌, ◌∷◌, ◌<◌, ◌↔◌, [], length, false, IsTrue, IsSome, IfSome, IfOk, OnOk, OnErr, slice_get};
ghost use Rattle.std.specs.List.{IsDistinct, list_any, position};
ghost use Rattle.std.specs.Option.{is_some, option_copied, option_map_or, option_to_list};
ghost use Rattle.std.specs.Set.{remove_key};
ghost use Rattle.hph_array.specs.Key.{key_eq};
ghost use Rattle.hph_array.specs.Keys.{RiseFrom};

use crate::copies::copied_with_room;
use crate::key::Key;
use indexmap::IndexSet;
use std::alloc::{AllocError, Global};
use std::marker::Model;

#[derive(Drop)]
enum Form {
    // Ints that aren't negative and rise, as the keys of a list do. Where none is left out a key's place is its number, else
    // it is found by halves. So a removal, which has no memory for an index, never needs one.
    Rising(Vec<Key>),
    // Any keys, with an index by their hashes.
    Indexed(Box<IndexSet<Key>>),
}

/// Distinct keys in order.
#[derive(Drop)]
pub(crate) struct Keys {
    form: Form,
}

impl Model for Keys {
    ghost use Rattle.std.specs.Prelude.{List};
    ghost use Rattle.hph_array.specs.declared.key.Key.{Key};
    ghost use Rattle.hph_array.specs.Keys.{keys_in, IsHeld};

    ghost Value = { List Key };

    ghost view = { λ keys. keys_in keys.form };

    ghost invariant = { λ keys. IsHeld keys.form };
}

impl Keys {
    /// No keys.
    pub(crate) fn new(alloc: Global) -> Keys
        ensures { result ≡ [] }
    {
        Keys {
            form: Form::Rising(Vec::new(alloc)),
        }
    }

    /// The number of keys.
    pub(crate) fn len(&self) -> usize
        ensures value { result ≡ length self.now }
        ensures distinct { IsDistinct key_eq self.now }
    {
        match &self.form {
            Form::Rising(keys) => keys.len(),
            Form::Indexed(keys) => keys.len(),
        }
    }

    /// The place of a key, counted from 0.
    pub(crate) fn place_of(&self, key: &Key) -> Option<usize>
        ensures place { result ≡ position (key_eq key.now) self.now }
        ensures found { is_some result ≡ list_any (key_eq key.now) self.now }
    {
        match &self.form {
            Form::Rising(keys) => rising_place(keys, key),
            Form::Indexed(keys) => keys.get_index_of(key),
        }
    }

    /// The key at a place.
    pub(crate) fn at(&self, place: usize) -> Option<&Key>
        ensures { option_copied result ≡ slice_get self.now place }
    {
        match &self.form {
            Form::Rising(keys) => keys.get(place),
            Form::Indexed(keys) => keys.get_index(place),
        }
    }

    /// Puts a new key last. The first one that doesn't rise makes the index, in time linear in the keys.
    pub(crate) fn push(&mut self, key: Key) -> Result<(), AllocError>
        requires { list_any (key_eq key) self.old ≡ false }
        ensures ok { OnOk result (self.new ≡ self.old ++ key ∷ []) }
        ensures err { OnErr result (self.new ≡ self.old) }
    {
        match &mut self.form {
            Form::Rising(keys) => {
                if rises(keys, &key) {
                    keys.push(key)?;
                } else {
                    let index = indexed_with(keys, key)?;
                    self.form = Form::Indexed(index);
                }
            }
            Form::Indexed(keys) => {
                keys.insert(key)?;
            }
        }
        Ok(())
    }

    /// Removes a key, and gives its place.
    pub(crate) fn remove(&mut self, key: &Key) -> Option<usize>
        ensures place { result ≡ position (key_eq key.now) self.old }
        ensures keys { self.new ≡ remove_key (key_eq key.now) self.old }
    {
        match &mut self.form {
            Form::Rising(keys) => remove_rising(keys, key),
            Form::Indexed(keys) => remove_indexed(keys, key),
        }
    }

    /// A copy with room for some more keys, where no index is kept.
    pub(crate) fn copy_with_room(&self, more: usize) -> Result<Keys, AllocError>
        ensures { IfOk result (λ copy. copy ≡ self.now) }
    {
        let form = match &self.form {
            Form::Rising(keys) => Form::Rising(copy_rising(keys, more)?),
            Form::Indexed(keys) => Form::Indexed(copy_indexed(keys)?),
        };
        Ok(Keys { form })
    }

    /// Removes the last key and gives it.
    pub(crate) fn pop(&mut self) -> Option<Key>
        ensures keys { self.old ≡ self.new ++ option_to_list result }
        ensures found { IsSome result ↔ (0 < length self.old) }
        ensures gone { IfSome result (λ key. list_any (key_eq key) self.new ≡ false) }
    {
        match &mut self.form {
            Form::Rising(keys) => keys.pop(),
            Form::Indexed(keys) => keys.pop(),
        }
    }
}

// The place of a key among those that rise.
fn rising_place(keys: &[Key], key: &Key) -> Option<usize>
    requires { RiseFrom 0 keys.now }
    ensures { result ≡ position (key_eq key.now) keys.now }
{
    let past = key.number_after();
    if past == 0 {
        return None;
    }
    let place = (past - 1) as usize;
    if is_at(keys, place, key) {
        return Some(place);
    }
    let place = keys.partition_point(|other| other.number_after() < past);
    if is_at(keys, place, key) {
        Some(place)
    } else {
        None
    }
}

// Whether a key stands at a place.
fn is_at(keys: &[Key], place: usize, key: &Key) -> bool
    ensures { result ≡ option_map_or (key_eq key.now) (slice_get keys.now place) false }
{
    match keys.get(place) {
        Some(other) => *key == *other,
        None => false,
    }
}

// Whether keys that rise do so with this one behind them.
fn rises(keys: &[Key], key: &Key) -> bool
    requires { RiseFrom 0 keys.now }
    ensures { IsTrue result ↔ RiseFrom 0 (keys.now ++ key.now ∷ []) }
{
    let last = match keys.last() {
        Some(last) => last.number_after(),
        None => 0,
    };
    last < key.number_after()
}

// The index of these keys, and of a new one behind them.
fn indexed_with(keys: &Vec<Key>, key: Key) -> Result<Box<IndexSet<Key>>, AllocError>
    requires distinct { IsDistinct key_eq keys.now.items }
    requires new { list_any (key_eq key) keys.now.items ≡ false }
    ensures { IfOk result (λ index. index.value.keys ≡ keys.now.items ++ key ∷ []) }
{
    let copy = copy_rising(keys, 0)?;
    let mut index = IndexSet::from_iter(*keys.allocator(), copy)?;
    index.insert(key)?;
    Ok(Box::new(*keys.allocator(), index)?)
}

// Removes a key of those that rise, and gives its place.
fn remove_rising(keys: &mut Vec<Key>, key: &Key) -> Option<usize>
    requires { RiseFrom 0 keys.old.items }
    ensures place { result ≡ position (key_eq key.now) keys.old.items }
    ensures keys { keys.new.items ≡ remove_key (key_eq key.now) keys.old.items }
{
    let place = rising_place(keys, key)?;
    keys.remove(place);
    Some(place)
}

// Removes a key of any, and gives its place.
fn remove_indexed(keys: &mut IndexSet<Key>, key: &Key) -> Option<usize>
    ensures place { result ≡ position (key_eq key.now) keys.old.keys }
    ensures keys { keys.new.keys ≡ remove_key (key_eq key.now) keys.old.keys }
{
    let (place, _) = keys.shift_remove_full(key)?;
    Some(place)
}

// A copy of keys that rise, with room for some more.
fn copy_rising(keys: &Vec<Key>, more: usize) -> Result<Vec<Key>, AllocError>
    ensures { IfOk result (λ copy. copy.items ≡ keys.now.items) }
{
    copied_with_room(*keys.allocator(), keys, more)
}

// A copy of keys and their index.
fn copy_indexed(keys: &IndexSet<Key>) -> Result<Box<IndexSet<Key>>, AllocError>
    ensures { IfOk result (λ copy. copy.value.keys ≡ keys.now.keys) }
{
    let copy = keys.clone()?;
    Ok(Box::new(*keys.allocator(), copy)?)
}
