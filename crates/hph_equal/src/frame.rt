//! Two arrays that are compared pair by pair.
ghost use Rattle.std.specs.Prelude.{◌≡◌, ◌+◌, ◌<◌, ◌≤◌, length, true};
ghost use Rattle.hph_equal.specs.Frames.{left_of, Faces};

use hph_array::OrdMap;
use hph_value::Value;

/// Which equality.
#[derive(Clone, Copy)]
pub enum Equality {
    /// `==`
    Loose,
    /// `===`
    Strict,
}

/// Two arrays, and the place of the pair of the left one that is compared next.
#[derive(Drop)]
pub struct Frame<'a> {
    pub x: &'a OrdMap<Value>,
    pub y: &'a OrdMap<Value>,
    pub at: usize,
}

/// What is compared next in two arrays.
#[derive(Drop)]
pub enum Facing<'a> {
    /// Nothing: the arrays are equal.
    End,
    /// Nothing: a pair is missing on one side.
    Missing,
    /// Two values.
    Values(&'a Value, &'a Value),
}

impl<'a> Frame<'a> {
    /// What is compared next.
    pub fn facing(&self, equality: Equality) -> Facing<'a>
        ensures { Faces equality result self.now.x.now self.now.y.now self.now.at }
    {
        match equality {
            Equality::Loose => self.facing_loosely(),
            Equality::Strict => self.facing_strictly(),
        }
    }

    /// The next value of the left array and the right one's value at its key.
    fn facing_loosely(&self) -> Facing<'a>
        ensures { Faces Equality.Loose result self.now.x.now self.now.y.now self.now.at }
    {
        let Some((key, value)) = self.x.at(self.at) else {
            return Facing::End;
        };
        match self.y.get(key) {
            Some(other) => Facing::Values(value, other),
            None => Facing::Missing,
        }
    }

    /// The next values of both arrays, where they have one key.
    fn facing_strictly(&self) -> Facing<'a>
        ensures { Faces Equality.Strict result self.now.x.now self.now.y.now self.now.at }
    {
        let Some((key, value)) = self.x.at(self.at) else {
            return match self.y.at(self.at) {
                Some(_) => Facing::Missing,
                None => Facing::End,
            };
        };
        let Some((other_key, other)) = self.y.at(self.at) else {
            return Facing::Missing;
        };
        if *key == *other_key {
            Facing::Values(value, other)
        } else {
            Facing::Missing
        }
    }

    /// The same arrays at the next pair.
    pub fn behind(self) -> Frame<'a>
        requires { self.at < length self.x.now.pairs }
        ensures x { result.x.now ≡ self.entry.x.now }
        ensures y { result.y.now ≡ self.entry.y.now }
        ensures at { result.at ≡ self.entry.at + 1 }
    {
        let pairs = self.x.len();
        let at = self.at;
        prove!(at < pairs);
        Frame {
            x: self.x,
            y: self.y,
            at: at + 1,
        }
    }

    /// Whether no pair is left in either array.
    pub fn is_done(&self) -> bool
        ensures left { result ≡ true → length self.now.x.now.pairs ≤ self.now.at }
        ensures right { result ≡ true → length self.now.y.now.pairs ≤ self.now.at }
    {
        self.x.len() <= self.at && self.y.len() <= self.at
    }
}
