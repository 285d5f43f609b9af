ghost use Rattle.std.specs.Prelude.{◌≡◌, ◌≤◌, ℕ, List, Option};
ghost use Rattle.hph_src.specs.Faults.{HasRisen};
ghost use Rattle.hph_src.specs.Sink.{Grows};

/// How a put of a piece ended.
#[derive(Clone, Copy, Debug, PartialEq, Eq)]
pub enum PutAnswer {
    /// The sink has taken the whole piece.
    All,
    /// The sink has taken a prefix of the piece, and has counted a fault.
    Failed,
    /// The sink has taken a prefix of the piece, and found no memory for more.
    NoMemory,
}

/// What bytes are written to, one piece after another.
pub trait Sink {
    /// The bytes that the sink has taken, where it tells them.
    ghost content: { Self → Option (List ℕ) };

    /// How many puts have failed.
    ghost faults: { Self → ℕ };

    /// Writes the bytes of `piece` after those that the sink has taken before.
    fn put(&mut self, piece: &[u8]) -> PutAnswer
        ensures grown { Grows (content self.old) (content self.new) piece.now result }
        ensures never_falls { faults self.old ≤ faults self.new }
        ensures cause { result ≡ PutAnswer.Failed → HasRisen (faults self.old) (faults self.new) };
}

/// A sink that is lent has the content and the count of its owner.
impl<S: Sink> Sink for &mut S {
    ghost content = { λ s. S.content s.now };

    ghost faults = { λ s. S.faults s.now };

    fn put(&mut self, piece: &[u8]) -> PutAnswer {
        (**self).put(piece)
    }
}
