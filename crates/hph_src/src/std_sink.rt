ghost use Rattle.std.specs.Prelude.{◌≡◌, ◌≤◌, None};
ghost use Rattle.hph_src.specs.Faults.{HasRisen};
ghost use Rattle.hph_src.specs.Sink.{Grows};
ghost use Rattle.hph_src.specs.StdSink.{Writes};

use crate::{PutAnswer, Sink};
use std::io::{ErrorKind, Write};
use std::marker::Model;

/// A sink over a writer of std, which is not flushed. A contract sees the count of its faults, and the bytes that the
/// writer holds, where std tells them; as a `Sink` it tells no content, since a file's is not known.
#[derive(Drop)]
pub struct StdSink<W: Write + Drop> {
    writer: W,
    faults: u64,
}

impl<W: Write + Drop> Model for StdSink<W> {
    ghost use Rattle.hph_src.specs.StdSink.{WriterState};

    ghost Value = { WriterState };

    ghost view = { λ s. record { written = W.contents s.writer; faults = s.faults } };
}

impl<W: Write + Drop> StdSink<W> {
    /// A sink over `writer`, with no fault so far.
    pub fn new(writer: W) -> StdSink<W>
        ensures { result ≡ record { written = W.contents writer; faults = 0 } }
    {
        StdSink { writer, faults: 0 }
    }

    /// How many puts have failed.
    pub fn faults(&self) -> u64
        ensures { result ≡ self.now.faults }
    {
        self.faults
    }
}

impl<W: Write + Drop> Sink for StdSink<W> {
    ghost content = { λ _. None };

    ghost faults = { λ s. s.faults };

    fn put(&mut self, piece: &[u8]) -> PutAnswer
        ensures grown { Grows None None piece.now result }
        ensures never_falls { self.old.faults ≤ self.new.faults }
        ensures cause { result ≡ PutAnswer.Failed → HasRisen self.old.faults self.new.faults }

        ensures written { Writes self.old.written self.new.written piece.now result }
    {
        let answer = write_piece(&mut self.writer, piece);
        if answer == PutAnswer::Failed {
            self.faults = self.faults.saturating_add(1);
            return PutAnswer::Failed;
        }
        answer
    }
}

fn write_piece<W: Write>(writer: &mut W, piece: &[u8]) -> PutAnswer
    ensures { Writes (W.contents writer.old) (W.contents writer.new) piece.now result }
{
    let mut rest = piece;
    while !rest.is_empty() {
        match writer.write(rest) {
            // A writer that takes nothing has failed too.
            Ok(0) => return PutAnswer::Failed,
            Ok(count) => rest = &rest[count..],
            Err(error) if error.kind() == ErrorKind::OutOfMemory => return PutAnswer::NoMemory,
            Err(_) => return PutAnswer::Failed,
        }
    }
    PutAnswer::All
}
