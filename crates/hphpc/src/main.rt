//! The compiler's program: `hphpc build MAIN` reads the file MAIN and writes its module to standard output.
//!
//! It hands the words of its command line, the files and the standard streams to `hph_drive::hphpc`, and ends with the answer's number.
#![tactic(auto)]

use hph_drive::hphpc;
use hph_src::{DirTree, NoGate, StdSink};
use std::env;
use std::io::ErrorKind;
use std::process::ExitCode;
use std::rt::Env;

/// Why there are no words.
enum WordsError {
    Withheld,
    OutOfMemory,
}

impl WordsError {
    /// The number that the program ends with, which then writes nothing.
    fn number(self) -> u8 {
        match self {
            WordsError::Withheld => 119,
            WordsError::OutOfMemory => 126,
        }
    }
}

/// The words behind the program's name.
fn words<R: Env + AllocGlobal>(rt: &R) -> Result<Vec<String>, WordsError> {
    let words = match env::args(rt) {
        Ok(words) => words,
        Err(error) if error.kind() == ErrorKind::OutOfMemory => {
            return Err(WordsError::OutOfMemory);
        }
        Err(_) => return Err(WordsError::Withheld),
    };
    match words.skip(1).collect(rt.alloc()) {
        Ok(words) => Ok(words),
        Err(_) => Err(WordsError::OutOfMemory),
    }
}

fn main(rt: HostRuntime) -> ExitCode {
    let words = match words(&rt) {
        Ok(words) => words,
        Err(error) => return ExitCode::from(error.number()),
    };
    let mut tree = DirTree::new(&rt);
    let mut out = StdSink::new(rt.stdout());
    let mut err = StdSink::new(rt.stderr());
    let status = hphpc(
        &rt,
        rt.alloc(),
        &words,
        &mut tree,
        &mut out,
        &mut err,
        &NoGate,
    );
    ExitCode::from(status.number())
}
