ghost use Rattle.std.specs.Prelude.{◌≡◌, ℕ};
ghost use Rattle.std.specs.Option.{option_copied};
ghost use Rattle.hph_write_host.specs.Writing.{is_write_type, bytes_at, piece_of};

use hph_src::{PutAnswer, Sink};
use hph_wasm::{AnyHost, FuncType, Host, HostAnswer, ValType};

/// A host that prints to a sink.
#[derive(Debug, Drop)]
pub struct WriteHost<S> {
    pub sink: S,
}

impl<S: Sink> AnyHost for WriteHost<S> {
    ghost use Rattle.std.specs.Prelude.{ℕ, List, Option};
    ghost use Rattle.hph_write_host.specs.Writing.{Stop, writing};

    ghost State = { Option (List ℕ) };

    ghost Stop = { Stop };

    ghost meaning = { writing };

    ghost state = { λ host. S.content host.sink };

    ghost faults = { λ host. S.faults host.sink };
}

impl<S: Sink> Host for WriteHost<S> {
    ghost use Rattle.hph_write_host.specs.Laws.{never_takes_back, results_fit, have_one_type};

    fn row(&self, module_name: &[u8], name: &[u8], ty: &FuncType) -> Option<u16> {
        if module_name == b"php1".as_slice() && name == b"write".as_slice() && is_write_type(ty) {
            Some(0)
        } else {
            None
        }
    }

    fn call(&mut self, _import: u16, arguments: &[u64], memory: &[u8]) -> HostAnswer {
        match piece(arguments, memory) {
            None => HostAnswer::Stop,
            Some(piece) => match self.sink.put(piece) {
                PutAnswer::All => HostAnswer::Value(None),
                PutAnswer::Failed => HostAnswer::WriteFault,
                PutAnswer::NoMemory => HostAnswer::NoMemory,
            },
        }
    }

    ghost keeps = { never_takes_back };

    ghost results_fit = { results_fit };

    ghost one_type = { have_one_type };
}

/// Whether a function takes a place and a count, and gives nothing.
fn is_write_type(ty: &FuncType) -> bool
    ensures { result ≡ is_write_type ty.now }
{
    match ty.params.as_slice() {
        [ValType::I32, ValType::I32] => ty.results.is_empty(),
        _ => false,
    }
}

/// The bytes that a call prints, if they are in the memory.
fn piece<'a>(arguments: &[u64], memory: &'a [u8]) -> Option<&'a [u8]>
    ensures { option_copied result ≡ piece_of arguments.now memory.now }
{
    match arguments {
        [place, count] => bytes_at(*place, *count, memory),
        _ => None,
    }
}

/// So many bytes of the memory from a place on, if all of them are there.
fn bytes_at(place: u64, count: u64, memory: &[u8]) -> Option<&[u8]>
    ensures { option_copied result ≡ bytes_at place count memory.now }
{
    let len = memory.len() as u64;
    if count <= len && place <= len - count {
        let from = place as usize;
        Some(&memory[from..from + count as usize])
    } else {
        None
    }
}
