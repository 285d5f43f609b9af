ghost use Rattle.std.specs.Prelude.{◌≡◌, ◌≤◌, ℕ};
ghost use Rattle.hph_src.specs.Faults.{HasRisen};
ghost use Rattle.hph_wasm.specs.Configuration as configuration;
ghost use Rattle.hph_wasm.specs.HostAnswers.{IsCall, ResultsFit, HaveOneType, Answers};
ghost use Rattle.hph_wasm.specs.Run.{NeverTakesBack};

use crate::types::FuncType;

/// What a host answers to a call.
#[derive(Clone, Copy, Debug, PartialEq, Eq)]
pub enum HostAnswer {
    /// The call has returned, with a result where its type has one.
    Value(Option<u64>),
    /// The host has ended the run.
    Stop,
    /// The host found no memory.
    NoMemory,
    /// The host could not write, and has counted a fault.
    WriteFault,
}

/// What a host is to the laws about runs (Core Specification 1.0, 4.4.7.3).
pub trait AnyHost {
    /// What its states are.
    ghost State: { Type 0 };

    /// Why it ends runs.
    ghost Stop: { Type 0 };

    /// Its functions, what each does, and what has been printed in each state. What was printed is a list also where the
    /// host prints to a sink that doesn't tell its content: then the host keeps it in a ghost field (`HasPrinted`).
    ghost meaning: { configuration.Host State Stop };

    /// The state that it is in.
    ghost state: { Self → State };

    /// How many writes have failed.
    ghost faults: { Self → ℕ };
}

/// The functions that modules import, as they run (Core Specification 1.0, 4.4.7.3).
pub trait Host: AnyHost {
    /// The number of its function with these names and this type.
    fn row(&self, module_name: &[u8], name: &[u8], ty: &FuncType) -> Option<u16>
        ensures { result ≡ Self.meaning.row module_name.now name.now ty.now };

    /// Calls the function with a number that `row` gives. Where memory or a write fails, the output has grown by a prefix
    /// of what the call adds to it.
    fn call(&mut self, import: u16, arguments: &[u64], memory: &[u8]) -> HostAnswer
        requires known { ∥ IsCall Self.meaning import arguments.now ∥₁ }
        ensures answered { Answers Self.meaning (Self.state self.old)
            (Self.meaning.effect import (Self.state self.old) arguments.now memory.now) result (Self.state self.new) }
        ensures never_falls { Self.faults self.old ≤ Self.faults self.new }
        ensures cause { result ≡ HostAnswer.WriteFault → HasRisen (Self.faults self.old) (Self.faults self.new) };

    /// No call takes back what was printed.
    ghost keeps: { NeverTakesBack Self.meaning };

    /// Each function gives just what its type says.
    ghost results_fit: { ResultsFit Self.meaning };

    /// A number is that of functions of one type.
    ghost one_type: { HaveOneType Self.meaning };
}
