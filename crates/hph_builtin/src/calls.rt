//! A call of a function that is built in.
ghost use Rattle.std.specs.Prelude.{◌≡◌, ◌≤◌, Err, map, true};
ghost use Rattle.hph_src.specs.Faults.{HasRisen};
ghost use Rattle.hph_php.specs.Builtins as php;
ghost use Rattle.hph_value.specs.Shown.{value_of, Tells};
ghost use Rattle.hph_builtin.specs.Replies.{is_silent, Replies};

use crate::counts::miscounted;
use crate::plain::{call_with_one, call_with_three, call_with_two};
use hph_builtin_dump::{HostStop, dump_all};
use hph_php::Builtin;
use hph_src::Sink;
use hph_value::{Stop, Value};
use std::alloc::Global;

/// A call of a function that prints nothing.
fn call_silently(alloc: Global, function: Builtin, args: &[Value]) -> Result<Value, Stop>
    requires { is_silent function ≡ true }
    ensures { Tells result (php.builtin_of function (map value_of args.now)).value }
{
    match args {
        [a] => call_with_one(alloc, function, a),
        [a, b] => call_with_two(alloc, function, a, b),
        [a, b, c] => call_with_three(alloc, function, a, b, c),
        _ => Err(miscounted(function, args.len())),
    }
}

/// A call of `var_dump`.
#[tactic(auto, using(crate::proofs::Shown::shown))]
fn var_dump<O: Sink>(alloc: Global, args: &[Value], out: &mut O) -> Result<Value, HostStop>
    ensures replies { Replies result (php.var_dump (map value_of args.now)) (O.content out.old) (O.content out.new) }
    ensures never_falls { O.faults out.old ≤ O.faults out.new }
    ensures cause { result ≡ Err HostStop.WriteFault → HasRisen (O.faults out.old) (O.faults out.new) }
{
    if args.is_empty() {
        return Err(HostStop::from(miscounted(Builtin::VarDump, 0)));
    }
    match dump_all(alloc, args, out) {
        Ok(()) => Ok(Value::Null),
        Err(stop) => Err(stop),
    }
}

/// A call of a function with these arguments, which prints to `out`. How many arguments there are is tested first, then their
/// sorts from the left, then what is the function's own; each fatal error is that of the definition. `NoMemory` where there is
/// no memory, here or for the sink, and `WriteFault` only where the sink has counted a fault. `array_push` and `array_pop`
/// change an array in its place, and are a `Misuse` here.
pub fn call<O: Sink>(
    alloc: Global,
    function: Builtin,
    args: &[Value],
    out: &mut O,
) -> Result<Value, HostStop>
    ensures replies { Replies result (php.builtin_of function (map value_of args.now)) (O.content out.old) (O.content out.new) }
    ensures never_falls { O.faults out.old ≤ O.faults out.new }
    ensures cause { result ≡ Err HostStop.WriteFault → HasRisen (O.faults out.old) (O.faults out.new) }
{
    match function {
        Builtin::VarDump => var_dump(alloc, args, out),
        _ => match call_silently(alloc, function, args) {
            Ok(value) => Ok(value),
            Err(stop) => Err(HostStop::from(stop)),
        },
    }
}
