//! What a run has at hand between two reductions, without the host.
ghost use Rattle.std.specs.Prelude.{◌≡◌, ◌^◌, true, [], ◌∷◌, ◌++◌, length, map, take, drop, reverse, slice_get, ◌<◌, option_to_list, ◌≤◌, MatchOption, OnOk, IfOk};
ghost use Rattle.hph_wasm.specs.Values.{number_of, type_of, width};
ghost use Rattle.hph_wasm.specs.HostAnswers.{FitParams};
ghost use Rattle.hph_wstate.specs.Core.{label_around, continuation_of, code_behind, Counts};
ghost use Rattle.hph_wstate.specs.Changes.{Outside, Skipped, Left, TellsLabel, LabelIs, TellsFrame, FunctionIs, Entered, LocalSet, GlobalSet, MemoryStored, KindFits, AllFit, Holds, Kept};

use crate::layers as layer;
use crate::locals::FrameLocals;
use hph_integers::{Access, store};
use hph_pile::Pile;
use hph_wasm::{Func, Instr, ValType, Value};
use sqlite_items::{Items, at};
use std::alloc::{AllocError, Global};
use std::mem;

/// The instructions that are next; the values, of which so many are those of the innermost block; the blocks that were entered, of
/// which so many are those of the function that runs; its locals; the functions that wait; and the
/// memory and the globals.
#[derive(Drop)]
pub struct Machine<'m> {
    code: &'m [Instr],
    values: Pile<Value>,
    own: usize,
    entered: Pile<layer::Entered<'m>>,
    own_entered: usize,
    locals: FrameLocals<'m>,
    callers: Pile<layer::Caller<'m>>,
    memory: Vec<u8>,
    globals: Items<Value>,
    ghost counted: { Counts values own entered own_entered callers },
}

/// The instructions behind the first one.
fn behind<'m>(here: &'m [Instr]) -> &'m [Instr]
    ensures { result.now ≡ drop 1 here.now }
{
    match here {
        [] => here,
        [_, rest @ ..] => rest,
    }
}

/// What a branch goes on with.
#[tactic(auto, using(crate::proofs::Standing::loop_again))]
fn target<'m>(side: layer::Side, here: &'m [Instr]) -> &'m [Instr]
    ensures { result.now ≡ continuation_of side here.now ++ drop 1 here.now }
{
    match side {
        layer::Side::Loop => here,
        layer::Side::Block | layer::Side::Then | layer::Side::Else => behind(here),
    }
}

/// What is gone on with outside of a label, or at a branch to it.
fn way_on<'m>(label: layer::Entered<'m>, again: bool) -> &'m [Instr]
    ensures { result.now ≡ code_behind again label.entry.side label.entry.here.now }
{
    if again {
        target(label.side, label.here)
    } else {
        behind(label.here)
    }
}

/// The type of a value.
fn kind_of(value: Value) -> ValType
    ensures { result ≡ type_of value }
{
    match value {
        Value::I32(_) => ValType::I32,
        Value::I64(_) => ValType::I64,
    }
}

/// The number of a value.
fn number_of(value: Value) -> u64
    ensures number { result ≡ number_of value }
    ensures fits { result < 2 ^ width (type_of value) }
{
    match value {
        Value::I32(n) => u64::from(n),
        Value::I64(n) => n,
    }
}

/// Whether the value at a place from the top on is of the type at that place from the last one on.
#[tactic(auto, using(hph_pile::proofs::Turned::element_turned))]
fn fits_at(values: &Pile<Value>, params: &[ValType], k: usize) -> bool
    requires { k < length params.now }
    ensures { KindFits values.now (reverse params.now) k result }
{
    match values.at(k) {
        None => false,
        Some(value) => match at(params, params.len() - 1 - k) {
            None => false,
            Some(ty) => kind_of(*value) == *ty,
        },
    }
}

/// Whether so many values on top are of these types, the last one's topmost.
fn all_fit(values: &Pile<Value>, params: &[ValType]) -> bool
    ensures { AllFit params.now values.now result }
{
    for k in 0..params.len() {
        if !fits_at(values, params, k) {
            return false;
        }
    }
    true
}

impl<'m> Machine<'m> {
    ghost use Rattle.hph_wstate.specs.Machine.{core};

    /// A machine outside of all functions, with a memory and globals.
    pub fn new(alloc: Global, memory: Vec<u8>, globals: Items<Value>) -> Machine<'m>
        ensures { core result ≡ record {
          code = [];
          values = [];
          locals = [];
          labels = [];
          frames = [];
          memory = memory.items;
          globals = globals;
        } }
    {
        Machine {
            code: &[],
            values: Pile::new(alloc),
            own: 0,
            entered: Pile::new(alloc),
            own_entered: 0,
            locals: FrameLocals::none(alloc),
            callers: Pile::new(alloc),
            memory,
            globals,
        }
    }

    /// The instructions that are next.
    pub fn code(&self) -> &'m [Instr]
        ensures { result.now ≡ (core self.now).code }
    {
        self.code
    }

    /// Goes on with these instructions.
    pub fn go_on(&mut self, code: &'m [Instr])
        ensures { (core self.new) ≡ record (core self.old) { code = code.now } }
    {
        self.code = code;
    }

    /// The value of a local.
    pub fn local(&self, x: u32) -> Option<Value>
        ensures { result ≡ slice_get (core self.now).locals x }
    {
        self.locals.get(x)
    }

    /// The value on top, which stays.
    #[tactic(auto, using(crate::proofs::Standing::top_seen, crate::proofs::Standing::no_top))]
    pub fn top(&self) -> Option<Value>
        ensures { result ≡ slice_get (core self.now).values 0 }
    {
        if self.own == 0 {
            return None;
        }
        match self.values.at(0) {
            None => None,
            Some(value) => Some(*value),
        }
    }

    /// The value on top, which is taken.
    #[tactic(auto, using(crate::proofs::Standing::value_taken, crate::proofs::Standing::none_taken, crate::proofs::Standing::counts_taken))]
    pub fn pop(&mut self) -> Option<Value>
        ensures { MatchOption result (((core self.old).values ≡ []) × ((core self.new) ≡ (core self.old))) (λ v. (core self.old) ≡ record (core self.new) { values = v ∷ (core self.new).values }) }
    {
        if self.own == 0 {
            return None;
        }
        match self.values.pop() {
            None => None,
            Some(value) => {
                self.own -= 1;
                Some(value)
            }
        }
    }

    /// Puts a value on top.
    #[tactic(auto, using(crate::proofs::Standing::value_given, crate::proofs::Standing::counts_given))]
    pub fn push(&mut self, value: Value) -> Result<(), AllocError>
        ensures { OnOk result ((core self.new) ≡ record (core self.old) { values = value ∷ (core self.old).values }) }
    {
        self.values.push(value)?;
        let _held = self.values.len();
        self.own += 1;
        Ok(())
    }

    /// Enters a block, which stands first here, at the instructions inside.
    #[tactic(auto, using(crate::proofs::Standing::block_entered, crate::proofs::Standing::counts_entered))]
    pub fn enter_block(
        &mut self,
        here: &'m [Instr],
        side: layer::Side,
        gives: bool,
        body: &'m [Instr],
    ) -> Result<(), AllocError>
        ensures { OnOk result ((core self.new) ≡ record (core self.old) {
          code = body.now;
          values = [];
          labels = label_around side gives here.now (core self.old).values ∷ (core self.old).labels;
        }) }
    {
        let label = layer::Entered {
            here,
            side,
            gives,
            saved: self.own,
        };
        self.entered.push(label)?;
        let _held = self.entered.len();
        self.own_entered += 1;
        self.own = 0;
        self.code = body;
        Ok(())
    }

    /// How many labels the function that runs has.
    #[tactic(auto, using(crate::proofs::Standing::labels_counted))]
    pub fn label_count(&self) -> usize
        ensures { result ≡ length (core self.now).labels }
    {
        let _held = self.entered.len();
        self.own_entered
    }

    /// How many values the innermost block has.
    #[tactic(auto, using(crate::proofs::Standing::values_counted))]
    pub fn value_count(&self) -> usize
        ensures { result ≡ length (core self.now).values }
    {
        let _held = self.values.len();
        self.own
    }

    /// Whether a branch to the label takes a value.
    #[tactic(auto)]
    pub fn label_gives(&self, k: usize) -> Option<bool>
        ensures { TellsLabel (core self.now).labels k result }
    {
        if k < self.own_entered {
            match self.entered.at(k) {
                Some(label) => Some(label.gives),
                None => None,
            }
        } else {
            None
        }
    }

    /// A label of the function that runs, by its number from the innermost outwards.
    #[tactic(auto)]
    pub fn label(&self, k: usize) -> Option<layer::Entered<'m>>
        ensures { LabelIs (core self.now).labels k result }
    {
        if k < self.own_entered {
            match self.entered.at(k) {
                Some(label) => Some(*label),
                None => None,
            }
        } else {
            None
        }
    }

    /// The number of the function that runs.
    pub fn function(&self) -> Option<u32>
        ensures { FunctionIs (core self.now).frames result }
    {
        match self.callers.at(0) {
            Some(caller) => Some(caller.function),
            None => None,
        }
    }

    /// Whether the function that runs gives a value.
    #[tactic(auto)]
    pub fn frame_gives(&self) -> Option<bool>
        ensures { TellsFrame (core self.now).frames result }
    {
        match self.callers.at(0) {
            Some(caller) => Some(caller.gives),
            None => None,
        }
    }

    /// Leaves the innermost block, to what is behind it or, at a branch, to where that goes.
    #[tactic(auto, using(crate::proofs::Standing::block_left, crate::proofs::Standing::counts_left))]
    pub fn go_outside(&mut self, again: bool) -> bool
        ensures { Outside (core self.old) again result (core self.new) }
    {
        if self.own_entered == 0 {
            return false;
        }
        match self.entered.pop() {
            None => false,
            Some(label) => {
                let _held = self.values.len();
                self.own += label.saved;
                self.own_entered -= 1;
                self.code = way_on(label, again);
                true
            }
        }
    }

    /// Takes the innermost label away with the values inside.
    #[tactic(auto, using(crate::proofs::Standing::block_skipped, crate::proofs::Standing::counts_skipped))]
    pub fn skip_label(&mut self) -> bool
        ensures { Skipped (core self.old) result (core self.new) }
    {
        if self.own_entered == 0 {
            return false;
        }
        match self.entered.pop() {
            None => false,
            Some(label) => {
                let _held = self.values.len();
                self.values.discard(self.own + label.saved);
                self.own = 0;
                self.own_entered -= 1;
                true
            }
        }
    }

    /// Takes the values of the innermost block away.
    pub fn forget(&mut self)
        ensures { (core self.new) ≡ record (core self.old) { values = [] } }
    {
        self.values.discard(self.own);
        self.own = 0;
    }

    /// Leaves the function that runs, of which no label is left, for the one that waits.
    #[tactic(auto, using(crate::proofs::Standing::function_left, crate::proofs::Standing::counts_returned))]
    pub fn leave(&mut self) -> bool
        requires { (core self.old).labels ≡ [] }
        ensures { Left (core self.old) result (core self.new) }
    {
        match self.callers.pop() {
            None => false,
            Some(caller) => {
                let _held = self.values.len();
                self.own += caller.saved;
                self.own_entered = caller.entered;
                self.code = caller.rest;
                let _left = mem::replace(&mut self.locals, caller.locals);
                true
            }
        }
    }

    /// Whether there are arguments for parameters of these types.
    pub fn holds(&self, params: &[ValType]) -> bool
        ensures { Holds params.now (core self.now).values result }
    {
        if self.own < params.len() {
            false
        } else {
            all_fit(&self.values, params)
        }
    }

    /// Enters a function on so many of the values; false where there are too few.
    #[tactic(auto, using(crate::proofs::Standing::function_entered, crate::proofs::Standing::counts_called))]
    pub fn call(
        &mut self,
        alloc: Global,
        function: u32,
        gives: bool,
        params: usize,
        func: &'m Func,
    ) -> Result<bool, AllocError>
        ensures { IfOk result (λ entered. Entered function gives params func.now (core self.old) entered (core self.new)) }
    {
        if self.own < params {
            return Ok(false);
        }
        let passed = self.values.topmost(alloc, params)?;
        let locals = FrameLocals::of_call(alloc, passed, &func.locals)?;
        let caller = layer::Caller {
            function,
            gives,
            saved: self.own - params,
            entered: self.own_entered,
            rest: self.code,
            locals: mem::replace(&mut self.locals, locals),
        };
        self.callers.push(caller)?;
        self.values.discard(params);
        self.own = 0;
        self.own_entered = 0;
        self.code = func.body.as_slice();
        Ok(true)
    }

    /// Writes a local; false where there is none.
    pub fn set_local(&mut self, x: u32, value: Value) -> Result<bool, AllocError>
        ensures { IfOk result (λ there. LocalSet x value (core self.old) there (core self.new)) }
    {
        self.locals.set(x, value)
    }

    /// The value of a global.
    pub fn global(&self, x: u32) -> Option<Value>
        ensures { result ≡ slice_get (core self.now).globals x }
    {
        at(self.globals.as_slice(), x as usize).copied()
    }

    /// Writes a global; false where there is none.
    pub fn set_global(&mut self, x: u32, value: Value) -> bool
        ensures { GlobalSet x value (core self.old) result (core self.new) }
    {
        let place = x as usize;
        if place < self.globals.len() {
            self.globals.set(place, value);
            true
        } else {
            false
        }
    }

    /// The memory.
    pub fn memory(&self) -> &[u8]
        ensures { result.now ≡ (core self.now).memory }
    {
        self.memory.as_slice()
    }

    /// Stores the lowest bytes of a number; false where there is no room.
    pub fn store(&mut self, access: Access, address: u64, n: u64) -> bool
        ensures { MemoryStored access address n (core self.old) result (core self.new) }
    {
        store(&mut self.memory, access, address, n)
    }

    /// Takes away the values of the innermost block, but keeps the one on top where that is asked for; none where it isn't there.
    #[tactic(auto, using(crate::proofs::Standing::one_kept))]
    pub fn keep(&mut self, gives: bool) -> Option<Option<Value>>
        ensures { Kept gives (core self.old) result (core self.new) }
    {
        if gives {
            match self.pop() {
                None => None,
                Some(value) => {
                    self.forget();
                    Some(Some(value))
                }
            }
        } else {
            self.forget();
            Some(None)
        }
    }

    /// Puts back what was kept.
    pub fn put(&mut self, kept: Option<Value>) -> Result<(), AllocError>
        ensures { OnOk result (core self.new ≡ record (core self.old) { values = option_to_list kept ++ (core self.old).values }) }
    {
        match kept {
            None => Ok(()),
            Some(value) => self.push(value),
        }
    }

    /// Takes so many labels away, where no values are left.
    pub fn skip(&mut self, count: usize)
        requires empty { (core self.old).values ≡ [] }
        requires there { count ≤ length (core self.old).labels }
        ensures { core self.new ≡ record (core self.old) { labels = drop count (core self.old).labels } }
    {
        for _k in 0..count {
            self.skip_label();
        }
    }

    /// Takes so many values away.
    #[tactic(auto, using(crate::proofs::Standing::values_dropped, crate::proofs::Standing::counts_dropped))]
    pub fn discard(&mut self, count: usize)
        requires { count ≤ length (core self.old).values }
        ensures { core self.new ≡ record (core self.old) { values = drop count (core self.old).values } }
    {
        self.values.discard(count);
        self.own -= count;
    }

    /// Copies the numbers of the arguments for these parameters, the first one first.
    pub fn copy_numbers(&self, params: &[ValType], numbers: &mut Vec<u64>) -> Result<(), AllocError>
        requires { Holds params.now (core self.now).values true }
        ensures numbers { OnOk result (numbers.new.items ≡ map number_of (reverse (take (length params.now) (core self.now).values))) }
        ensures fit { OnOk result (FitParams params.now numbers.new.items) }
    {
        numbers.clear();
        let count = params.len();
        for k in 0..count {
            match self.values.at(count - 1 - k) {
                Some(value) => numbers.push(number_of(*value))?,
                None => return Err(AllocError),
            }
        }
        Ok(())
    }
}
