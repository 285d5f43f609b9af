//! The stack of kinds (Core Specification 1.0, appendix A.3).
ghost use Rattle.std.specs.Prelude.{◌≡◌, ◌∷◌, IfOk, OnOk, None, Some};
ghost use Rattle.hph_wasm.specs.declared.types.ValType.TheVariants.{I32};
ghost use Rattle.hph_wasm.specs.Choice.{if_some};
ghost use Rattle.hph_wvalid.specs.Checking.{nothing, anything, is_nil, popped, pop, pops, push_all, ends, drop_of, select_of, selected_of};

use hph_wasm::ValType;
use std::alloc::{AllocError, Global};
use std::marker::Model;

/// What is known of a value on the stack: its type, or nothing in code that is never reached.
#[derive(Clone, Copy, PartialEq, Eq, Debug)]
pub enum Kind {
    Known(ValType),
    Any,
}

/// The kinds of the values of a block. Behind an instruction that never goes on there is anything below them. Contracts see the
/// last one first.
#[derive(Drop)]
pub struct Stack {
    kinds: Vec<Kind>,
    free: bool,
}

impl Model for Stack {
    ghost use Rattle.std.specs.Prelude.{reverse};
    ghost use Rattle.hph_wvalid.specs.Stacks as seen;

    ghost Value = { seen.Stack };

    ghost view = { λ s. record { kinds = reverse s.kinds.items; free = s.free } };
}

impl Stack {
    /// No values.
    pub fn new(alloc: Global) -> Stack
        ensures { result ≡ nothing }
    {
        Stack {
            kinds: Vec::new(alloc),
            free: false,
        }
    }

    /// Whether there are no values whose kinds are known.
    #[tactic(auto, using(crate::proofs::Turned::none_turned))]
    pub fn is_empty(&self) -> bool
        ensures { result ≡ is_nil self.now.kinds }
    {
        self.kinds.is_empty()
    }

    /// Whether there is anything below the values.
    pub fn is_free(&self) -> bool
        ensures { result ≡ self.now.free }
    {
        self.free
    }

    /// The kind of the last value, which is taken.
    fn pop(&mut self) -> Option<Kind>
        ensures last { popped self.old.kinds ≡ (result, self.new.kinds) }
        ensures free { self.new.free ≡ self.old.free }
    {
        self.kinds.pop()
    }

    /// Gives a value of the kind.
    #[tactic(auto, using(crate::proofs::Turned::more_turned))]
    pub fn push(&mut self, kind: Kind) -> Result<(), AllocError>
        ensures { OnOk result (self.new ≡ record { kinds = kind ∷ self.old.kinds; free = self.old.free }) }
    {
        self.kinds.push(kind)?;
        Ok(())
    }

    /// What is behind an instruction that never goes on: anything.
    pub fn forget(&mut self)
        ensures { self.new ≡ anything }
    {
        self.kinds.clear();
        self.free = true;
    }
}

/// Takes a value of the type; none where there is none on top.
pub fn pop_type(ty: ValType, mut stack: Stack) -> Option<Stack>
    ensures { result ≡ pop ty stack }
{
    match stack.pop() {
        None if stack.is_free() => Some(stack),
        None => None,
        Some(Kind::Any) => Some(stack),
        Some(Kind::Known(other)) if ty == other => Some(stack),
        Some(Kind::Known(_)) => None,
    }
}

/// Takes values of the types, from the top on.
pub fn pop_all(types: &[ValType], stack: Stack) -> Option<Stack>
    ensures { result ≡ pops types.now stack }
{
    let mut stack = stack;
    for ty in types {
        stack = pop_type(*ty, stack)?;
    }
    Some(stack)
}

/// Gives values of the types, the first one on top.
pub fn push_each(types: &[ValType], stack: Stack) -> Result<Stack, AllocError>
    ensures { IfOk result (λ s. s ≡ push_all types.now stack) }
{
    match types {
        [] => Ok(stack),
        [first, rest @ ..] => {
            let mut stack = push_each(rest, stack)?;
            stack.push(Kind::Known(*first))?;
            Ok(stack)
        }
    }
}

/// Whether just values of these types can be there.
pub fn ends_with(types: &[ValType], stack: Stack) -> bool
    ensures { result ≡ ends types.now stack }
{
    match pop_all(types, stack) {
        None => false,
        Some(stack) => stack.is_empty(),
    }
}

/// Takes a value of any type.
pub fn pop_any(mut stack: Stack) -> Option<Stack>
    ensures { result ≡ drop_of stack.kinds stack.free }
{
    match stack.pop() {
        None if stack.is_free() => Some(stack),
        None => None,
        Some(_) => Some(stack),
    }
}

/// The stack behind a `select`: an i32 and two values of one type are taken, and one of that type is given.
pub fn pop_choice(stack: Stack) -> Result<Option<Stack>, AllocError>
    ensures { IfOk result (λ s. s ≡ if_some (pop I32 stack) None (λ rest. select_of rest.kinds rest.free)) }
{
    match pop_type(ValType::I32, stack) {
        None => Ok(None),
        Some(rest) => merge_two(rest),
    }
}

/// Takes two values of one type, and gives one of that type.
fn merge_two(mut stack: Stack) -> Result<Option<Stack>, AllocError>
    ensures { IfOk result (λ s. s ≡ select_of stack.kinds stack.free) }
{
    match stack.pop() {
        None if stack.is_free() => give(Kind::Any, stack),
        None => Ok(None),
        Some(first) => merge_with(first, stack),
    }
}

/// Takes a value whose type can be that of the kind, and gives one of both.
fn merge_with(first: Kind, mut stack: Stack) -> Result<Option<Stack>, AllocError>
    ensures { IfOk result (λ s. s ≡ selected_of first stack.kinds stack.free) }
{
    match stack.pop() {
        None if stack.is_free() => give(first, stack),
        None => Ok(None),
        Some(second) => match first {
            Kind::Any => give(second, stack),
            Kind::Known(ty) => match second {
                Kind::Known(other) if ty != other => Ok(None),
                _ => give(first, stack),
            },
        },
    }
}

/// Gives a value of the kind.
fn give(kind: Kind, mut stack: Stack) -> Result<Option<Stack>, AllocError>
    ensures { IfOk result (λ s. s ≡ Some (record { kinds = kind ∷ stack.kinds; free = stack.free })) }
{
    stack.push(kind)?;
    Ok(Some(stack))
}
