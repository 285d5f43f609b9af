//! `==` and `===`.
ghost use Rattle.std.specs.Prelude.{◌≡◌, OnOk, Ok, Err, true};
ghost use Rattle.hph_php.specs.Comparison as php;
ghost use Rattle.hph_php.specs.Conversions.{map_ok};
ghost use Rattle.hph_value.specs.Shown.{value_of, TellsBy};
ghost use Rattle.hph_value.specs.declared.value.Stop.TheVariants.{NoMemory};
ghost use Rattle.hph_equal.specs.Frames.{equal_by, is_array, left, Answers, Advances, Keeps};

use crate::apart::{array_in, equal_apart};
use crate::frame::{Equality, Facing, Frame};
use hph_php::Fatal;
use hph_value::{Stop, Value};
use std::alloc::{AllocError, Global};

/// What is known of two values before arrays are entered.
#[derive(Drop)]
enum Outcome<'a> {
    /// Whether they are equal.
    Known(bool),
    /// They are equal if these arrays, which have as many pairs, are.
    Inside(Frame<'a>),
}

/// How far a comparison has come.
#[derive(Drop)]
enum Progress<'a> {
    /// Whether the values are equal.
    Known(bool),
    /// These arrays are compared next.
    Going(Frame<'a>),
}

/// `==`. `Float` where PHP compares with a float, `ObjectCompare` for an object with anything but itself, null and bools. Values
/// that aren't both arrays take no memory, and arrays take it only where one is entered with pairs left behind it.
pub fn loose_eq(alloc: Global, x: &Value, y: &Value) -> Result<bool, Stop>
    ensures answer { TellsBy (λ equal. equal) result (php.loosely_equal (value_of x.now) (value_of y.now)) }
    ensures left { result ≡ Err NoMemory → is_array (value_of x.now) ≡ true }
    ensures right { result ≡ Err NoMemory → is_array (value_of y.now) ≡ true }
{
    equal(alloc, Equality::Loose, x, y)
}

/// `===`, which has no fatal errors. It takes memory as `==` does.
pub fn strict_eq(alloc: Global, x: &Value, y: &Value) -> Result<bool, Stop>
    ensures answer { TellsBy (λ equal. equal) result (Ok (php.identical (value_of x.now) (value_of y.now))) }
    ensures left { result ≡ Err NoMemory → is_array (value_of x.now) ≡ true }
    ensures right { result ≡ Err NoMemory → is_array (value_of y.now) ≡ true }
{
    equal(alloc, Equality::Strict, x, y)
}

/// Whether two values are equal.
fn equal(alloc: Global, equality: Equality, x: &Value, y: &Value) -> Result<bool, Stop>
    ensures answer { TellsBy (λ equal. equal) result (equal_by equality (value_of x.now) (value_of y.now)) }
    ensures left { result ≡ Err NoMemory → is_array (value_of x.now) ≡ true }
    ensures right { result ≡ Err NoMemory → is_array (value_of y.now) ≡ true }
{
    match compared(equality, x, y) {
        Err(fatal) => Err(Stop::Fatal(fatal)),
        Ok(Outcome::Known(answer)) => Ok(answer),
        Ok(Outcome::Inside(frame)) => arrays_equal(alloc, equality, frame),
    }
}

/// Two values, without a look into arrays.
fn compared<'a>(equality: Equality, x: &'a Value, y: &'a Value) -> Result<Outcome<'a>, Fatal>
    ensures { Answers equality result (value_of x.now) (value_of y.now) }
{
    let Some(pairs) = array_in(x) else {
        return known(equal_apart(equality, x, y));
    };
    let Some(others) = array_in(y) else {
        return known(equal_apart(equality, x, y));
    };
    if pairs.len() != others.len() {
        return Ok(Outcome::Known(false));
    }
    Ok(Outcome::Inside(Frame {
        x: pairs,
        y: others,
        at: 0,
    }))
}

/// An answer without a look into arrays.
fn known<'a>(answer: Result<bool, Fatal>) -> Result<Outcome<'a>, Fatal>
    ensures { result ≡ map_ok Outcome.Known answer }
{
    match answer {
        Ok(equal) => Ok(Outcome::Known(equal)),
        Err(fatal) => Err(fatal),
    }
}

/// Compares the pairs of two arrays from a place on. The arrays that are entered but have pairs left are on a list.
fn arrays_equal<'a>(alloc: Global, equality: Equality, first: Frame<'a>) -> Result<bool, Stop>
    ensures { TellsBy (λ equal. equal) result (left equality first.entry) }
{
    let mut frames = Vec::new(alloc);
    let mut top = first;
    'pairs: loop {
        match advance(equality, top, &mut frames) {
            Err(stop) => return Err(stop),
            Ok(Progress::Known(answer)) => return Ok(answer),
            Ok(Progress::Going(frame)) => top = frame,
        }
    }
}

/// Compares the next pair.
fn advance<'a>(
    equality: Equality,
    top: Frame<'a>,
    frames: &mut Vec<Frame<'a>>,
) -> Result<Progress<'a>, Stop>
    ensures { Advances equality result top.entry frames.old.items frames.new.items }
{
    match top.facing(equality) {
        Facing::Missing => Ok(Progress::Known(false)),
        Facing::End => match frames.pop() {
            Some(frame) => Ok(Progress::Going(frame)),
            None => Ok(Progress::Known(true)),
        },
        Facing::Values(x, y) => match compared(equality, x, y) {
            Err(fatal) => Err(Stop::Fatal(fatal)),
            Ok(Outcome::Known(false)) => Ok(Progress::Known(false)),
            Ok(Outcome::Known(true)) => Ok(Progress::Going(top.behind())),
            Ok(Outcome::Inside(inner)) => match keep(top.behind(), frames) {
                Ok(()) => Ok(Progress::Going(inner)),
                Err(_) => Err(Stop::NoMemory),
            },
        },
    }
}

/// Puts two arrays on the list if a pair of theirs is left.
fn keep<'a>(frame: Frame<'a>, frames: &mut Vec<Frame<'a>>) -> Result<(), AllocError>
    ensures { OnOk result (Keeps frame.entry frames.old.items frames.new.items) }
{
    if frame.is_done() {
        return Ok(());
    }
    frames.push(frame)?;
    Ok(())
}
