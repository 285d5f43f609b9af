use crate::steps::{Name, Sequence, Step, holds, take_steps};
use Name::{Int, Str};
use Step::{Append, AppendRefused, Pop, Set, Unset};
use hph_array::OrdMap;
use std::alloc::{AllocError, Global};
use std::test::Fail;

macro_rules! sequences {
    ($([$($step:expr),*] => [$($pair:expr),*], $next_key:expr;)*) => {
        [$(Sequence { steps: &[$($step),*], pairs: &[$($pair),*], next_key: $next_key }),*]
    };
}

// What PHP 8.2 makes of random steps.
static SEQUENCES: [Sequence; 30] = sequences! {
    [Set(Int(-3), 1), Append(2), Pop, Pop]
        => [], 0;
    [Append(1), Pop, Pop, Set(Int(3), 4)]
        => [(Int(3), 4)], 4;
    [Set(Str("k"), 1), Append(2), Unset(Str("k")), Pop]
        => [], 0;
    [Append(1), Set(Int(2), 2), Pop, Unset(Int(0))]
        => [], 2;
    [Append(1), Append(2), Unset(Int(0)), Set(Str("k"), 4)]
        => [(Int(1), 2), (Str("k"), 4)], 2;
    [Append(1), Append(2), Set(Int(2), 3), Append(4)]
        => [(Int(0), 1), (Int(1), 2), (Int(2), 3), (Int(3), 4)], 4;
    [Append(1), Set(Str("k"), 2), Set(Int(-3), 3), Pop, Append(5)]
        => [(Int(0), 1), (Str("k"), 2), (Int(1), 5)], 2;
    [Append(1), Set(Int(0), 2), Append(3), Unset(Int(5)), Unset(Int(1))]
        => [(Int(0), 2)], 2;
    [Set(Int(1), 1), Pop, Pop, Set(Int(2), 4), Set(Int(-3), 5)]
        => [(Int(2), 4), (Int(-3), 5)], 3;
    [Unset(Int(0)), Unset(Int(-3)), Append(3), Set(Str("b"), 4), Unset(Int(0))]
        => [(Str("b"), 4)], 1;
    [Append(1), Pop, Set(Str("b"), 3), Set(Str("k"), 4), Set(Int(5), 5)]
        => [(Str("b"), 3), (Str("k"), 4), (Int(5), 5)], 6;
    [Set(Str("k"), 1), Append(2), Append(3), Set(Int(0), 4), Set(Str("k"), 5)]
        => [(Str("k"), 5), (Int(0), 4), (Int(1), 3)], 2;
    [Unset(Int(2)), Set(Int(5), 2), Pop, Pop, Append(5), Unset(Str("b"))]
        => [(Int(5), 5)], 6;
    [Set(Str("a"), 1), Set(Int(5), 2), Append(3), Unset(Str("a")), Unset(Int(6)), Append(6)]
        => [(Int(5), 2), (Int(7), 6)], 8;
    [Set(Str("b"), 1), Append(2), Set(Int(-7), 3), Pop, Set(Int(-3), 5), Set(Int(-7), 6)]
        => [(Str("b"), 1), (Int(0), 2), (Int(-3), 5), (Int(-7), 6)], 1;
    [Pop, Set(Int(8), 2), Pop, Unset(Int(-3)), Append(5), Set(Int(8), 6)]
        => [(Int(8), 6)], 9;
    [Pop, Unset(Str("a")), Set(Str("k"), 3), Pop, Set(Int(1), 5), Set(Str(""), 6)]
        => [(Int(1), 5), (Str(""), 6)], 2;
    [Append(1), Pop, Append(3), Unset(Int(0)), Set(Str("b"), 5), Unset(Str("b"))]
        => [], 1;
    [Pop, Set(Int(5), 2), Set(Int(-3), 3), Set(Str(""), 4), Unset(Int(5)), Pop, Pop]
        => [], 6;
    [Append(1), Pop, Unset(Int(1)), Append(4), Set(Int(8), 5), Unset(Int(5)), Unset(Int(8))]
        => [(Int(0), 4)], 9;
    [Set(Int(3), 1), Set(Str("a"), 2), Append(3), Pop, Pop, Append(6), Pop]
        => [(Int(3), 1)], 4;
    [Unset(Str("b")), Append(2), Append(3), Unset(Int(0)), Set(Str("k"), 5), Pop, Unset(Int(1))]
        => [], 2;
    [Pop, Append(2), Set(Str(""), 3), Unset(Int(2)), Set(Int(3), 5), Set(Int(-7), 6), Unset(Int(3))]
        => [(Int(0), 2), (Str(""), 3), (Int(-7), 6)], 4;
    [Append(1), Set(Int(5), 2), Append(3), Append(4), Append(5), Append(6), Pop]
        => [(Int(0), 1), (Int(5), 2), (Int(6), 3), (Int(7), 4), (Int(8), 5)], 9;
    [Set(Str("k"), 1), Set(Int(1), 2), Unset(Int(3)), Set(Int(3), 4), Unset(Int(3)), Append(6),
        Append(7), Append(8)]
        => [(Str("k"), 1), (Int(1), 2), (Int(4), 6), (Int(5), 7), (Int(6), 8)], 7;
    [Append(1), Pop, Append(3), Append(4), Unset(Int(-7)), Append(6), Pop, Append(8)]
        => [(Int(0), 3), (Int(1), 4), (Int(2), 8)], 3;
    [Set(Int(i64::MAX), 1), Pop, Append(3), Set(Int(8), 4), AppendRefused, Pop,
        AppendRefused, AppendRefused]
        => [(Int(i64::MAX), 3)], 1 << 63;
    [Set(Str(""), 1), Set(Int(9223372036854775806), 2), Append(3), Pop, Append(5),
        Unset(Str("")), Set(Str("a"), 7), Set(Int(5), 8)]
        => [(Int(9223372036854775806), 2), (Int(i64::MAX), 5), (Str("a"), 7), (Int(5), 8)], 1 << 63;
    [Append(1), Append(2), Set(Int(i64::MAX), 3), Pop, Set(Int(8), 5), Append(6),
        AppendRefused, Set(Str("a"), 8)]
        => [(Int(0), 1), (Int(1), 2), (Int(8), 5), (Int(i64::MAX), 6), (Str("a"), 8)], 1 << 63;
    [Append(1), Unset(Int(0)), Pop, Set(Int(9223372036854775806), 4), Append(5),
        AppendRefused, Set(Int(5), 8), AppendRefused]
        => [(Int(9223372036854775806), 4), (Int(i64::MAX), 5), (Int(5), 8)], 1 << 63;
};

// What PHP 8.2 makes of lists, and of what ends or doesn't end the form without an index: a gap, a key below the last, a negative
// key, a string, the last pair removed, one in the middle removed, and all removed.
static FORMS: [Sequence; 10] = sequences! {
    [Append(1), Append(2), Append(3)]
        => [(Int(0), 1), (Int(1), 2), (Int(2), 3)], 3;
    [Append(1), Set(Int(1), 2), Set(Int(2), 3), Set(Int(0), 4), Append(5)]
        => [(Int(0), 4), (Int(1), 2), (Int(2), 3), (Int(3), 5)], 4;
    [Append(1), Append(2), Append(3), Pop, Append(4), Pop, Pop, Pop, Pop, Append(5)]
        => [(Int(0), 5)], 1;
    [Append(1), Append(2), Set(Int(5), 3), Append(4), Set(Int(3), 5), Unset(Int(5)), Append(6)]
        => [(Int(0), 1), (Int(1), 2), (Int(6), 4), (Int(3), 5), (Int(7), 6)], 8;
    [Set(Int(4), 1), Set(Int(9), 2), Set(Int(2), 3), Set(Int(9), 4), Append(5)]
        => [(Int(4), 1), (Int(9), 4), (Int(2), 3), (Int(10), 5)], 11;
    [Append(1), Append(2), Set(Int(-1), 3), Append(4), Unset(Int(0)), Set(Int(0), 5)]
        => [(Int(1), 2), (Int(-1), 3), (Int(2), 4), (Int(0), 5)], 3;
    [Append(1), Append(2), Set(Str("k"), 3), Append(4), Unset(Int(1)), Set(Int(1), 5), Pop]
        => [(Int(0), 1), (Str("k"), 3), (Int(2), 4)], 3;
    [Append(1), Append(2), Append(3), Append(4), Unset(Int(1)), Append(5), Set(Int(1), 6),
        Unset(Int(3)), Append(7)]
        => [(Int(0), 1), (Int(2), 3), (Int(4), 5), (Int(1), 6), (Int(5), 7)], 6;
    [Append(1), Append(2), Append(3), Append(4), Append(5), Unset(Int(0)), Unset(Int(2)),
        Set(Int(3), 6), Set(Int(4), 7), Unset(Int(2)), Pop, Append(8)]
        => [(Int(1), 2), (Int(3), 6), (Int(4), 8)], 5;
    [Append(1), Set(Str("k"), 2), Unset(Str("k")), Unset(Int(0)), Append(3), Append(4),
        Set(Int(2), 5)]
        => [(Int(1), 3), (Int(2), 5)], 3;
};

// By the rule that the next key is above each int key ever used, where PHP lets an append take a removed key again; and by the
// rule that a string is no int, where PHP has read "0" as an int before.
static RULED: [Sequence; 4] = sequences! {
    [Append(1), Append(2), Append(3), Unset(Int(2)), Append(4), Unset(Int(3)), Set(Int(2), 5)]
        => [(Int(0), 1), (Int(1), 2), (Int(2), 5)], 4;
    [Append(1), Append(2), Unset(Int(0)), Unset(Int(1)), Set(Int(0), 3), Append(4), Unset(Int(2)),
        Set(Int(1), 5)]
        => [(Int(0), 3), (Int(1), 5)], 3;
    [Append(1), Set(Str("0"), 2), Append(3), Set(Int(0), 4)]
        => [(Int(0), 4), (Str("0"), 2), (Int(1), 3)], 2;
    [Set(Int(i64::MAX), 1), AppendRefused, Unset(Int(i64::MAX)), AppendRefused]
        => [], 1 << 63;
};

// Whether a sequence's steps are answered as they should be, and leave its array.
fn is_so(alloc: Global, sequence: &Sequence) -> Result<bool, AllocError> {
    let mut map = OrdMap::new(alloc);
    let answered = take_steps(alloc, &mut map, sequence.steps)?;
    Ok(answered && holds(&map, sequence.pairs, sequence.next_key))
}

// The place of the first sequence that isn't so.
fn first_other(alloc: Global, sequences: &[Sequence]) -> Result<Option<usize>, AllocError> {
    for (place, sequence) in sequences.iter().enumerate() {
        if !is_so(alloc, sequence)? {
            return Ok(Some(place));
        }
    }
    Ok(None)
}

#[test]
fn orders_pairs_and_keeps_the_next_key_as_php_does(rt: HostRuntime) -> Result<(), Fail> {
    let other = first_other(rt.alloc(), &SEQUENCES)?;
    assert!(rt; other == None, "sequence {other:?}");
    Ok(())
}

#[test]
fn keeps_pairs_where_a_list_gets_an_index_or_keeps_none(rt: HostRuntime) -> Result<(), Fail> {
    let other = first_other(rt.alloc(), &FORMS)?;
    assert!(rt; other == None, "sequence {other:?}");
    Ok(())
}

#[test]
fn keeps_the_next_key_above_each_int_key_ever_used(rt: HostRuntime) -> Result<(), Fail> {
    let other = first_other(rt.alloc(), &RULED)?;
    assert!(rt; other == None, "sequence {other:?}");
    Ok(())
}
