//! Expressions, and the trees that they spell.

use crate::printer::print;
use hph_ast::{Expr, Token};
use hph_cursor::ParseFault;
use hph_lex::tokens;
use hph_pexpr::expr;
use std::alloc::Global;
use std::process::Abort;
use std::test::Fail;

// A source, and its tree with each operator in parentheses of its own. PHP 8.2 reads both to one tree: the texts that it makes
// of them for the message of an `assert` are equal.

/// Two operators of neighbouring levels, from the tightest on, each on either side of the other.
static LEVELS: [(&str, &str); 46] = [
    ("-$a ** $b", "(-($a ** $b))"),
    ("$a ** -$b", "($a ** (-$b))"),
    ("-2 ** 2", "(-(2 ** 2))"),
    ("-$a instanceof B", "((-$a) instanceof B)"),
    ("@$a instanceof B", "((@$a) instanceof B)"),
    ("!$a instanceof B", "(!($a instanceof B))"),
    ("!$a * $b", "((!$a) * $b)"),
    ("$a * !$b", "($a * (!$b))"),
    ("$a + $b * $c", "($a + ($b * $c))"),
    ("$a * $b + $c", "(($a * $b) + $c)"),
    ("$a << $b + $c", "($a << ($b + $c))"),
    ("$a + $b << $c", "(($a + $b) << $c)"),
    ("$a . $b << $c", "($a . ($b << $c))"),
    ("$a << $b . $c", "(($a << $b) . $c)"),
    ("$a < $b . $c", "($a < ($b . $c))"),
    ("$a . $b < $c", "(($a . $b) < $c)"),
    ("$a == $b < $c", "($a == ($b < $c))"),
    ("$a < $b == $c", "(($a < $b) == $c)"),
    ("$a & $b == $c", "($a & ($b == $c))"),
    ("$a == $b & $c", "(($a == $b) & $c)"),
    ("$a ^ $b & $c", "($a ^ ($b & $c))"),
    ("$a & $b ^ $c", "(($a & $b) ^ $c)"),
    ("$a | $b ^ $c", "($a | ($b ^ $c))"),
    ("$a ^ $b | $c", "(($a ^ $b) | $c)"),
    ("$a && $b | $c", "($a && ($b | $c))"),
    ("$a | $b && $c", "(($a | $b) && $c)"),
    ("$a || $b && $c", "($a || ($b && $c))"),
    ("$a && $b || $c", "(($a && $b) || $c)"),
    ("$a ?? $b || $c", "($a ?? ($b || $c))"),
    ("$a || $b ?? $c", "(($a || $b) ?? $c)"),
    ("$a ?? $b ? $c : $d", "(($a ?? $b) ? $c : $d)"),
    ("$a ? $b : $c ?? $d", "($a ? $b : ($c ?? $d))"),
    ("$a ?: $b ?? $c", "($a ?: ($b ?? $c))"),
    ("$a = $b ? $c : $d", "($a = ($b ? $c : $d))"),
    ("$a ? $b : $c = $d", "($a ? $b : ($c = $d))"),
    ("print $a = $b", "(print ($a = $b))"),
    ("$a = print $b", "($a = (print $b))"),
    ("print $a and $b", "((print $a) and $b)"),
    ("$a and print $b", "($a and (print $b))"),
    ("$a and $b = $c", "($a and ($b = $c))"),
    ("$a xor $b and $c", "($a xor ($b and $c))"),
    ("$a and $b xor $c", "(($a and $b) xor $c)"),
    ("$a or $b xor $c", "($a or ($b xor $c))"),
    ("$a xor $b or $c", "(($a xor $b) or $c)"),
    ("include 'a' or $b", "(include ('a' or $b))"),
    ("$a or include 'b'", "($a or (include 'b'))"),
];

/// Operators of one level.
static GROUPS: [(&str, &str); 24] = [
    ("$a ** $b ** $c", "($a ** ($b ** $c))"),
    (
        "$a instanceof B instanceof C",
        "(($a instanceof B) instanceof C)",
    ),
    ("$a * $b / $c % $d", "((($a * $b) / $c) % $d)"),
    ("$a - $b + $c - $d", "((($a - $b) + $c) - $d)"),
    ("$a << $b >> $c", "(($a << $b) >> $c)"),
    ("$a . $b . $c", "(($a . $b) . $c)"),
    ("$a < $b", "($a < $b)"),
    ("$a <= $b", "($a <= $b)"),
    ("$a > $b", "($a > $b)"),
    ("$a >= $b", "($a >= $b)"),
    ("$a != $b", "($a != $b)"),
    ("$a === $b", "($a === $b)"),
    ("$a !== $b", "($a !== $b)"),
    ("$a <=> $b", "($a <=> $b)"),
    ("$a & $b & $c", "(($a & $b) & $c)"),
    ("$a ^ $b ^ $c", "(($a ^ $b) ^ $c)"),
    ("$a | $b | $c", "(($a | $b) | $c)"),
    ("$a && $b && $c", "(($a && $b) && $c)"),
    ("$a || $b || $c", "(($a || $b) || $c)"),
    ("$a ?? $b ?? $c", "($a ?? ($b ?? $c))"),
    ("$a ?: $b ?: $c", "(($a ?: $b) ?: $c)"),
    ("$a and $b and $c", "(($a and $b) and $c)"),
    ("$a xor $b xor $c", "(($a xor $b) xor $c)"),
    ("$a or $b or $c", "(($a or $b) or $c)"),
];

/// Prefix operators, assignments and `++` and `--`, which may stand at either side of an operator.
static TERMS: [(&str, &str); 50] = [
    ("+$a", "(+$a)"),
    ("~$a", "(~$a)"),
    ("@$a", "(@$a)"),
    ("!!$a", "(!(!$a))"),
    ("- -$a", "(-(-$a))"),
    ("(int) $a ** $b", "((int) ($a ** $b))"),
    ("(bool) $a + $b", "(((bool) $a) + $b)"),
    ("(string) $a", "((string) $a)"),
    ("(array) $a", "((array) $a)"),
    ("include 'a'", "(include 'a')"),
    ("include_once 'a'", "(include_once 'a')"),
    ("require 'a'", "(require 'a')"),
    ("require_once 'a'", "(require_once 'a')"),
    ("!$a = $b", "(!($a = $b))"),
    ("-$a = $b", "(-($a = $b))"),
    ("$a + $b = $c + $d", "($a + ($b = ($c + $d)))"),
    ("$a && $b = $c && $d", "($a && ($b = ($c && $d)))"),
    ("$a = $b and $c", "(($a = $b) and $c)"),
    ("$a = $b = $c", "($a = ($b = $c))"),
    ("$a + print $b . $c", "($a + (print ($b . $c)))"),
    ("$a . include 'b' . 'c'", "($a . (include ('b' . 'c')))"),
    ("$a += $b", "($a += $b)"),
    ("$a -= $b", "($a -= $b)"),
    ("$a *= $b", "($a *= $b)"),
    ("$a /= $b", "($a /= $b)"),
    ("$a %= $b", "($a %= $b)"),
    ("$a **= $b", "($a **= $b)"),
    ("$a .= $b", "($a .= $b)"),
    ("$a <<= $b", "($a <<= $b)"),
    ("$a >>= $b", "($a >>= $b)"),
    ("$a &= $b", "($a &= $b)"),
    ("$a |= $b", "($a |= $b)"),
    ("$a ^= $b", "($a ^= $b)"),
    ("$a ??= $b ?? $c", "($a ??= ($b ?? $c))"),
    ("$a[] = $b", "($a[] = $b)"),
    ("$a->b[0] = $c", "($a->b[0] = $c)"),
    ("f()->a = $b", "(f()->a = $b)"),
    ("A::$b = $c", "(A::$b = $c)"),
    ("$a = &$b", "($a = &$b)"),
    ("$a =& f()", "($a = &f())"),
    ("$a[0] = &$b->c", "($a[0] = &$b->c)"),
    ("$a && $b = &$c", "($a && ($b = &$c))"),
    ("++$a", "(++$a)"),
    ("--$a->b", "(--$a->b)"),
    ("$a++ + ++$b", "(($a++) + (++$b))"),
    ("$a-- - --$b", "(($a--) - (--$b))"),
    ("[$a, , [$b]] = $c", "([$a, , [$b]] = $c)"),
    (
        "['a' => $b, 'c' => &$d] = $e",
        "(['a' => $b, 'c' => &$d] = $e)",
    ),
    ("[$a, &$b] = [$c, $d]", "([$a, &$b] = [$c, $d])"),
    ("$a && [$b] = $c && $d", "($a && ([$b] = ($c && $d)))"),
];

/// What has neither operators nor steps.
static PRIMARIES: [(&str, &str); 47] = [
    ("17", "17"),
    ("'a'", "'a'"),
    ("$a", "$a"),
    ("K", "K"),
    ("__DIR__", "__DIR__"),
    ("($a)", "($a)"),
    ("(($a + $b)) * $c", "(((($a + $b))) * $c)"),
    ("\"a$b\"", "\"a{$b}\""),
    ("\"$a[0]b$c[d]$e[$f]g\"", "\"{$a[0]}b{$c['d']}{$e[$f]}g\""),
    ("\"$a->b->c\"", "\"{$a->b}->c\""),
    ("\"{$a->b[$c . 'd']}e\"", "\"{$a->b[($c . 'd')]}e\""),
    ("[]", "[]"),
    ("[$a, $b]", "[$a, $b]"),
    ("[$a, $b,]", "[$a, $b]"),
    ("[$a => $b, 'c' => $d + 1]", "[$a => $b, 'c' => ($d + 1)]"),
    ("[&$a, 'b' => &$c]", "[&$a, 'b' => &$c]"),
    ("array()", "array()"),
    ("array($a, 'b' => $c,)", "array($a, 'b' => $c)"),
    ("f()", "f()"),
    ("f($a, $b + 1)", "f($a, ($b + 1))"),
    ("f($a,)", "f($a)"),
    ("f(a: $b, c: 1)", "f(a: $b, c: 1)"),
    ("isset($a)", "isset($a)"),
    ("isset($a[0], $b->c,)", "isset($a[0], $b->c)"),
    ("empty($a . $b)", "empty(($a . $b))"),
    ("exit", "exit"),
    ("exit()", "exit"),
    ("exit(1 + 2)", "exit((1 + 2))"),
    ("die", "exit"),
    ("die($a)", "exit($a)"),
    ("new A", "new A()"),
    ("new A($a, 1)", "new A($a, 1)"),
    ("new self", "new self()"),
    ("new parent()", "new parent()"),
    ("new static", "new static()"),
    ("new $a", "new $a()"),
    ("new $a[0]->b($c)", "new $a[0]->b($c)"),
    ("new A::$b", "new A::$b()"),
    ("new static::$a['b']", "new static::$a['b']()"),
    ("new ($a . 'b')($c)", "new (($a . 'b'))($c)"),
    ("$a instanceof self", "($a instanceof self)"),
    ("$a instanceof $b->c", "($a instanceof $b->c)"),
    ("$a instanceof A::$b", "($a instanceof A::$b)"),
    ("$a instanceof ($b)", "($a instanceof ($b))"),
    ("A::B", "A::B"),
    ("A::class", "A::class"),
    ("A::$b", "A::$b"),
];

/// Steps, calls and members behind a primary.
static POSTFIXES: [(&str, &str); 36] = [
    ("$a[0][$b + 1]", "$a[0][($b + 1)]"),
    ("$a->b->c", "$a->b->c"),
    ("$a->$b", "$a->{$b}"),
    ("$a->{$b . 'c'}", "$a->{($b . 'c')}"),
    ("$a->class", "$a->class"),
    ("K[0]", "K[0]"),
    ("'a'[0]", "'a'[0]"),
    ("\"a$b\"[0]", "\"a{$b}\"[0]"),
    ("[1, 2][0]", "[1, 2][0]"),
    ("($a)[0]", "($a)[0]"),
    ("A::B[0]", "A::B[0]"),
    ("A::$b[0]->c", "A::$b[0]->c"),
    ("f()[0]", "f()[0]"),
    ("(new A)->b", "(new A())->b"),
    ("self::A", "self::A"),
    ("parent::a()", "parent::a()"),
    ("static::$a", "static::$a"),
    ("A::b($c)", "A::b($c)"),
    ("A::$b()", "A::{$b}()"),
    ("A::{$b . 'c'}()", "A::{($b . 'c')}()"),
    ("A::class()", "A::class()"),
    ("$a::B", "$a::B"),
    ("$a[0]::$b", "$a[0]::$b"),
    ("$a::b()::c()", "$a::b()::c()"),
    ("($a)::class", "($a)::class"),
    ("$a->b()", "$a->b()"),
    ("$a->b($c)->d()[0]", "$a->b($c)->d()[0]"),
    ("$a->$b()", "$a->{$b}()"),
    ("$a->{'b'}()", "$a->{'b'}()"),
    ("$a()", "$a()"),
    ("$a[0]($b)($c)", "$a[0]($b)($c)"),
    ("f()()", "f()()"),
    ("'f'()", "'f'()"),
    ("[$a, 'b']()", "[$a, 'b']()"),
    ("($a)()", "($a)()"),
    ("-$a->b ** 2", "(-($a->b ** 2))"),
];

/// What no expression is read from. PHP 8.2 refuses each too.
static REFUSED: [&str; 44] = [
    "",
    "+",
    "$a +",
    "* $a",
    "$a $b",
    "$a < $b < $c",
    "$a < $b >= $c",
    "$a == $b == $c",
    "$a === $b <=> $c",
    "$a ? $b : $c ? $d : $e",
    "$a ?: $b ? $c : $d",
    "$a ? $b : $c ?: $d",
    "$a ? $b",
    "5++",
    "++5",
    "++$a++",
    "f()++",
    "5 = $a",
    "f() = $a",
    "($a) = $b",
    "$a + $b() = $c",
    "K[0] = $a",
    "$a = &5",
    "$a = &($b)",
    "$a += &$b",
    "[$a, , $b]",
    "[, $a]",
    "array(,)",
    "[$a => ]",
    "f(,)",
    "f($a,,)",
    "f($a",
    "isset()",
    "isset(5)",
    "isset($a + 1)",
    "empty()",
    "exit(1, 2)",
    "new",
    "new 5",
    "new $a::B",
    "A::",
    "$a->",
    "$a->5",
    "($a",
];

/// What is written otherwise here, though PHP 8.2 reads it.
static STRICTER: [&str; 4] = [
    "++$a ** 2",
    "$a instanceof B ** 2",
    "$a = &$b + 1",
    "f()[0] = $a",
];

fn tokens_of(rt: &impl Abort, alloc: Global, source: &str) -> Result<Vec<Token>, Fail> {
    let file = format!(in alloc; "<?php {source}")?;
    let bytes = file.as_bytes();
    assert!(rt; bytes.len() < 1 << 32);
    match tokens(alloc, bytes) {
        Ok(found) => Ok(found),
        Err(_) => panic!(rt; "{source} spells no tokens"),
    }
}

/// The expression that is all of a source.
fn whole(rt: &impl Abort, alloc: Global, source: &str) -> Result<Expr, Fail> {
    let tokens = tokens_of(rt, alloc, source)?;
    let (found, end) = expr(alloc, tokens.as_slice(), 0)?;
    assert_eq!(rt; end, tokens.len(), "of {source}");
    Ok(found)
}

fn gives_these(rt: &impl Abort, alloc: Global, rows: &[(&str, &str)]) -> Result<(), Fail> {
    for (source, wanted) in rows {
        let found = whole(rt, alloc, source)?;
        let mut printed = String::new(alloc);
        print(alloc, 64, &mut printed, &found)?;
        assert_eq!(rt; printed.as_str(), *wanted, "of {source}");
    }
    Ok(())
}

fn is_refused(rt: &impl Abort, alloc: Global, source: &str) -> Result<bool, Fail> {
    let tokens = tokens_of(rt, alloc, source)?;
    match expr(alloc, tokens.as_slice(), 0) {
        Err(ParseFault::Syntax(_)) => Ok(true),
        Err(ParseFault::NoMemory) => Ok(false),
        Ok((_, end)) => Ok(end < tokens.len()),
    }
}

#[test]
fn groups_neighbouring_levels_as_php_does(rt: HostRuntime) -> Result<(), Fail> {
    gives_these(&rt, rt.alloc(), &LEVELS)
}

#[test]
fn groups_operators_of_one_level_as_php_does(rt: HostRuntime) -> Result<(), Fail> {
    gives_these(&rt, rt.alloc(), &GROUPS)
}

#[test]
fn reads_assignments_and_prefixes_as_operands(rt: HostRuntime) -> Result<(), Fail> {
    gives_these(&rt, rt.alloc(), &TERMS)
}

#[test]
fn reads_each_primary(rt: HostRuntime) -> Result<(), Fail> {
    gives_these(&rt, rt.alloc(), &PRIMARIES)
}

#[test]
fn reads_steps_calls_and_members(rt: HostRuntime) -> Result<(), Fail> {
    gives_these(&rt, rt.alloc(), &POSTFIXES)
}

#[test]
fn refuses_what_php_refuses(rt: HostRuntime) -> Result<(), Fail> {
    for source in &REFUSED {
        assert!(rt; is_refused(&rt, rt.alloc(), source)?, "{source}");
    }
    Ok(())
}

#[test]
fn keeps_levels_strict_on_the_left(rt: HostRuntime) -> Result<(), Fail> {
    for source in &STRICTER {
        assert!(rt; is_refused(&rt, rt.alloc(), source)?, "{source}");
    }
    Ok(())
}

/// A text some times, another, and a third as often as the first.
fn nested(
    alloc: Global,
    count: usize,
    before: &str,
    inner: &str,
    behind: &str,
) -> Result<String, Fail> {
    let mut source = String::new(alloc);
    for _level in 0..count {
        source.push_str(before)?;
    }
    source.push_str(inner)?;
    for _level in 0..count {
        source.push_str(behind)?;
    }
    Ok(source)
}

/// How many of each are read: an expression is nested up to 512 deep, so that a statement in a file has room for 510.
static DEEPEST: [(usize, &str, &str, &str); 8] = [
    (511, "!", "1", ""),
    (256, "[", "", "]"),
    (511, "(", "1", ")"),
    (511, "", "$a", "()"),
    (511, "", "$a", "->m()"),
    (255, "", "$a", "::b"),
    (255, "", "$a", "::$b"),
    (256, "", "a", "::b"),
];

#[test]
fn reads_what_is_nested_up_to_the_limit(rt: HostRuntime) -> Result<(), Fail> {
    for (count, before, inner, behind) in &DEEPEST {
        let source = nested(rt.alloc(), *count, before, inner, behind)?;
        assert!(rt;
            !is_refused(&rt, rt.alloc(), source.as_str())?,
            "{before}{behind}"
        );
        let deeper = nested(rt.alloc(), *count + 1, before, inner, behind)?;
        assert!(rt;
            is_refused(&rt, rt.alloc(), deeper.as_str())?,
            "{before}{behind}"
        );
    }
    Ok(())
}

/// What each link of a chain is, behind what it begins with.
static LINKS: [(&str, &str); 5] = [
    ("$a", "()"),
    ("$a", "->m()"),
    ("$a", "::b"),
    ("$a", "::$b"),
    ("a", "::b"),
];

#[test]
fn ends_a_chain_far_past_the_limit(rt: HostRuntime) -> Result<(), Fail> {
    for (inner, behind) in &LINKS {
        let source = nested(rt.alloc(), 30000, "", inner, behind)?;
        assert!(rt; is_refused(&rt, rt.alloc(), source.as_str())?, "{behind}");
    }
    Ok(())
}
