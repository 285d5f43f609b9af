//! Files with their trees and their first faults, by the rules of docs/LANGUAGE.md.
use hph_ast::{Construct, LexKind};
use hph_file::{FileFault, read};
use std::alloc::{AllocError, Global};
use std::test::Fail;

#[test]
fn reads_the_statements_of_a_file(rt: HostRuntime) -> Result<(), Fail> {
    let tree = read(rt.alloc(), b"a<?php echo 1; { $x = [2]; }");
    let Ok(tree) = tree else {
        return Err("no tree")?;
    };
    assert_eq!(rt; tree.statements.len(), 3);
    assert_eq!(rt; tree.at.start, 0);
    Ok(())
}

#[test]
fn tells_the_first_fault(rt: HostRuntime) -> Result<(), Fail> {
    let rows: [(&[u8], FileFault); 4] = [
        (
            b"<?php 'a",
            FileFault::Lex {
                kind: LexKind::UnclosedString,
                offset: 6,
            },
        ),
        (
            b"<?php eval(1 +;",
            FileFault::Construct {
                kind: Construct::Eval,
                offset: 6,
            },
        ),
        (
            b"<?php break;",
            FileFault::Construct {
                kind: Construct::BadBreak,
                offset: 6,
            },
        ),
        (b"<?php }", FileFault::Syntax { offset: 6 }),
    ];
    for (source, fault) in rows {
        assert!(rt; matches!(read(rt.alloc(), source), Err(found) if found == fault));
    }
    Ok(())
}

/// Forms that PHP accepts and that are read for their refusals alone, with what is refused and where.
const REFUSED_FORMS: [(&[u8], Construct, u32); 23] = [
    (
        b"<?php foreach ($a as &$b->c) {}",
        Construct::RefElement,
        21,
    ),
    (
        b"<?php foreach ($a as &$b[0]) {}",
        Construct::RefElement,
        21,
    ),
    (
        b"<?php foreach ($a as &A::$b) {}",
        Construct::RefElement,
        21,
    ),
    (
        b"<?php foreach ($a as &f()->c) {}",
        Construct::RefElement,
        21,
    ),
    (
        b"<?php foreach ($a as $k => &$b->c) {}",
        Construct::RefElement,
        27,
    ),
    (b"<?php new $x::$y;", Construct::Dynamic, 10),
    (b"<?php new A::$x::$y;", Construct::Dynamic, 10),
    (b"<?php new $x::$y[0]::$z(1);", Construct::Dynamic, 10),
    (b"<?php $a instanceof $x::$y;", Construct::Dynamic, 20),
    (b"<?php $a instanceof A::$x::$y;", Construct::Dynamic, 20),
    (b"<?php A::class::b;", Construct::Dynamic, 6),
    (b"<?php A::class::m();", Construct::Dynamic, 6),
    (b"<?php $a::class::m();", Construct::Dynamic, 6),
    (b"<?php $x->p::{e}();", Construct::Dynamic, 6),
    (b"<?php C::$m()[0];", Construct::Dynamic, 9),
    (b"<?php [$b[]] = $x;", Construct::Destructure, 6),
    (b"<?php [$b->c[]] = $x;", Construct::Destructure, 6),
    (b"<?php ['k' => $b[]] = $x;", Construct::Destructure, 6),
    (b"<?php [[$b[]]] = $x;", Construct::Destructure, 6),
    (b"<?php [[, $b]] = $x;", Construct::Destructure, 6),
    (b"<?php ['k' => [, $b]] = $x;", Construct::Destructure, 6),
    (
        b"<?php foreach ($a as [$b[]]) {}",
        Construct::Destructure,
        21,
    ),
    (
        b"<?php foreach ($a as [[, $b]]) {}",
        Construct::Destructure,
        21,
    ),
];

#[test]
fn a_refused_form_is_told_by_its_name(rt: HostRuntime) {
    for (source, kind, offset) in REFUSED_FORMS {
        let fault = FileFault::Construct { kind, offset };
        assert!(rt; matches!(read(rt.alloc(), source), Err(found) if found == fault));
    }
}

/// What is no tree: elements that are only written outside a destructuring or as its keys, and what goes on behind a bound
/// path, which PHP reads where the assignment stands behind a tighter operator.
const NO_TREES: [&[u8]; 14] = [
    b"<?php [$b[]];",
    b"<?php [[, $b]];",
    b"<?php [$b[] + 1] = $x;",
    b"<?php [$b[] => $c] = $x;",
    b"<?php new $x::m();",
    b"<?php $a = &$b + 1;",
    b"<?php -$a = &$b + 1;",
    b"<?php !$a = &$b ?? 1;",
    b"<?php 1 + $a = &$b + 1;",
    b"<?php (int) $a = &$b . 1;",
    b"<?php @$a = &$b ?: 1;",
    b"<?php 1 && $a = &$b + 1;",
    b"<?php $c = $a = &$b + 1;",
    b"<?php $a = &$b ? 1 : 2;",
];

#[test]
fn a_bound_path_ends_its_expression_and_a_written_element_stands_alone(rt: HostRuntime) {
    for source in NO_TREES {
        assert!(rt; matches!(read(rt.alloc(), source), Err(FileFault::Syntax { .. })));
    }
}

/// `<?php `, so many times `while(1)`, and `echo 1;`.
fn loops(alloc: Global, count: usize) -> Result<Vec<u8>, AllocError> {
    let mut source = Vec::new(alloc);
    source.extend_from_slice(b"<?php ")?;
    for _turn in 0..count {
        source.extend_from_slice(b"while(1)")?;
    }
    source.extend_from_slice(b"echo 1;")?;
    Ok(source)
}

#[test]
fn a_file_that_is_nested_too_deep_is_refused_where_it_goes_too_deep(
    rt: HostRuntime,
) -> Result<(), Fail> {
    let deep = loops(rt.alloc(), 510)?;
    if deep.len() > 10_000 {
        return Err("a longer text")?;
    }
    let fault = FileFault::Syntax { offset: 4091 };
    assert!(rt; matches!(read(rt.alloc(), deep.as_slice()), Err(found) if found == fault));
    Ok(())
}
