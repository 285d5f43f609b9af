//! Files that are built or refused, with what is written.
use crate::lines::LINES;
use hph_ast::{Construct, Refusal};
use hph_drive::{Status, hphpc};
use hph_src::{MemSink, MemTree, NoGate, ScriptSink, ScriptTree, Sink, Tree};
use std::alloc::{AllocError, Global};
use std::collections::BTreeMap;
use std::test::Fail;
use std::thread::Threads;

/// The module of `<?php echo 3;`.
const PRINTS_THREE: [u8; 75] = [
    0x00, 0x61, 0x73, 0x6D, 0x01, 0x00, 0x00, 0x00, // magic number and version
    0x01, 0x09, 0x02, 0x60, 0x02, 0x7F, 0x7F, 0x00, 0x60, 0x00, 0x00, // types
    0x02, 0x0E, 0x01, 0x04, 0x70, 0x68, 0x70, 0x31, 0x05, 0x77, 0x72, 0x69, 0x74, 0x65, 0x00, 0x00, // imports
    0x03, 0x02, 0x01, 0x01, // functions
    0x05, 0x03, 0x01, 0x00, 0x01, // memories
    0x07, 0x08, 0x01, 0x04, 0x6D, 0x61, 0x69, 0x6E, 0x00, 0x01, // exports
    0x0A, 0x0A, 0x01, 0x08, 0x00, 0x41, 0x00, 0x41, 0x01, 0x10, 0x00, 0x0B, // code
    0x0B, 0x07, 0x01, 0x00, 0x41, 0x00, 0x0B, 0x01, 0x33, // data
];

fn words(alloc: Global, words: &[&str]) -> Result<Vec<String>, AllocError> {
    let mut owned = Vec::new(alloc);
    for word in words {
        owned.push(String::from_str(alloc, word)?)?;
    }
    Ok(owned)
}

/// A tree with the one file `m.php`.
fn tree(alloc: Global, source: &[u8]) -> Result<MemTree, AllocError> {
    let mut files = BTreeMap::new(alloc);
    files.insert(String::from_str(alloc, "m.php")?, source.to_vec(alloc)?)?;
    Ok(MemTree::new(files))
}

/// Runs `build m.php`, and gives the status with what was written to standard error.
fn build<R: Threads + Sync, T: Tree, O: Sink>(
    rt: &R,
    alloc: Global,
    tree: &mut T,
    out: &mut O,
) -> Result<(Status, MemSink), AllocError> {
    let words = words(alloc, &["build", "m.php"])?;
    let mut err = MemSink::new(alloc);
    let status = hphpc(rt, alloc, &words, tree, out, &mut err, &NoGate);
    Ok((status, err))
}

#[test]
fn builds_an_echoed_integer_in_75_bytes(rt: HostRuntime) -> Result<(), Fail> {
    let alloc = rt.alloc();
    let mut out = MemSink::new(alloc);
    let (status, err) = build(&rt, alloc, &mut tree(alloc, b"<?php echo 3;")?, &mut out)?;
    assert!(rt; matches!(status, Status::Built));
    assert_eq!(rt; out.bytes(), PRINTS_THREE.as_slice());
    assert!(rt; err.bytes().is_empty());
    Ok(())
}

#[test]
fn builds_inline_text_numbers_and_strings(rt: HostRuntime) -> Result<(), Fail> {
    let alloc = rt.alloc();
    let mut out = MemSink::new(alloc);
    let source = b"a\n<?php ;echo 0x1F, \"\\x41\", 'it\\'s' ?>\nb".as_slice();
    let (status, _err) = build(&rt, alloc, &mut tree(alloc, source)?, &mut out)?;
    assert!(rt; matches!(status, Status::Built));
    assert!(rt; out.bytes().ends_with(b"a\n31Ait'sb"));
    Ok(())
}

#[test]
fn refuses_a_float_with_its_place(rt: HostRuntime) -> Result<(), Fail> {
    let alloc = rt.alloc();
    let mut out = MemSink::new(alloc);
    let mut files = tree(alloc, b"<?php echo 3, 1.5;")?;
    let (status, err) = build(&rt, alloc, &mut files, &mut out)?;
    assert!(rt;
        matches!(
            status,
            Status::Refused(Refusal::Construct {
                kind: Construct::FloatLiteral,
                ..
            })
        )
    );
    assert_eq!(rt;
        err.bytes(),
        b"refused: m.php:14: construct FloatLiteral\n".as_slice()
    );
    assert!(rt; out.bytes().is_empty());
    Ok(())
}

/// Whether the line that shows the fault of a source is this one.
fn shows<R: Threads + Sync>(
    rt: &R,
    alloc: Global,
    source: &[u8],
    line: &str,
) -> Result<bool, AllocError> {
    let mut out = MemSink::new(alloc);
    let (_status, err) = build(rt, alloc, &mut tree(alloc, source)?, &mut out)?;
    Ok(err.bytes() == line.as_bytes())
}

#[test]
fn shows_the_first_fault_of_each_source(rt: HostRuntime) -> Result<(), Fail> {
    for (source, line) in &LINES {
        assert!(rt; shows(&rt, rt.alloc(), source, line)?, "{line}");
    }
    Ok(())
}

/// `echo`, so many times some bytes, others, and as often what closes the first.
fn repeated(
    alloc: Global,
    times: usize,
    before: &str,
    inner: &str,
    behind: &str,
) -> Result<Vec<u8>, AllocError> {
    let mut source = b"<?php echo ".to_vec(alloc)?;
    for _ in 0..times {
        source.extend_from_slice(before.as_bytes())?;
    }
    source.extend_from_slice(inner.as_bytes())?;
    for _ in 0..times {
        source.extend_from_slice(behind.as_bytes())?;
    }
    source.push(b';')?;
    Ok(source)
}

/// Whether the line that shows the fault of a source ends so.
fn ends<R: Threads + Sync>(
    rt: &R,
    alloc: Global,
    source: &[u8],
    line: &str,
) -> Result<bool, AllocError> {
    let mut out = MemSink::new(alloc);
    let (_status, err) = build(rt, alloc, &mut tree(alloc, source)?, &mut out)?;
    Ok(err.bytes().ends_with(line.as_bytes()))
}

#[test]
fn counts_open_brackets_before_syntax(rt: HostRuntime) -> Result<(), Fail> {
    let alloc = rt.alloc();
    let deep = repeated(alloc, 257, "[", "", "")?;
    assert!(rt; ends(&rt, alloc, &deep, "refused: m.php:267: too-deep\n")?);
    let open = repeated(alloc, 256, "[", "", "")?;
    assert!(rt; ends(&rt, alloc, &open, ": syntax\n")?);
    Ok(())
}

/// How often something may be nested in an operand of `echo`: a tree is 512 deep at most, and 256 brackets are open. Then the end of
/// the line where it is nested once more.
const DEEPEST: [(usize, &str, &str, &str, &str); 4] = [
    (509, "!", "1", "", ": syntax\n"),
    (255, "[", "", "]", ": syntax\n"),
    (256, "(", "1", ")", "m.php:267: too-deep\n"),
    (509, "", "$a", "->m()", ": syntax\n"),
];

#[test]
fn nests_512_deep_with_the_file_and_the_statement(rt: HostRuntime) -> Result<(), Fail> {
    let alloc = rt.alloc();
    for (times, before, inner, behind, line) in DEEPEST {
        let deepest = repeated(alloc, times, before, inner, behind)?;
        assert!(rt;
            ends(&rt, alloc, &deepest, "m.php:11: unlowered\n")?,
            "{times} {before}{behind}"
        );
        let deeper = repeated(alloc, times.saturating_add(1), before, inner, behind)?;
        assert!(rt;
            ends(&rt, alloc, &deeper, line)?,
            "one more than {times} {before}{behind}"
        );
    }
    let far_deeper = repeated(alloc, 600, "!", "1", "")?;
    assert!(rt; ends(&rt, alloc, &far_deeper, ": syntax\n")?);
    Ok(())
}

#[test]
fn names_a_missing_file(rt: HostRuntime) -> Result<(), Fail> {
    let alloc = rt.alloc();
    let mut out = MemSink::new(alloc);
    let mut empty = MemTree::new(BTreeMap::new(alloc));
    let (status, err) = build(&rt, alloc, &mut empty, &mut out)?;
    assert!(rt; matches!(status, Status::Refused(Refusal::Missing { .. })));
    assert_eq!(rt; err.bytes(), b"refused: m.php: missing\n".as_slice());
    Ok(())
}

#[test]
fn stops_at_a_sink_that_fails_after_three_bytes(rt: HostRuntime) -> Result<(), Fail> {
    let alloc = rt.alloc();
    let mut out = ScriptSink::new(alloc, 3);
    let (status, err) = build(&rt, alloc, &mut tree(alloc, b"<?php echo 3;")?, &mut out)?;
    assert!(rt; matches!(status, Status::WriteFault));
    assert_eq!(rt; out.bytes(), b"\0as".as_slice());
    assert_eq!(rt; err.bytes(), b"write fault\n".as_slice());
    Ok(())
}

#[test]
fn stops_at_a_tree_whose_first_read_fails(rt: HostRuntime) -> Result<(), Fail> {
    let alloc = rt.alloc();
    let source = tree(alloc, b"<?php echo 3;")?;
    let mut out = MemSink::new(alloc);
    let mut tree = ScriptTree::new(source, vec![in alloc; 0]?);
    let (status, err) = build(&rt, alloc, &mut tree, &mut out)?;
    assert!(rt; matches!(status, Status::ReadFault));
    assert!(rt; out.bytes().is_empty());
    assert_eq!(rt; err.bytes(), b"read fault\n".as_slice());
    Ok(())
}

#[test]
fn keeps_its_answer_where_standard_error_fails(rt: HostRuntime) -> Result<(), Fail> {
    let alloc = rt.alloc();
    let words = words(alloc, &["frob", "m.php"])?;
    let mut tree = tree(alloc, b"<?php echo 3;")?;
    let mut out = MemSink::new(alloc);
    let mut err = ScriptSink::new(alloc, 6);
    let status = hphpc(&rt, alloc, &words, &mut tree, &mut out, &mut err, &NoGate);
    assert!(rt; matches!(status, Status::Usage));
    assert_eq!(rt; err.bytes(), b"usage:".as_slice());
    Ok(())
}
