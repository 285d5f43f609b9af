use hph_src::{
    DirTree, Gate, MemSink, MemTree, NoGate, Point, PutAnswer, ReadAnswer, ScriptSink, ScriptTree,
    Sink, StdSink, Tree,
};
use std::alloc::{AllocError, Global};
use std::collections::BTreeMap;
use std::fs::File;
use std::path::PathBuf;
use std::test::Fail;
use std::{env, fs, io, process};

const SOURCE: &[u8] = b"<?php echo 1;";

/// A tree with one file, `a.php`, that holds `SOURCE`.
fn one_file(alloc: Global) -> Result<MemTree, AllocError> {
    let mut files = BTreeMap::new(alloc);
    files.insert(String::from_str(alloc, "a.php")?, SOURCE.to_vec(alloc)?)?;
    Ok(MemTree::new(files))
}

fn put_twice<S: Sink + Drop>(mut sink: S, first: &[u8], second: &[u8]) -> (PutAnswer, PutAnswer) {
    (sink.put(first), sink.put(second))
}

/// A path that no other process uses.
fn temporary(rt: &HostRuntime, name: &str) -> io::Result<PathBuf> {
    let file = format!(in rt.alloc(); "hph_src_{}_{name}", process::id(rt.process()))?;
    Ok(env::temp_dir(rt)?.join(rt.alloc(), file.as_str())?)
}

#[test]
fn reads_up_to_the_limit(rt: HostRuntime) -> Result<(), Fail> {
    let mut tree = one_file(rt.alloc())?;
    let mut into = b"// ".to_vec(rt.alloc())?;
    assert_eq!(rt; tree.read("b.php", 13, &mut into), ReadAnswer::Absent);
    assert_eq!(rt; tree.read("a.php", 12, &mut into), ReadAnswer::TooLong);
    assert_eq!(rt; into.as_slice(), b"// ".as_slice());
    assert_eq!(rt; tree.read("a.php", 13, &mut into), ReadAnswer::Found);
    assert_eq!(rt; into.as_slice(), b"// <?php echo 1;".as_slice());
    Ok(())
}

#[test]
fn puts_to_a_lent_sink(rt: HostRuntime) -> Result<(), Fail> {
    let mut sink = MemSink::new(rt.alloc());
    let answers = put_twice(&mut sink, b"echo", b" 1;");
    assert_eq!(rt; answers, (PutAnswer::All, PutAnswer::All));
    assert_eq!(rt; sink.bytes(), b"echo 1;".as_slice());
    Ok(())
}

#[test]
fn fails_at_the_second_read(rt: HostRuntime) -> Result<(), Fail> {
    let mut tree = ScriptTree::new(one_file(rt.alloc())?, vec![in rt.alloc(); 1]?);
    let mut into = Vec::new(rt.alloc());
    assert_eq!(rt; tree.read("a.php", 99, &mut into), ReadAnswer::Found);
    assert_eq!(rt; tree.read("a.php", 99, &mut into), ReadAnswer::Failed);
    assert_eq!(rt; into.as_slice(), SOURCE);
    assert_eq!(rt; tree.read("b.php", 99, &mut into), ReadAnswer::Absent);
    Ok(())
}

#[test]
fn fails_in_the_middle_of_a_piece(rt: HostRuntime) -> Result<(), Fail> {
    let mut sink = ScriptSink::new(rt.alloc(), 5);
    let answers = put_twice(&mut sink, b"echo", b" 1;");
    assert_eq!(rt; answers, (PutAnswer::All, PutAnswer::Failed));
    assert_eq!(rt; sink.bytes(), b"echo ".as_slice());
    Ok(())
}

#[test]
fn reads_files_of_several_buffers(rt: HostRuntime) -> Result<(), Fail> {
    let path = temporary(&rt, "long.php")?;
    let source = vec![in rt.alloc(); b'x'; 10_000]?;
    fs::write(&rt, path.as_path(), source.as_slice())?;

    let mut tree = DirTree::new(&rt);
    let mut into = Vec::new(rt.alloc());
    assert_eq!(rt;
        tree.read(path.as_str(), 9_999, &mut into),
        ReadAnswer::TooLong
    );
    assert!(rt; into.is_empty());
    assert_eq!(rt;
        tree.read(path.as_str(), 10_000, &mut into),
        ReadAnswer::Found
    );
    assert!(rt; into == source);
    assert_eq!(rt;
        tree.read("/dev/zero", 10_000, &mut into),
        ReadAnswer::TooLong
    );
    assert!(rt; into == source);
    assert_eq!(rt; tree.faults(), 0);
    fs::remove_file(&rt, path.as_path())?;
    Ok(())
}

#[test]
fn tells_an_absent_file_from_a_directory(rt: HostRuntime) -> Result<(), Fail> {
    let path = temporary(&rt, "none.php")?;
    let directory = env::temp_dir(&rt)?;

    let mut tree = DirTree::new(&rt);
    let mut into = b"// ".to_vec(rt.alloc())?;
    assert_eq!(rt; tree.read(path.as_str(), 99, &mut into), ReadAnswer::Absent);
    assert_eq!(rt;
        tree.read("/dev/null/none.php", 99, &mut into),
        ReadAnswer::Absent
    );
    assert_eq!(rt; tree.faults(), 0);
    assert_eq!(rt;
        tree.read(directory.as_str(), 99, &mut into),
        ReadAnswer::Failed
    );
    assert_eq!(rt; tree.faults(), 1);
    assert_eq!(rt; into.as_slice(), b"// ".as_slice());
    Ok(())
}

#[test]
fn writes_to_a_file(rt: HostRuntime) -> Result<(), Fail> {
    let path = temporary(&rt, "written.wasm")?;
    let mut sink = StdSink::new(File::create(&rt, path.as_path())?);
    let answers = put_twice(&mut sink, b"\0asm", b"\x01\0\0\0");
    assert_eq!(rt; answers, (PutAnswer::All, PutAnswer::All));
    assert_eq!(rt; sink.faults(), 0);
    assert_eq!(rt;
        fs::read(&rt, path.as_path())?.as_slice(),
        b"\0asm\x01\0\0\0".as_slice()
    );

    // A file that was opened to be read takes nothing.
    let mut sink = StdSink::new(File::open(&rt, path.as_path())?);
    let answers = put_twice(&mut sink, b"", b"\0asm");
    assert_eq!(rt; answers, (PutAnswer::All, PutAnswer::Failed));
    assert_eq!(rt; sink.faults(), 1);
    fs::remove_file(&rt, path.as_path())?;
    Ok(())
}

#[test]
fn counts_a_writer_that_is_full(rt: HostRuntime) {
    let mut room = [0u8; 2];
    let mut sink = StdSink::new(room.as_mut_slice());
    assert_eq!(rt; sink.put(b"asm"), PutAnswer::Failed);
    assert_eq!(rt; sink.faults(), 1);
}

#[test]
fn passes_an_open_gate() {
    NoGate.at(0, Point::Took(1));
}
