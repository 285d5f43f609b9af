//! Expressions whose bytes were written by hand from the Core Specification 1.0, 5.4.
use hph_wasm::{Feature, Instr};
use hph_wread::{Fault, expression};
use std::alloc::{AllocError, Global};
use std::test::Fail;

#[test]
fn reads_both_branches_of_an_if(rt: HostRuntime) -> Result<(), Fail> {
    let bytes = [
        0x41, 0x00, // i32.const 0
        0x04, 0x40, 0x01, 0x05, 0x01, 0x01, 0x0B, // if nop else nop nop end
        0x0B, 0x6A,
    ];
    let Ok((body, rest)) = expression(rt.alloc(), bytes.as_slice()) else {
        return Err(Fail::new("not read"));
    };
    assert_eq!(rt; rest.len(), 1);
    assert_eq!(rt; body.len(), 2);
    let Some(Instr::If(_, first, Some(second))) = body.get(1) else {
        return Err(Fail::new("no second branch"));
    };
    assert_eq!(rt; first.len(), 1);
    assert_eq!(rt; second.len(), 2);
    Ok(())
}

#[test]
fn reads_the_labels_of_a_branch_table(rt: HostRuntime) -> Result<(), Fail> {
    let bytes = [0x0E, 0x02, 0x04, 0x05, 0x06, 0x0B]; // br_table 4 5 6
    let Ok((body, _)) = expression(rt.alloc(), bytes.as_slice()) else {
        return Err(Fail::new("not read"));
    };
    let Some(Instr::BrTable(labels, last)) = body.get(0) else {
        return Err(Fail::new("no branch table"));
    };
    assert_eq!(rt; labels.as_slice(), [4, 5].as_slice());
    assert_eq!(rt; *last, 6);
    Ok(())
}

/// Why these bytes are no expression.
fn fault_of(alloc: Global, bytes: &[u8]) -> Option<Fault> {
    expression(alloc, bytes).err()
}

#[test]
fn tells_where_reading_stops(rt: HostRuntime) {
    let alloc = rt.alloc();
    // an i32.const in six bytes, and an end
    let overlong = [0x41, 0x80, 0x80, 0x80, 0x80, 0x80, 0x00, 0x0B];
    assert_eq!(rt;
        fault_of(alloc, overlong.as_slice()),
        Some(Fault::Malformed(7))
    );
    // nop and f32.const in a block
    let float = [0x02, 0x40, 0x01, 0x43, 0x00, 0x00, 0x00, 0x00, 0x0B, 0x0B];
    assert_eq!(rt;
        fault_of(alloc, float.as_slice()),
        Some(Fault::Unsupported(7, Feature::F32))
    );
    // an `else` in a block
    assert_eq!(rt;
        fault_of(alloc, &[0x02, 0x40, 0x05, 0x0B, 0x0B]),
        Some(Fault::Malformed(3))
    );
    // a loop that gives an f64
    assert_eq!(rt;
        fault_of(alloc, &[0x03, 0x7C, 0x0B, 0x0B]),
        Some(Fault::Unsupported(3, Feature::F64))
    );
    // no end
    assert_eq!(rt; fault_of(alloc, &[0x01]), Some(Fault::Malformed(0)));
}

/// So many blocks that aren't closed.
fn openers(alloc: Global, blocks: u32) -> Result<Vec<u8>, AllocError> {
    let mut bytes = Vec::new(alloc);
    for _ in 0..blocks {
        bytes.push(0x02)?;
        bytes.push(0x40)?;
    }
    Ok(bytes)
}

#[test]
fn answers_in_many_open_blocks(rt: HostRuntime) -> Result<(), Fail> {
    let alloc = rt.alloc();
    let as_many_as_may_be = openers(alloc, 4096)?;
    assert_eq!(rt;
        fault_of(alloc, &as_many_as_may_be),
        Some(Fault::Malformed(0))
    );
    // The opcode of block 4097 stands behind two bytes for each that is open.
    let one_more = openers(alloc, 4097)?;
    assert_eq!(rt;
        fault_of(alloc, &one_more),
        Some(Fault::Unsupported(2, Feature::BlockDepth))
    );
    let many_more = openers(alloc, 200_000)?;
    assert_eq!(rt;
        fault_of(alloc, &many_more),
        Some(Fault::Unsupported(391_808, Feature::BlockDepth))
    );
    Ok(())
}
