//! Rows of the Core Specification 1.0 (5.5) on which bytes are modules, worked out by hand.
ghost use Rattle.std.specs.Prelude.{◌<◌, ◌^◌, length};

use hph_wasm::Feature;
use hph_wdec::{ModuleFault, read};
use std::alloc::Global;
use std::test::Fail;

/// A module that prints 3: types, an import, a function, a memory, an export, code and data.
const PRINTS_THREE: [u8; 75] = [
    0x00, 0x61, 0x73, 0x6D, 0x01, 0x00, 0x00, 0x00, // the header
    0x01, 0x09, 0x02, 0x60, 0x02, 0x7F, 0x7F, 0x00, 0x60, 0x00, 0x00, // types
    0x02, 0x0E, 0x01, 0x04, 0x70, 0x68, 0x70, 0x31, 0x05, 0x77, 0x72, 0x69, 0x74, 0x65, 0x00, 0x00, // php1.write
    0x03, 0x02, 0x01, 0x01, // a function
    0x05, 0x03, 0x01, 0x00, 0x01, // a memory
    0x07, 0x08, 0x01, 0x04, 0x6D, 0x61, 0x69, 0x6E, 0x00, 0x01, // main
    0x0A, 0x0A, 0x01, 0x08, 0x00, 0x41, 0x00, 0x41, 0x01, 0x10, 0x00, 0x0B, // its code
    0x0B, 0x07, 0x01, 0x00, 0x41, 0x00, 0x0B, 0x01, 0x33, // data
];

/// Why the header and these bytes behind it were not read.
fn fault_behind_header(alloc: Global, sections: &[u8]) -> Result<Option<ModuleFault>, Fail>
    requires { length sections.now < 1000 }
{
    let mut bytes = Vec::from_slice(alloc, &PRINTS_THREE[..8])?;
    bytes.extend_from_slice(sections)?;
    Ok(fault_of(alloc, &bytes))
}

/// Why the bytes were not read.
fn fault_of(alloc: Global, bytes: &[u8]) -> Option<ModuleFault>
    requires { length bytes.now < 2 ^ 32 }
{
    match read(alloc, bytes) {
        Ok(_) => None,
        Err(fault) => Some(fault),
    }
}

#[test]
fn whole_sections_are_modules_and_no_other_prefix_is(rt: HostRuntime) {
    let alloc = rt.alloc();
    for length in 0..PRINTS_THREE.len() + 1 {
        let fault = fault_of(alloc, &PRINTS_THREE[..length]);
        match length {
            8 | 19 | 35 | 66 | 75 => assert!(rt; fault.is_none(), "at {length}"),
            _ => assert!(rt;
                matches!(fault, Some(ModuleFault::Malformed(_))),
                "at {length}"
            ),
        }
    }
}

#[test]
fn a_header_that_is_cut_is_malformed_where_it_ends(rt: HostRuntime) {
    let alloc = rt.alloc();
    assert_eq!(rt;
        fault_of(alloc, &PRINTS_THREE[..5]),
        Some(ModuleFault::Malformed(5))
    );
}

#[test]
fn a_type_with_a_float_is_unsupported_at_its_byte(rt: HostRuntime) -> Result<(), Fail> {
    let alloc = rt.alloc();
    let whole = [0x01, 0x05, 0x01, 0x60, 0x01, 0x7D, 0x00];
    let float = Some(ModuleFault::Unsupported(13, Feature::F32));
    assert_eq!(rt; fault_behind_header(alloc, &whole)?, float);
    // A size past the end of the file counts what is left.
    assert_eq!(rt;
        fault_behind_header(alloc, &[0x01, 0x7F, 0x01, 0x60, 0x01, 0x7D])?,
        float
    );
    Ok(())
}

/// Sections whose content ends before what it has to hold, the offset of that end, and what stands behind it: bytes that would be
/// left out if they were read.
const SHORT_SECTIONS: [(&[u8], u32, &[u8]); 7] = [
    // The first of two bodies has no end, and behind it stands the size of the second, which is the opcode of f32.load.
    (
        &[
            0x01, 0x04, 0x01, 0x60, 0x00, 0x00, 0x03, 0x03, 0x02, 0x00, 0x00, 0x0A, 0x2F, 0x02,
            0x02, 0x00, 0x01,
        ],
        25,
        &[
            0x2A, 0x00, 1, 1, 1, 1, 1, 1, 1, 1, 1, 1, 1, 1, 1, 1, 1, 1, 1, 1, 1, 1, 1, 1, 1, 1, 1,
            1, 1, 1, 1, 1, 1, 1, 1, 1, 1, 1, 1, 1, 1, 1, 0x0B,
        ],
    ),
    // One of two memories, and a custom section of 3,000 bytes, whose size would be the second's pages.
    (&[0x05, 0x03, 0x02, 0x00, 0x01], 13, &[0x00, 0xB8, 0x17]),
    // One of two tables, and a custom section that would be the second.
    (
        &[0x04, 0x04, 0x02, 0x70, 0x00, 0x01],
        14,
        &[0x70, 0x00, 0x80, 0x80, 0x80, 0x01],
    ),
    // One of two types.
    (
        &[0x01, 0x04, 0x02, 0x60, 0x00, 0x00],
        14,
        &[0x60, 0x01, 0x7D, 0x00],
    ),
    // A global without its first value.
    (
        &[0x06, 0x03, 0x01, 0x7F, 0x00],
        13,
        &[0x43, 0x00, 0x00, 0x00, 0x00, 0x0B],
    ),
    // A number of pages whose last byte stands behind the section.
    (&[0x05, 0x03, 0x01, 0x00, 0x81], 12, &[0x08]),
    // A run of locals whose type stands behind the body.
    (
        &[
            0x01, 0x04, 0x01, 0x60, 0x00, 0x00, 0x03, 0x02, 0x01, 0x00, 0x0A, 0x06, 0x01, 0x02,
            0x01, 0x01,
        ],
        24,
        &[0x7C, 0x0B],
    ),
];

#[test]
fn nothing_behind_a_size_is_left_out(rt: HostRuntime) -> Result<(), Fail> {
    let alloc = rt.alloc();
    for (short, end, behind) in &SHORT_SECTIONS {
        let mut bytes = Vec::from_slice(alloc, &PRINTS_THREE[..8])?;
        bytes.extend_from_slice(short)?;
        bytes.extend_from_slice(behind)?;
        // a custom section of 3,000 bytes and the memory's
        bytes.resize(bytes.len() + 3000, 0x2A)?;
        if bytes.len() < 5000 {
            assert!(rt;
                fault_of(alloc, &bytes) == Some(ModuleFault::Malformed(*end)),
                "at {end}"
            );
        }
    }
    Ok(())
}

#[test]
fn sections_have_an_order(rt: HostRuntime) -> Result<(), Fail> {
    let alloc = rt.alloc();
    // A start section is left out where one may stand, and behind code it may not.
    let start = Some(ModuleFault::Unsupported(8, Feature::Start));
    assert_eq!(rt; fault_behind_header(alloc, &[0x08, 0x01, 0x00])?, start);
    let late = fault_behind_header(alloc, &[0x0A, 0x01, 0x00, 0x08, 0x01, 0x00])?;
    assert!(rt; matches!(late, Some(ModuleFault::Malformed(_))));
    let twice = fault_behind_header(alloc, &[0x01, 0x01, 0x00, 0x01, 0x01, 0x00])?;
    assert!(rt; matches!(twice, Some(ModuleFault::Malformed(_))));
    // A custom section stands anywhere, and its name is text.
    assert!(rt; fault_behind_header(alloc, &[0x00, 0x02, 0x01, 0x61, 0x01, 0x01, 0x00])?.is_none());
    let no_text = fault_behind_header(alloc, &[0x00, 0x02, 0x01, 0xFF])?;
    assert!(rt; matches!(no_text, Some(ModuleFault::Malformed(_))));
    Ok(())
}

#[test]
fn too_many_locals_are_unsupported_at_the_count_that_passes(rt: HostRuntime) -> Result<(), Fail> {
    let alloc = rt.alloc();
    let sections = [
        0x01, 0x04, 0x01, 0x60, 0x00, 0x00, // a type
        0x03, 0x02, 0x01, 0x00, // a function
        // 1048576 locals of i32, and one more of i64
        0x0A, 0x0B, 0x01, 0x09, 0x02, 0x80, 0x80, 0x40, 0x7F, 0x01, 0x7E, 0x0B,
    ];
    let fault = Some(ModuleFault::Unsupported(27, Feature::LocalCount));
    assert_eq!(rt; fault_behind_header(alloc, &sections)?, fault);
    Ok(())
}

#[test]
fn as_many_locals_as_there_may_be_are_one_run(rt: HostRuntime) -> Result<(), Fail> {
    let alloc = rt.alloc();
    let mut bytes = Vec::from_slice(alloc, &PRINTS_THREE[..8])?;
    bytes.extend_from_slice(&[
        0x01, 0x04, 0x01, 0x60, 0x00, 0x00, // a type
        0x03, 0x02, 0x01, 0x00, // a function
        0x0A, 0x08, 0x01, 0x06, 0x01, 0x80, 0x80, 0x40, 0x7F, 0x0B, // 1048576 locals of i32
    ])?;
    let locals = match read(alloc, &bytes) {
        Ok(m) => m.funcs.get(0).map(|func| func.locals.len()),
        Err(_) => None,
    };
    assert_eq!(rt; locals, Some(1048576));
    Ok(())
}
