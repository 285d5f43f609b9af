//! Whether a valid module that was read is given back, and the place of a fault told.
ghost use Rattle.std.specs.Prelude.{◌<◌, ◌^◌, length};

use hph_wasm::Checked;
use hph_wdec::read;
use hph_wvalid::{ValidFault, valid};
use std::alloc::Global;
use std::test::Fail;

/// A module whose `main` divides one by zero, and drops what comes of it.
const DIVIDES: [u8; 43] = [
    0x00, 0x61, 0x73, 0x6D, 0x01, 0x00, 0x00, 0x00, 0x01, 0x04, 0x01, 0x60, 0x00, 0x00, 0x03, 0x02,
    0x01, 0x00, 0x07, 0x08, 0x01, 0x04, 0x6D, 0x61, 0x69, 0x6E, 0x00, 0x00, 0x0A, 0x0A, 0x01, 0x08,
    0x00, 0x41, 0x01, 0x41, 0x00, 0x6D, 0x1A, 0x0B, 0x00, 0x01, 0x00,
];

/// A module whose `main` drops a value that isn't there.
const DROPS: [u8; 35] = [
    0x00, 0x61, 0x73, 0x6D, 0x01, 0x00, 0x00, 0x00, 0x01, 0x04, 0x01, 0x60, 0x00, 0x00, 0x03, 0x02,
    0x01, 0x00, 0x07, 0x08, 0x01, 0x04, 0x6D, 0x61, 0x69, 0x6E, 0x00, 0x00, 0x0A, 0x05, 0x01, 0x03,
    0x00, 0x1A, 0x0B,
];

/// The module that the bytes spell, checked, or its fault.
fn verdict(alloc: Global, bytes: &[u8]) -> Result<Result<Checked, ValidFault>, Fail>
    requires short { length bytes.now < 2 ^ 32 }
{
    match read(alloc, bytes) {
        Ok(m) => Ok(valid(alloc, m)),
        Err(_) => Err("bytes that spell no module")?,
    }
}

#[test]
fn gives_back_a_valid_module(rt: HostRuntime) -> Result<(), Fail> {
    let checked = verdict(rt.alloc(), &DIVIDES)??;
    assert!(rt; checked.module().funcs.len() == 1);
    Ok(())
}

#[test]
fn tells_the_place_of_a_fault(rt: HostRuntime) -> Result<(), Fail> {
    let fault = verdict(rt.alloc(), &DROPS)?.err();
    assert!(rt; fault == Some(ValidFault::Invalid(0, 0)));
    Ok(())
}
