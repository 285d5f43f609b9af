//! Numbers in a memory, the lowest byte first (Core Specification 1.0, 4.3.1 and 4.4.4).
ghost use Rattle.std.specs.Prelude.{◌≡◌, ◌<◌, ◌≤◌, ◌+◌, ◌*◌, ◌^◌, ◌%◌, ◌/◌, ◌++◌, length, take, drop, IfSome, MatchOption};
ghost use Rattle.hph_wasm.specs.Memory.{number_in, loaded};
ghost use Rattle.hph_integers.specs.Accesses.{byte_count, Stores};
ghost use Rattle.hph_integers.specs.Writes.{written};

/// How many bytes are read or written.
#[derive(Clone, Copy, Debug, PartialEq, Eq)]
pub enum Access {
    Byte,
    /// Two bytes.
    Half,
    /// Four bytes.
    Word,
    /// Eight bytes.
    Double,
}

/// The byte at a place.
#[tactic(auto, using(crate::proofs::Bytes::one_loaded))]
fn load_1(memory: &[u8], at: usize) -> u64
    requires { at + 1 ≤ length memory.now }
    ensures value { result ≡ number_in (take 1 (drop at memory.now)) }
    ensures bound { result < 256 }
{
    u64::from(memory[at])
}

/// The number in two bytes.
fn load_2(memory: &[u8], at: usize) -> u64
    requires { at + 2 ≤ length memory.now }
    ensures value { result ≡ number_in (take 2 (drop at memory.now)) }
    ensures bound { result < 65536 }
{
    load_1(memory, at) + 256 * load_1(memory, at + 1)
}

/// The number in four bytes.
fn load_4(memory: &[u8], at: usize) -> u64
    requires { at + 4 ≤ length memory.now }
    ensures value { result ≡ number_in (take 4 (drop at memory.now)) }
    ensures bound { result < 4294967296 }
{
    load_2(memory, at) + 65536 * load_2(memory, at + 2)
}

/// The number in eight bytes.
fn load_8(memory: &[u8], at: usize) -> u64
    requires { at + 8 ≤ length memory.now }
    ensures { result ≡ number_in (take 8 (drop at memory.now)) }
{
    load_4(memory, at) + 4294967296 * load_4(memory, at + 4)
}

/// The place of an address, if there are so many bytes from it on.
fn place(len: usize, address: u64, count: u64) -> Option<usize>
    requires { count ≤ 8 }
    ensures { MatchOption result (len < address + count) (λ at. (at ≡ address) × (address + count ≤ len)) }
{
    let len = len as u64;
    if count <= len && address <= len - count {
        Some(address as usize)
    } else {
        None
    }
}

/// How many bytes are read or written.
fn count_of(access: Access) -> u64
    ensures value { result ≡ byte_count access }
    ensures bound { result ≤ 8 }
{
    match access {
        Access::Byte => 1,
        Access::Half => 2,
        Access::Word => 4,
        Access::Double => 8,
    }
}

/// The number in the bytes from a place on.
fn number_at(memory: &[u8], access: Access, at: usize) -> u64
    requires { at + byte_count access ≤ length memory.now }
    ensures value { result ≡ number_in (take (byte_count access) (drop at memory.now)) }
    ensures bound { result < 256 ^ byte_count access }
{
    match access {
        Access::Byte => load_1(memory, at),
        Access::Half => load_2(memory, at),
        Access::Word => load_4(memory, at),
        Access::Double => load_8(memory, at),
    }
}

/// The number at an address, if all of its bytes are there.
#[tactic(auto, using(crate::proofs::Bytes::loaded_there, crate::proofs::Bytes::loaded_past))]
pub fn load(memory: &[u8], access: Access, address: u64) -> Option<u64>
    ensures value { result ≡ loaded address (byte_count access) memory.now }
    ensures bound { IfSome result (λ n. n < 256 ^ byte_count access) }
{
    match place(memory.len(), address, count_of(access)) {
        None => None,
        Some(at) => Some(number_at(memory, access, at)),
    }
}

/// Writes a byte.
fn store_1(memory: &mut Vec<u8>, at: usize, n: u64)
    requires { at + 1 ≤ length memory.old.items }
    ensures { memory.new.items ≡ written at 1 n memory.old.items }
{
    memory[at] = (n % 256) as u8;
}

/// Writes two bytes.
#[tactic(auto, using(crate::proofs::Bytes::same_length))]
fn store_2(memory: &mut Vec<u8>, at: usize, n: u64)
    requires { at + 2 ≤ length memory.old.items }
    ensures { memory.new.items ≡ written at 2 n memory.old.items }
{
    store_1(memory, at, n);
    store_1(memory, at + 1, n / 256);
}

/// Writes four bytes.
#[tactic(auto, using(crate::proofs::Bytes::same_length))]
fn store_4(memory: &mut Vec<u8>, at: usize, n: u64)
    requires { at + 4 ≤ length memory.old.items }
    ensures { memory.new.items ≡ written at 4 n memory.old.items }
{
    store_2(memory, at, n);
    store_2(memory, at + 2, n / 65536);
}

/// Writes eight bytes.
#[tactic(auto, using(crate::proofs::Bytes::same_length))]
fn store_8(memory: &mut Vec<u8>, at: usize, n: u64)
    requires { at + 8 ≤ length memory.old.items }
    ensures { memory.new.items ≡ written at 8 n memory.old.items }
{
    store_4(memory, at, n);
    store_4(memory, at + 4, n / 4294967296);
}

/// Writes a number from a place on.
fn write_at(memory: &mut Vec<u8>, access: Access, at: usize, n: u64)
    requires { at + byte_count access ≤ length memory.old.items }
    ensures { memory.new.items ≡ written at (byte_count access) n memory.old.items }
{
    match access {
        Access::Byte => store_1(memory, at, n),
        Access::Half => store_2(memory, at, n),
        Access::Word => store_4(memory, at, n),
        Access::Double => store_8(memory, at, n),
    }
}

/// Writes the lowest bytes of a number at an address; false, and nothing written, where there is no room.
#[tactic(auto, using(crate::proofs::Bytes::stored_there, crate::proofs::Bytes::stored_past))]
pub fn store(memory: &mut Vec<u8>, access: Access, address: u64, n: u64) -> bool
    ensures { Stores access address n memory.old.items result memory.new.items }
{
    match place(memory.len(), address, count_of(access)) {
        None => false,
        Some(at) => {
            write_at(memory, access, at, n);
            true
        }
    }
}
