/// A value: the number of its 32 or of its 64 bits (Core Specification 1.0, 4.2.1).
#[derive(Clone, Copy, Debug, PartialEq, Eq)]
pub enum Value {
    I32(u32),
    I64(u64),
}
