/// What the Core Specification 1.0 has and modules may not: types, instructions and a section that are left out,
/// and counts above the greatest that is read. `specs/Unsupported.antt` says where each is met.
#[derive(Clone, Copy, Debug, PartialEq, Eq)]
pub enum Feature {
    F32,
    F64,
    MemorySize,
    MemoryGrow,
    Start,
    /// An initial memory of more than 1024 pages.
    InitialMemorySize,
    /// An initial table of more than 1048576 entries.
    InitialTableSize,
    /// More than 1048576 locals in a function.
    LocalCount,
    /// More than 4096 blocks, loops and ifs open at once in an expression.
    BlockDepth,
}
