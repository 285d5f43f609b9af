//! Modules in the text format with their first faults, at least one for each rule of the Core Specification 1.0, section 3, that a
//! module can break. The verdicts are those of wasm-validate 1.0.32, and the places are worked out by hand. One differs: an offset by
//! an immutable global of the module's own is valid in 1.0, and not in later versions of the standard.

/// What stands around the code of the rows, which is that of function 1: a function and an immutable global that are imported, a
/// table, a memory, and a mutable global.
pub const AROUND: &str = "(type (func)) (type (func (param i32 i64) (result i32))) \
    (import \"a\" \"f\" (func (type 1))) (import \"a\" \"g\" (global i32)) \
    (table 1 funcref) (memory 1) (global (mut i64) (i64.const 0)) (func (type 0) (local i32 i64)";

/// Code that is valid.
pub static VALID_CODE: [&str; 33] = [
    "nop",
    "i32.const 1 i32.clz drop",
    "i64.const 1 i64.popcnt drop",
    "i32.const 1 i32.const 2 i32.add drop",
    "i64.const 1 i64.const 2 i64.shl i64.eqz i32.eqz drop",
    "i64.const 1 i64.const 2 i64.eq i32.clz drop",
    "i64.const 1 i32.wrap_i64 i64.extend_i32_u i64.popcnt drop",
    "i64.const 1 i64.const 2 i32.const 3 select i64.eqz drop",
    "local.get 0 local.tee 0 local.set 0 local.get 1 local.set 1",
    "global.get 0 drop i64.const 1 global.set 1 global.get 1 i64.eqz drop",
    "i32.const 0 i64.load align=8 i64.eqz i32.load align=4 i32.clz drop",
    "i32.const 0 i32.load8_u align=1 i64.load32_s align=1 i64.eqz drop",
    "i32.const 0 i64.const 1 i64.store align=8 i32.const 0 i64.const 1 i64.store16 align=2",
    "unreachable",
    "unreachable i32.add drop",
    "unreachable select drop",
    "unreachable i64.const 1 i32.const 0 select i64.eqz drop",
    "block (result i32) i32.const 1 end drop",
    "block (result i32) unreachable end i32.clz drop",
    "i64.const 1 block (result i32) i32.const 1 end drop drop",
    "loop (result i32) br 0 end drop",
    "loop i32.const 1 br_if 0 end",
    "i32.const 1 if (result i32) i32.const 2 else i32.const 3 end drop",
    "i32.const 1 if nop end",
    "i32.const 1 if (result i32) unreachable else i32.const 3 end drop",
    "block br 1 end",
    "block (result i32) i32.const 1 i32.const 0 br_if 0 end drop",
    "block (result i32) i32.const 1 br 0 i64.eqz end drop",
    "block block i32.const 0 br_table 0 1 2 end end",
    "block (result i64) i64.const 1 i32.const 0 br_table 0 0 end drop",
    "return i32.add drop",
    "i32.const 1 i64.const 1 call 0 i32.clz drop",
    "i32.const 1 i64.const 1 i32.const 0 call_indirect (type 1) i32.clz drop",
];

/// Code with the number of the opcode at fault. Of instructions on numbers (3.3.1).
pub static NUMBERS: [(&str, u32); 16] = [
    ("i32.clz drop", 0),
    ("i64.const 1 i32.clz drop", 1),
    ("i32.const 1 i64.popcnt drop", 1),
    ("i32.const 1 i32.add drop", 1),
    ("i32.const 1 i64.const 1 i64.shl drop", 2),
    ("i64.const 1 i32.const 1 i32.add drop", 2),
    ("i64.const 1 i64.const 1 i64.shl i32.clz drop", 3),
    ("i64.const 1 i32.eqz drop", 1),
    ("i64.const 1 i64.eqz i64.eqz drop", 2),
    ("i32.const 1 i64.const 1 i64.eq drop", 2),
    ("i32.const 1 i32.lt_s drop", 1),
    ("i64.const 1 i64.const 2 i64.eq i64.popcnt drop", 3),
    ("i32.const 1 i32.wrap_i64 drop", 1),
    ("i64.const 1 i32.wrap_i64 i64.popcnt drop", 2),
    ("i64.const 1 i64.extend_i32_u drop", 1),
    ("i32.const 1 i64.extend_i32_u i32.eqz drop", 2),
];

/// Of instructions on operands and variables (3.3.2, 3.3.3).
pub static VARIABLES: [(&str, u32); 21] = [
    ("drop", 0),
    ("i32.const 1 i32.const 1 select drop", 2),
    ("i32.const 1 i64.const 1 i32.const 1 select drop", 3),
    ("i32.const 1 i32.const 1 i64.const 1 select drop", 3),
    ("i64.const 1 i64.const 1 i32.const 1 select i32.eqz drop", 4),
    ("unreachable i64.const 1 select drop", 2),
    ("unreachable i64.const 1 i32.const 0 select i32.eqz drop", 4),
    ("local.get 2 drop", 0),
    ("local.get 1 i32.eqz drop", 1),
    ("local.set 0", 0),
    ("i32.const 1 local.set 2", 1),
    ("i64.const 1 local.set 0", 1),
    ("local.tee 0 drop", 0),
    ("i32.const 1 local.tee 2 drop", 1),
    ("i32.const 1 local.tee 1 drop", 1),
    ("global.get 2 drop", 0),
    ("global.get 1 i32.eqz drop", 1),
    ("i32.const 1 global.set 0", 1),
    ("i64.const 1 global.set 2", 1),
    ("i32.const 1 global.set 1", 1),
    ("global.set 1", 0),
];

/// Of accesses to the memory (3.3.4).
pub static ACCESSES: [(&str, u32); 10] = [
    ("i32.const 0 i32.load align=8 drop", 1),
    ("i64.const 0 i32.load align=4 drop", 1),
    ("i32.const 0 i64.load align=8 i32.eqz drop", 2),
    ("i32.const 0 i32.load8_u align=2 drop", 1),
    ("i32.const 0 i64.load32_s align=8 drop", 1),
    ("i32.const 0 i64.load32_s align=4 i32.eqz drop", 2),
    ("i32.const 0 i64.const 1 i64.store align=16", 2),
    ("i32.const 0 i32.const 1 i64.store align=8", 2),
    ("i32.const 0 i64.const 1 i64.store16 align=4", 2),
    ("i64.const 0 i64.const 1 i64.store16 align=2", 2),
];

/// Of instructions on control (3.3.5) and their sequences (3.3.6).
pub static CONTROL: [(&str, u32); 46] = [
    ("i32.const 1", 1),
    ("unreachable i32.const 1", 2),
    ("unreachable i64.const 1 i32.add drop", 2),
    ("block (result i32) end drop", 1),
    ("block (result i32) i64.const 1 end drop", 2),
    ("block i32.const 1 end", 2),
    ("i32.const 1 block drop end", 2),
    ("block unreachable end drop", 3),
    ("block (result i64) i64.const 1 end i32.eqz drop", 3),
    ("loop (result i64) i32.const 1 end drop", 2),
    ("loop (result i64) i64.const 1 br 0 end i32.eqz drop", 4),
    ("i32.const 1 loop drop end", 2),
    ("if end", 0),
    ("i64.const 1 if end", 1),
    ("i32.const 1 if drop end", 2),
    ("i32.const 1 if i32.const 2 end", 3),
    ("i32.const 1 if (result i32) i32.const 2 end drop", 3),
    ("i32.const 1 if nop else drop end", 4),
    (
        "i32.const 1 if (result i32) i64.const 2 else i32.const 3 end drop",
        3,
    ),
    (
        "i32.const 1 if (result i32) i32.const 2 else i64.const 3 end drop",
        5,
    ),
    ("i32.const 1 if (result i32) else i32.const 3 end drop", 2),
    (
        "i32.const 1 if (result i64) br 0 else i64.const 3 end drop",
        2,
    ),
    (
        "i32.const 1 if (result i64) i64.const 2 else br 0 end drop",
        4,
    ),
    (
        "i32.const 1 if (result i64) i64.const 2 else i64.const 3 end i32.eqz drop",
        6,
    ),
    ("br 1", 0),
    ("block br 2 end", 1),
    ("block (result i32) br 0 end drop", 1),
    ("block (result i64) i32.const 1 br 0 end drop", 2),
    ("br_if 0", 0),
    ("i32.const 1 br_if 1", 1),
    ("i64.const 1 br_if 0", 1),
    ("block (result i64) i32.const 1 br_if 0 end drop", 2),
    ("br_table 0", 0),
    ("i32.const 0 br_table 0 1", 1),
    ("i32.const 0 br_table 1 0", 1),
    ("i64.const 0 br_table 0 0", 1),
    ("block (result i32) i32.const 0 br_table 0 0 end drop", 2),
    (
        "block (result i32) block i32.const 0 br_table 0 1 end i32.const 1 end drop",
        3,
    ),
    (
        "block (result i32) block unreachable br_table 0 1 end i32.const 1 end drop",
        3,
    ),
    ("call 2", 0),
    ("call 0 drop", 0),
    ("i64.const 1 i32.const 1 call 0 drop", 2),
    ("i32.const 1 i64.const 1 call 0 i64.popcnt drop", 3),
    ("call_indirect (type 0)", 0),
    ("i32.const 0 call_indirect (type 2)", 1),
    (
        "i64.const 1 i32.const 1 i32.const 0 call_indirect (type 1) drop",
        3,
    ),
];

/// Modules that are valid.
pub static VALID_MODULES: [&str; 9] = [
    "",
    "(type (func)) (func (type 0) i32.const 1 i32.const 0 i32.div_s drop) (export \"main\" (func 0))",
    "(type (func (param i64) (result i64))) (func (type 0) (local i32) local.get 0)",
    "(type (func (result i32))) (func (type 0) i32.const 1 br 0) (func (type 0) i32.const 1 return)",
    "(import \"a\" \"t\" (table 0 4294967295 funcref)) (import \"a\" \"m\" (memory 1024 65536))",
    "(import \"a\" \"g\" (global i64)) (global i64 (global.get 0)) (global (mut i32) (i32.const 1))",
    "(type (func)) (table 1 funcref) (func (type 0)) (elem (i32.const 0) 0 0)",
    "(memory 1) (global i32 (i32.const 0)) (data (global.get 0) \"x\")",
    "(type (func)) (func (type 0)) (table 1 funcref) (memory 1) (global i32 (i32.const 0)) \
     (export \"f\" (func 0)) (export \"t\" (table 0)) (export \"m\" (memory 0)) (export \"g\" (global 0))",
];

/// Modules with a fault outside code (3.2, 3.4).
pub static OUTSIDE: [&str; 42] = [
    "(type (func (result i32 i32)))",
    "(memory 2 1)",
    "(memory 1 65537)",
    "(table 2 1 funcref)",
    "(func (type 0))",
    "(type (func)) (func (type 1))",
    "(import \"a\" \"f\" (func (type 0)))",
    "(import \"a\" \"t\" (table 2 1 funcref))",
    "(import \"a\" \"m\" (memory 2 1))",
    "(import \"a\" \"m\" (memory 1 65537))",
    "(table 1 funcref) (table 1 funcref)",
    "(import \"a\" \"t\" (table 1 funcref)) (table 1 funcref)",
    "(memory 1) (memory 1)",
    "(import \"a\" \"m\" (memory 1)) (memory 1)",
    "(import \"a\" \"m\" (memory 1)) (import \"a\" \"m\" (memory 1))",
    "(global i32 (i64.const 0))",
    "(global i64 (i32.const 0))",
    "(global i32 (nop))",
    "(global i32 i32.const 1 i32.const 2)",
    "(global i32 i32.const 1 i32.eqz)",
    "(global i32 (global.get 0))",
    "(global i32 (i32.const 0)) (global i32 (global.get 0))",
    "(import \"a\" \"g\" (global (mut i32))) (global i32 (global.get 0))",
    "(import \"a\" \"g\" (global i64)) (global i32 (global.get 0))",
    "(export \"a\" (func 0))",
    "(export \"a\" (table 0))",
    "(export \"a\" (memory 0))",
    "(export \"a\" (global 0))",
    "(memory 1) (export \"a\" (memory 0)) (export \"b\" (memory 0)) (export \"a\" (memory 0))",
    "(memory 1) (table 1 funcref) (export \"a\" (memory 0)) (export \"a\" (table 0))",
    "(elem (i32.const 0))",
    "(table 1 funcref) (elem (table 1) (offset i32.const 0) func)",
    "(table 1 funcref) (elem (i64.const 0))",
    "(table 1 funcref) (elem (offset i32.const 0 i32.eqz))",
    "(table 1 funcref) (elem (i32.const 0) 0)",
    "(table 1 funcref) (global (mut i32) (i32.const 0)) (elem (global.get 0))",
    "(data (i32.const 0) \"x\")",
    "(memory 1) (data (memory 1) (i32.const 0) \"x\")",
    "(memory 1) (data (i64.const 0) \"x\")",
    "(memory 1) (data (offset i32.const 0 i32.eqz) \"x\")",
    "(memory 1) (global (mut i32) (i32.const 0)) (data (global.get 0) \"x\")",
    "(type (func)) (func (type 0) drop) (memory 2 1)",
];

/// Modules with a fault in code: the function's number and that of the opcode (3.4.1).
pub static IN_FUNCTIONS: [(&str, u32, u32); 18] = [
    (
        "(type (func)) (func (type 0) drop) (export \"main\" (func 0))",
        0,
        0,
    ),
    ("(type (func (result i32))) (func (type 0))", 0, 0),
    (
        "(type (func (result i32))) (func (type 0) i64.const 1)",
        0,
        1,
    ),
    (
        "(type (func (result i32))) (func (type 0) i32.const 1 i32.const 1)",
        0,
        2,
    ),
    ("(type (func (result i32))) (func (type 0) return)", 0, 0),
    (
        "(type (func (result i32))) (func (type 0) i64.const 1 return)",
        0,
        1,
    ),
    ("(type (func (result i32))) (func (type 0) br 0)", 0, 0),
    (
        "(type (func (result i32))) (func (type 0) block br 1 end i32.const 1)",
        0,
        1,
    ),
    (
        "(type (func (param i64))) (func (type 0) (local i32) local.get 0 i32.eqz drop)",
        0,
        1,
    ),
    (
        "(type (func (param i64))) (func (type 0) (local i32) local.get 2 drop)",
        0,
        0,
    ),
    (
        "(type (func)) (func (type 0)) (func (type 0) nop drop)",
        1,
        1,
    ),
    (
        "(type (func)) (func (type 0) nop drop) (func (type 0) drop)",
        0,
        1,
    ),
    (
        "(type (func)) (import \"a\" \"f\" (func (type 0))) (func (type 0) drop)",
        1,
        0,
    ),
    (
        "(type (func)) (func (type 0) i32.const 0 i32.load align=4 drop)",
        0,
        1,
    ),
    (
        "(type (func)) (func (type 0) i32.const 0 i32.load8_u align=1 drop)",
        0,
        1,
    ),
    (
        "(type (func)) (func (type 0) i32.const 0 i32.const 0 i32.store align=4)",
        0,
        2,
    ),
    (
        "(type (func)) (func (type 0) i32.const 0 i64.const 0 i64.store16 align=2)",
        0,
        2,
    ),
    (
        "(type (func)) (func (type 0) i32.const 0 call_indirect (type 0))",
        0,
        1,
    ),
];
