use hph_case::{builtins, fatals, imports, opcodes, operators};

#[test]
fn finds_opcodes_by_their_bytes(rt: HostRuntime) {
    let table = opcodes();
    assert_eq!(rt; table.code_of(0), Some(0x00));
    assert_eq!(rt; table.code_of(101), Some(0xad));
    assert_eq!(rt; table.code_of(102), None);

    // The addition of 32 bits, the end of a body, and the first and the last comparison of 64 bits.
    for code in [0x6a, 0x0b, 0x50, 0x5a] {
        let Some(row) = table.row_of(code) else {
            panic!(rt; "no row has the code {code}");
        };
        assert_eq!(rt; table.code_of(row), Some(code));
    }

    // The addition of floats, and a byte that is no opcode.
    assert_eq!(rt; table.row_of(0x92), None);
    assert_eq!(rt; table.row_of(0xff), None);
}

#[test]
fn puts_unary_operators_after_binary_ones(rt: HostRuntime) {
    let table = operators();
    assert_eq!(rt; table.row_of(22), Some(21));
    assert_eq!(rt; table.row_of(33), Some(22));
    assert_eq!(rt; table.row_of(32), None);
    assert_eq!(rt; table.code_of(29), Some(40));
}

#[test]
fn numbers_imports_from_0_and_the_rest_from_1(rt: HostRuntime) {
    assert_eq!(rt; imports().row_of(71), Some(71));
    assert_eq!(rt; imports().row_of(72), None);
    assert_eq!(rt; builtins().row_of(28), Some(27));
    assert_eq!(rt; builtins().row_of(0), None);
    assert_eq!(rt; fatals().row_of(25), Some(24));
    assert_eq!(rt; fatals().row_of(0), None);
}
