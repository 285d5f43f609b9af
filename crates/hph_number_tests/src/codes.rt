use hph_php::{BinOp, Builtin, Fatal, UnOp};

#[test]
fn finds_kinds_of_fatal_errors_by_their_codes(rt: HostRuntime) {
    assert_eq!(rt; Fatal::from_code(2), Some(Fatal::Float));
    assert_eq!(rt; Fatal::from_code(26), None);
    assert_eq!(rt; Fatal::Misuse.name(), "Misuse");
}

#[test]
fn counts_operators_from_1(rt: HostRuntime) {
    assert_eq!(rt; BinOp::from_code(21), Some(BinOp::Spaceship));
    assert_eq!(rt; BinOp::LogicalXor.code(), 22);
    assert_eq!(rt; UnOp::from_code(0), None);
    assert_eq!(rt; UnOp::ToArray.code(), 8);
}

#[test]
fn finds_functions_in_any_case(rt: HostRuntime) {
    assert_eq!(rt; Builtin::named(b"Array_Push"), Some(Builtin::ArrayPush));
    assert_eq!(rt; Builtin::named(b"printf"), None);
    assert_eq!(rt; Builtin::from_code(28), Some(Builtin::VarDump));
}
