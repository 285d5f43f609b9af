/// What is read at a place: an expression whose operators are of a level or bind tighter; one without operators; or an
/// element of an array or a destructuring, which is an expression or what is only written.
#[derive(Clone, Copy, Debug, PartialEq, Eq)]
pub enum Form {
    Level(u8),
    Postfix,
    Element,
}
