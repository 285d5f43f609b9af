/// What a type says of objects.
#[derive(Clone, Copy, Debug, Drop, PartialEq, Eq)]
pub enum ObjPart {
    /// No object has the type.
    NoObj,
    /// Objects of the class with this number, or of one that extends it, have the type.
    Of(u32),
    /// Every object has the type.
    AnyObj,
}
