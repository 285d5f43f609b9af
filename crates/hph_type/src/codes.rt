ghost use Rattle.std.specs.Prelude.{◌≡◌, ◌<◌, ◌+◌, ◌*◌, ◌/◌, ◌%◌, ◌^◌};
ghost use Rattle.hph_type.specs.Kinds.{bits_of};
ghost use Rattle.hph_type.specs.Codes.{part_code, part_from, code, decoded, of_code};

use crate::object::ObjPart;
use crate::ty::Ty;

/// The number of a type: its kinds in bits 0 to 4, the object part (0, 1, 2) in bits 5 and 6, the class in bits 8 to
/// 39, and zeros elsewhere.
#[tactic(auto, unfolding(crate::specs::Codes::code))]
pub fn code(t: Ty) -> u64
    ensures { result ≡ code t }
{
    t.kinds as u64 + 32 * part_code(t.obj)
}

/// The type with a code, None exactly where no type has it.
pub fn of_code(c: u64) -> Option<Ty>
    ensures { result ≡ of_code c }
{
    let t = decoded(c);
    if code(t) == c { Some(t) } else { None }
}

// The bits of an object part, from bit 5 on.
fn part_code(part: ObjPart) -> u64
    ensures value { result ≡ part_code part }
    ensures within { result < 2 ^ 36 }
{
    match part {
        ObjPart::NoObj => 0,
        ObjPart::Of(class) => 1 + 8 * class as u64,
        ObjPart::AnyObj => 2,
    }
}

// The type that the bits of a number tell.
fn decoded(c: u64) -> Ty
    ensures { result ≡ decoded c }
{
    Ty {
        kinds: (c % 32) as u8,
        obj: part_from(c / 32 % 4, (c / 256 % (1 << 32)) as u32),
    }
}

// The object part that its bits and a class tell.
fn part_from(tag: u64, class: u32) -> ObjPart
    ensures { result ≡ part_from tag class }
{
    match tag {
        0 => ObjPart::NoObj,
        1 => ObjPart::Of(class),
        _ => ObjPart::AnyObj,
    }
}
