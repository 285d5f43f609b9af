//! What holds of every spelling of an integer (Core Specification 1.0, 5.2.2). The functions do
//! nothing: each is there for its contract.
ghost use Rattle.std.specs.Prelude.{◌≡◌, ◌<◌, ◌≤◌, ◌^◌, ◌++◌, ℕ, ℤ, List, length, drop, Option, FitsSigned};
ghost use Rattle.std.specs.Int.{w32, w64};
ghost use Rattle.hph_wasm.specs.Leb128.{Unsigned, Signed, u32_bytes, i32_bytes, i64_bytes};
ghost use Rattle.hph_leb.specs.Reading.{IsReading};

/// The bytes of an unsigned number of 32 bits spell it, and no spelling has fewer (5.2.2).
pub fn u32_bytes_are_shortest()
    ensures spelled { (n : ℕ) → n < 2 ^ 32 → Unsigned 32 n (u32_bytes n) }
    ensures least { (n : ℕ) (bytes : List ℕ) → Unsigned 32 n bytes
        → length (u32_bytes n) ≤ length bytes }
{}

/// The bytes of a signed number of 32 bits spell it, and no spelling has fewer (5.2.2).
pub fn i32_bytes_are_shortest()
    ensures spelled { (z : ℤ) → FitsSigned w32 z → Signed 32 z (i32_bytes z) }
    ensures least { (z : ℤ) (bytes : List ℕ) → Signed 32 z bytes
        → length (i32_bytes z) ≤ length bytes }
{}

/// The bytes of a signed number of 64 bits spell it, and no spelling has fewer (5.2.2).
pub fn i64_bytes_are_shortest()
    ensures spelled { (z : ℤ) → FitsSigned w64 z → Signed 64 z (i64_bytes z) }
    ensures least { (z : ℤ) (bytes : List ℕ) → Signed 64 z bytes
        → length (i64_bytes z) ≤ length bytes }
{}

/// No two numbers have one spelling, and no spelling begins another (5.2.2).
pub fn one_number()
    ensures unsigned { (bits m n : ℕ) (f g r s : List ℕ) → Unsigned bits m f → Unsigned bits n g
        → f ++ r ≡ g ++ s → (m ≡ n) × (f ≡ g) }
    ensures signed { (bits : ℕ) (y z : ℤ) (f g r s : List ℕ) → Signed bits y f → Signed bits z g
        → f ++ r ≡ g ++ s → (y ≡ z) × (f ≡ g) }
{}

/// What is read where a number is written is that number, with nothing left of its bytes, whatever
/// stands before and behind them.
pub fn written_numbers_are_read()
    ensures u32 { (n : ℕ) (front rest : List ℕ) (reading : Option (ℕ × ℕ)) → n < 2 ^ 32
        → IsReading (Unsigned 32) (drop (length front) (front ++ u32_bytes n ++ rest)) reading
        → reading ≡ Some (n, length (u32_bytes n)) }
    ensures i32 { (z : ℤ) (front rest : List ℕ) (reading : Option (ℤ × ℕ)) → FitsSigned w32 z
        → IsReading (Signed 32) (drop (length front) (front ++ i32_bytes z ++ rest)) reading
        → reading ≡ Some (z, length (i32_bytes z)) }
    ensures i64 { (z : ℤ) (front rest : List ℕ) (reading : Option (ℤ × ℕ)) → FitsSigned w64 z
        → IsReading (Signed 64) (drop (length front) (front ++ i64_bytes z ++ rest)) reading
        → reading ≡ Some (z, length (i64_bytes z)) }
{}
