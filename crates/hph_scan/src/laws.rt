//! What holds of every spelling of a number or a string (PHP manual, Integers and Strings). The functions do nothing:
//! each is there for its contract.
ghost use Rattle.std.specs.Prelude.{◌≡◌, ◌<◌, ◌≤◌, ◌⊎◌, ◌||◌, ℕ, true, List, [], ◌∷◌, length, drop, Option};
ghost use Rattle.hph_ast.specs.Bytes.{begins};
ghost use Rattle.hph_ast.specs.Numbers.{IsNumber};
ghost use Rattle.hph_ast.specs.Strings.{Single, Piece, begins_interpolation};

/// A number has one value.
pub fn one_number()
    ensures { (bs : List ℕ) (v w : ℕ) → IsNumber bs v → IsNumber bs w → v ≡ w }
{}

/// What begins here is a number, or isn't one.
pub fn number_or_none()
    ensures { (bs : List ℕ) → ((v : ℕ) × IsNumber bs v) ⊎ ((v : ℕ) → IsNumber bs v → ⊥) }
{}

/// A string in single quotes has one text and one end.
pub fn one_single_quoted()
    ensures { (bs text other rest behind : List ℕ) → Single bs text rest → Single bs other behind
        → (text ≡ other) × (rest ≡ behind) }
{}

/// A string in single quotes takes a byte at least, and ends within the bytes.
pub fn single_quoted_ends()
    ensures { (bs text rest : List ℕ) → Single bs text rest
        → (n : ℕ) × ((0 < n) × (n ≤ length bs) × (rest ≡ drop n bs)) }
{}

/// Bytes begin with a string in single quotes, or with none.
pub fn single_quoted_or_none()
    ensures { (bs : List ℕ) → ((text : List ℕ) × (rest : List ℕ) × Single bs text rest)
        ⊎ ((text rest : List ℕ) → Single bs text rest → ⊥) }
{}

/// A piece of a string in double quotes has one text, or one wrong escape at least, and one end.
pub fn one_piece()
    ensures { (bs rest behind : List ℕ) (text other : Option (List ℕ)) → Piece bs text rest → Piece bs other behind
        → (text ≡ other) × (rest ≡ behind) }
{}

/// A piece ends within the bytes, before a double quote (34) or an interpolation.
pub fn pieces_end()
    ensures { (bs rest : List ℕ) (text : Option (List ℕ)) → Piece bs text rest
        → (n : ℕ) × ((n < length bs) × (rest ≡ drop n bs)
        × ((begins (34 ∷ []) rest || begins_interpolation rest) ≡ true)) }
{}

/// Bytes begin with a piece of a string in double quotes, or with none.
pub fn piece_or_none()
    ensures { (bs : List ℕ) → ((text : Option (List ℕ)) × (rest : List ℕ) × Piece bs text rest)
        ⊎ ((text : Option (List ℕ)) (rest : List ℕ) → Piece bs text rest → ⊥) }
{}
