ghost use Rattle.std.specs.Prelude.{◌≡◌, ◌≢◌, ℕ, ◌≤◌, ◌<◌, ◌^◌, length, IsTrue, Some, IfSome, IfNone};
ghost use Rattle.hph_case.specs.Table.{codes, are_distinct, row_of, code_of};

/// A row of a table: the code of a case, and a number that the table says of it (this project's own).
#[derive(Clone, Copy, Debug, PartialEq, Eq)]
pub struct Row {
    pub code: u16,
    pub tag: u16,
}

/// A table of `N` rows in which no code stands twice (this project's own).
#[derive(Debug, Drop)]
pub struct Cases<const N: usize> {
    pub rows: [Row; N],
    ghost distinct: { IsTrue (are_distinct (codes rows)) },
    ghost short: { length rows ≤ 2 ^ 16 },
}

impl<const N: usize> Cases<N> {
    /// The number of the row with this code, from 0, or None where no row has it.
    pub fn row_of(&self, code: u16) -> Option<u16>
        ensures value { result ≡ row_of self.now.rows code }
        ensures inverse { IfSome result (λ row. code_of self.now.rows row ≡ Some code) }
        ensures none { IfNone result ((row : ℕ) → code_of self.now.rows row ≢ Some code) }
    {
        match self.place_of(code) {
            Some(row) => Some(row as u16),
            None => None,
        }
    }

    fn place_of(&self, code: u16) -> Option<usize>
        ensures value { result ≡ row_of self.now.rows code }
        ensures bound { IfSome result (λ row. row < length self.now.rows) }
    {
        self.rows.iter().position(|row| row.code == code)
    }

    /// The code of this row, or None where there is no such row.
    pub fn code_of(&self, row: u16) -> Option<u16>
        ensures value { result ≡ code_of self.now.rows row }
        ensures inverse { IfSome result (λ code. row_of self.now.rows code ≡ Some row) }
    {
        match self.rows.get(usize::from(row)) {
            Some(found) => Some(found.code),
            None => None,
        }
    }
}
