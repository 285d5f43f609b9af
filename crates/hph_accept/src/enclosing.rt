//! The loops and switches round a node, which `break` and `continue` count (PHP manual, break).
ghost use Rattle.std.specs.Prelude.{◌≡◌, nat_lt};
ghost use Rattle.hph_accept.specs.Enclosed.{count};

/// The loops and switches round a node, the innermost first.
#[derive(Clone, Copy)]
pub enum Enclosing<'a> {
    Nothing,
    Within(&'a Enclosing<'a>),
}

impl<'a> Enclosing<'a> {
    /// Whether there are fewer than so many.
    pub fn are_fewer(self, levels: u64) -> bool
        ensures { result ≡ nat_lt (count self.entry) levels }
    {
        let mut around = self;
        for _ in 0..levels {
            match around {
                Enclosing::Nothing => return true,
                Enclosing::Within(outer) => around = *outer,
            }
        }
        false
    }
}
