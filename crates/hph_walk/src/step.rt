use hph_value::Value;

/// A step of a path that was evaluated (PHP manual, Arrays).
#[derive(Drop)]
pub enum Step {
    /// `[key]`, by a value that is no key yet.
    Key(Value),
    /// `[]`
    End,
}
