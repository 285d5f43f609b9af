use hph_postfix::Chains;

/// The rules for operators, over those for what is read without operators.
#[derive(Clone, Copy)]
pub struct Operators<F> {
    pub below: Chains<F>,
}
