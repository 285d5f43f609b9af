use hph_enclosed::Grammar;

/// The rules for expressions without operators, over those for what stands in brackets.
#[derive(Clone, Copy)]
pub struct Chains<F> {
    pub parts: Grammar<F>,
}
