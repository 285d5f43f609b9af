//! Control structures.

use hph_declare::Grammar;

/// The rules of the control structures, over those of the statements in them.
#[derive(Clone, Copy)]
pub struct Control<E, S> {
    pub grammar: Grammar<E, S>,
}
