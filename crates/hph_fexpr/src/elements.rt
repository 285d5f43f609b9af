use hph_ast::{At, Item};
use sqlite_items::Items;

/// The elements between brackets, whether one of them stands in a destructuring alone, and the place of the bracket that closes.
#[derive(Drop)]
pub struct Elements {
    pub items: Items<Item>,
    pub targets: bool,
    pub close: At,
}
