/// Why tokens are no tree.
#[derive(Debug, Drop)]
pub enum TreeFault {
    /// The first token, counted from 0, at which more than 256 brackets are open.
    TooDeep(usize),
    /// The token, counted from 0, that cannot follow, or one before it; or the tree is nested too deep.
    Syntax(usize),
    NoMemory,
}
