//! Tests of how deep blocks may be nested: in modules as deep as are read, on the main thread and on worker threads.
#![tactic(auto)]

#[cfg(test)]
mod depth;
