//! The inference on a system worked by hand, with several numbers of workers.
#![tactic(auto)]

#[cfg(test)]
mod tests;
