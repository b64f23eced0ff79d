//! Tests of what an evaluation, and the checker over it, say of trees that no publisher makes.
//!
//! They are a crate of their own because a crate that has tests is proved twice, with them and without, and beside
//! `answer_tests`, so that both are proved at once.
#![tactic(auto)]

#[cfg(test)]
mod tests;
