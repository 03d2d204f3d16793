//! What the commands leave of a store is what happens in the life of a primary.
#![tactic(auto)]

pub mod laws;
