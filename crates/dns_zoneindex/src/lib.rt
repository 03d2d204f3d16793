//! Sets of records as trees of names, of which forks share what neither changed.
#![tactic(auto)]

mod branch;
mod children;
mod count;
mod descent;
mod edit;
mod group;
mod grow;
mod key;
mod node;
mod path;
mod records;
mod run;
mod shared;
mod tree;
mod walk;

pub use shared::SharedTree;
