//! What a server has done, in numbers, and the lines that tell them.
#![tactic(auto)]

mod counters;
mod counting;
mod lines;
mod telling;

pub use counters::Counters;
pub use counting::Counting;
pub use telling::CountLines;
