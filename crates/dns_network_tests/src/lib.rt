//! Tests of a server over loopback with its clients in one process, and of runs into writers that fail.
#![tactic(auto)]

#[cfg(test)]
mod clients;
#[cfg(test)]
mod given;
#[cfg(test)]
mod loopback;
#[cfg(test)]
mod writers;
