//! Tests of stores over devices in memory, of a primary over one, and of devices in memory, in files and of
//! the system: each store made, flushed, moved to a later base, migrated and opened, with a stop at each
//! operation in turn, with each bit of a sector turned, and with each allocation refused.
#![tactic(auto)]

#[cfg(test)]
mod bases;
#[cfg(test)]
mod clearing;
#[cfg(test)]
mod commands;
#[cfg(test)]
mod damage;
#[cfg(test)]
mod devices;
#[cfg(test)]
mod example;
#[cfg(test)]
mod migration;
#[cfg(test)]
mod migration_stops;
#[cfg(test)]
mod old_format;
#[cfg(test)]
mod openings;
#[cfg(test)]
mod primary;
#[cfg(test)]
mod stops;
#[cfg(test)]
mod stores;
