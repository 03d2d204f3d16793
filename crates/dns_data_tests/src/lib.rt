//! Tests of data: names, records, messages, changes, verdicts, transfers and master files, by the octets of
//! the standards; sets and zones of many names; each allocation refused in turn; and 40,000 records.
#![tactic(auto)]

#[cfg(test)]
mod calls;
#[cfg(test)]
mod changes;
#[cfg(test)]
mod forks;
#[cfg(test)]
mod large;
#[cfg(test)]
mod large_sets;
#[cfg(test)]
mod refused;
#[cfg(test)]
mod refused_sets;
#[cfg(test)]
mod standards;
#[cfg(test)]
mod transfers;
#[cfg(test)]
mod while_it_changes;
