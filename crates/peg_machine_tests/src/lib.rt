//! Tests of what no run of the program shows: tokens and definitions with their spans, definitions that no file has,
//! the tables of shortcuts, memos, the costs of rules, devices, and records. The expected values were worked out by
//! hand.
#![tactic(auto)]

#[cfg(test)]
mod devices;
#[cfg(test)]
mod entries;
#[cfg(test)]
mod grammars;
#[cfg(test)]
mod notation;
#[cfg(test)]
mod policy;
#[cfg(test)]
mod programs;
#[cfg(test)]
mod records;
#[cfg(test)]
mod shortcuts;
