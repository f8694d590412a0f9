//! Tests of library calls that no run of the program shows. The expected values were worked by hand.
#![tactic(auto)]

#[cfg(test)]
mod calls;
#[cfg(test)]
mod evaluators;
#[cfg(test)]
mod messages;
#[cfg(test)]
mod refusals;
#[cfg(test)]
mod runs;
#[cfg(test)]
mod shown_rules;
#[cfg(test)]
mod values;
