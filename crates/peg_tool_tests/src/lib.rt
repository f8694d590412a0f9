//! Tests of what no run of the program can show: devices that fail in mid-stream, files and arguments that are read
//! without memory, and the reader by the metagrammar.
#![tactic(auto)]

#[cfg(test)]
mod devices;
#[cfg(test)]
mod program;
#[cfg(test)]
mod readers;
