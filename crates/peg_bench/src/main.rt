//! Times a run or a parse alone, without the start of a process, for the scripts in bench/. The first argument names
//! the workload, and the others its input. Without a known first argument the workloads are listed.
#![tactic(auto)]

mod parses;
mod runs;

use std::env::Env;
use std::{env, io};

// The argument with this number; empty if there is none.
fn argument<R: Env + AllocGlobal>(rt: &R, at: usize) -> io::Result<String> {
    let word = env::args(rt)?.nth(at);
    Ok(word.unwrap_or_else(|| String::new(rt.alloc())))
}

fn main(rt: HostRuntime) -> io::Result<()> {
    let alloc = rt.alloc();
    let (bench, word, second) = (argument(&rt, 1)?, argument(&rt, 2)?, argument(&rt, 3)?);
    let (word, second) = (word.as_str(), second.as_str());
    match bench.as_str() {
        "run" => runs::run(rt, alloc, word, second),
        "again" => runs::run_again(rt, alloc, word, second),
        "parse" => {
            let text = argument(&rt, 4)?;
            parses::run(rt, alloc, word, second, text.as_str())
        }
        _ => println!(rt; "words: run, again or parse, and on what"),
    }
}
