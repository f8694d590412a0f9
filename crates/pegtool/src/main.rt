//! `pegtool`: checks a grammar file, prints its table of outcomes, its code or warnings about it, parses a text by it,
//! explains where texts don't match, or profiles a parse. Without arguments, parses a grammar file and a text from
//! standard input.
#![tactic(auto)]

use peg_tool::{Device, FileSystem, read_args, run_program};
use std::process::ExitCode;
use std::{env, io};

fn main(rt: HostRuntime) -> ExitCode {
    let mut input = Device::new(rt.reader());
    let mut output = Device::new(io::writer(&rt));
    let words = read_args(rt.alloc(), env::args(&rt));
    let exit = run_program(
        rt.alloc(),
        &FileSystem::new(&rt),
        &mut input,
        &mut output,
        words,
    );
    // The exit status reports a fault too, so a failed print is ignored.
    let _ = rt.eprint(exit.message_after(&output));
    ExitCode::from(exit.status())
}
