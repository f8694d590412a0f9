//! Runs the program of a grammar file on a text file, from its first rule. Prints the steps, the nodes of the tree (0
//! without a match) and the microseconds of the run alone. Or prints the microseconds of two runs with one table of
//! shortcuts; the first includes building the table.
ghost use Rattle.std.specs.Prelude.{◌≡◌, ◌<◌, length};

use peg_check::check;
use peg_code::{Program, compile};
use peg_core::desugar;
use peg_grammar::Grammar;
use peg_machine::{Answer, NoWatch, RunFault, run as run_program, run_with_shortcuts};
use peg_memo::NoMemo;
use peg_notation::read;
use peg_shortcut::{CallMode, Shortcuts};
use peg_tree::Parsed;
use std::alloc::Global;
use std::time::Instant;
use std::{fs, io};

// The program of a grammar file; `None` if the file is rejected.
fn program_of(alloc: Global, file: &[u8]) -> Option<Program> {
    let grammar = Grammar::new(alloc, read(alloc, file).ok()?).ok()?;
    let checked = check(alloc, desugar(alloc, &grammar).ok()?).ok()?;
    compile(alloc, checked).ok()
}

// A run without a memo.
fn run_alone(alloc: Global, program: &Program, text: &[u8]) -> Result<Answer, RunFault>
    requires { 0 < length program.now.core.bodies }
{
    run_program(alloc, program, text, 0, &mut NoMemo, &mut NoWatch, None)
}

// The number of nodes of an answer's tree; 0 without a match.
fn row_count(answer: &Answer) -> usize {
    match &answer.outcome.result {
        Parsed::Matched { tree, .. } => tree.len(),
        Parsed::Failed => 0,
    }
}

pub(crate) fn run(rt: HostRuntime, alloc: Global, grammar: &str, text: &str) -> io::Result<()> {
    let grammar = fs::read(&rt, grammar)?;
    let text = fs::read(&rt, text)?;
    let Some(program) = program_of(alloc, grammar.as_slice()) else {
        return println!(rt; "refused");
    };
    if program.rules() == 0 {
        return println!(rt; "no rule");
    }
    let start = Instant::now(&rt)?;
    let Ok(answer) = run_alone(alloc, &program, text.as_slice()) else {
        return println!(rt; "no answer");
    };
    let time = start.elapsed(&rt)?.as_micros();
    let rows = row_count(&answer);
    println!(rt; "{} steps, {rows} rows, {time} us", answer.steps)
}

// A run without a memo, with a table of shortcuts.
fn run_by_table(
    alloc: Global,
    shortcuts: &mut Shortcuts<'_>,
    program: &Program,
    text: &[u8],
) -> Result<Answer, RunFault>
    requires program { shortcuts.old.program.now ≡ program.now }
    requires rule { 0 < length program.now.core.bodies }
    ensures { shortcuts.new.program.now ≡ shortcuts.old.program.now }
{
    run_with_shortcuts(
        alloc,
        shortcuts,
        program,
        text,
        0,
        &mut NoMemo,
        &mut NoWatch,
        None,
    )
}

pub(crate) fn run_again(
    rt: HostRuntime,
    alloc: Global,
    grammar: &str,
    text: &str,
) -> io::Result<()> {
    let grammar = fs::read(&rt, grammar)?;
    let text = fs::read(&rt, text)?;
    let Some(program) = program_of(alloc, grammar.as_slice()) else {
        return println!(rt; "refused");
    };
    if program.rules() == 0 {
        return println!(rt; "no rule");
    }
    let start = Instant::now(&rt)?;
    let mut shortcuts = Shortcuts::new(alloc, &program, text.len() / 16, CallMode::Enter);
    let first = run_by_table(alloc, &mut shortcuts, &program, text.as_slice());
    let new = start.elapsed(&rt)?.as_micros();
    let start = Instant::now(&rt)?;
    let second = run_by_table(alloc, &mut shortcuts, &program, text.as_slice());
    let kept = start.elapsed(&rt)?.as_micros();
    match (first, second) {
        (Ok(_), Ok(_)) => println!(rt; "{new} us, and {kept} us by what was found"),
        _ => println!(rt; "no answer"),
    }
}
