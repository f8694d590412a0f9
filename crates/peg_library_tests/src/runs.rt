//! Runs of the machine that no run of the program makes. `tests/oom/each_test.py` makes each of their allocations fail.
ghost use Rattle.std.specs.Prelude.{◌≡◌, ◌<◌, [], length};

use peg_code::Program;
use peg_machine::{Answer, ListWatch, NoWatch, RunFault, run_packrat, run_with_shortcuts};
use peg_memo::{LruMemo, NoMemo};
use peg_parser::Parser;
use peg_shortcut::{CallMode, Shortcuts};
use std::alloc::Global;
use std::test::Fail;

// Runs from the first rule with a memo that stores every result.
fn packrat(
    alloc: Global,
    program: &Program,
    memo: &mut LruMemo,
    calls: &mut ListWatch,
) -> Result<Answer, RunFault>
    requires rule { 0 < length program.now.core.bodies }
    requires empty { memo.old.pairs ≡ [] }
{
    run_packrat(alloc, program, b"(a)y", 0, memo, calls, None)
}

// Whether such a run is shown these calls, or a result isn't stored for want of memory.
fn shows(alloc: Global, program: &Program, wanted: &[(u32, u32)]) -> Result<bool, Fail>
    requires { 0 < length program.now.core.bodies }
{
    let mut memo = LruMemo::new(alloc, 10)?;
    let mut calls = ListWatch::new(alloc);
    packrat(alloc, program, &mut memo, &mut calls)?;
    Ok(memo.was_refused() || calls.pairs() == wanted)
}

// Two alternatives begin alike, so a parse without a memo calls the inner rule twice. With one, each of the two calls
// is made once (Ford 2002, section 3.1).
#[test]
fn a_packrat_run_makes_no_call_twice(rt: HostRuntime) -> Result<(), Fail> {
    let file = b"A <- '(' A ')' 'x' / '(' A ')' 'y' / 'a'\n";
    let parser = Parser::from_file(rt.alloc(), file)?;
    let program = parser.program();
    assert!(rt; program.rules() > 0);
    assert!(rt; shows(rt.alloc(), program, &[(0, 0), (0, 1)])?);
    Ok(())
}

// Runs from the first rule without a memo, with a new table of shortcuts for every instruction.
fn run_by_table(alloc: Global, program: &Program) -> Result<Answer, RunFault>
    requires { 0 < length program.now.core.bodies }
{
    let mut shortcuts = Shortcuts::new(alloc, program, usize::MAX, CallMode::Enter);
    run_with_shortcuts(
        alloc,
        &mut shortcuts,
        program,
        b"aab",
        0,
        &mut NoMemo,
        &mut NoWatch,
        None,
    )
}

// Each `a` takes five steps, the `b` four, and the end one.
#[test]
fn a_run_by_a_table_takes_all_steps(rt: HostRuntime) -> Result<(), Fail> {
    let parser = Parser::from_file(rt.alloc(), b"S <- 'a' S / 'b'\n")?;
    let program = parser.program();
    assert!(rt; program.rules() > 0);
    assert_eq!(rt; run_by_table(rt.alloc(), program)?.steps, 15);
    Ok(())
}
