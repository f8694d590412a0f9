//! Runs that show some rules, with nodes worked out by hand. `tests/oom/each_test.py` makes each of their allocations fail.
ghost use Rattle.std.specs.Prelude.{◌≡◌, ◌<◌, [], length};

use peg_check::{CheckFault, check};
use peg_code::{Program, compile};
use peg_core::desugar;
use peg_grammar::Grammar;
use peg_machine::{Answer, NoWatch, RunFault, run, run_with_shortcuts};
use peg_memo::{LruMemo, NoMemo};
use peg_notation::read;
use peg_shortcut::{CallMode, Shortcuts};
use peg_tree::{Parsed, RuleSet, Tree, TreeNode};
use std::alloc::{AllocError, Global};
use std::test::Fail;

// Rules by number: 0 S, 1 A, 2 B, 3 C, 4 D. On the text, the second alternative matches. It calls A again.
const FILE: &[u8] = b"S <- A B / A C\nA <- 'a' D\nB <- 'x'\nC <- 'y' D\nD <- 'd'*\n";

const TEXT: &[u8] = b"addydd";

// The program of the file, which shows all rules.
fn program_of_file(alloc: Global) -> Result<Program, Fail> {
    let grammar = Grammar::new(alloc, read(alloc, FILE)?)?;
    match check(alloc, desugar(alloc, &grammar)?) {
        Ok(checked) => Ok(compile(alloc, checked)?),
        Err(CheckFault::Memory) => Err(Fail::from(AllocError)),
        Err(_) => Err("a grammar that isn't well-formed".into()),
    }
}

// The set of two rules; a number beyond the rules adds none.
fn set_of(alloc: Global, rules: u32, first: u32, second: u32) -> Result<RuleSet, AllocError> {
    let mut set = RuleSet::none(alloc, rules)?;
    if first < rules {
        set.insert(first);
    }
    if second < rules {
        set.insert(second);
    }
    Ok(set)
}

// A node: its rule, its start and end, and its size.
type Node = (u32, u32, u32, u64);

fn is_node(node: &TreeNode, wanted: &Node) -> bool {
    (node.rule, node.span.start, node.span.end, node.size) == *wanted
}

fn are_nodes(tree: &Tree, wanted: &[Node]) -> bool {
    tree.nodes().len() == wanted.len()
        && tree
            .nodes()
            .iter()
            .zip(wanted)
            .all(|(node, wanted)| is_node(node, wanted))
}

// Whether the text matches as a whole, with these nodes.
fn has_nodes(answer: &Answer, wanted: &[Node]) -> bool {
    match &answer.outcome.result {
        Parsed::Matched { end, tree } => *end == 6 && are_nodes(tree, wanted),
        Parsed::Failed => false,
    }
}

// Whether these nodes are selected from the tree of all nodes.
fn selects(alloc: Global, whole: &Answer, set: &RuleSet, wanted: &[Node]) -> Result<bool, Fail> {
    match &whole.outcome.result {
        Parsed::Matched { tree, .. } => Ok(are_nodes(&tree.select(alloc, set)?, wanted)),
        Parsed::Failed => Ok(false),
    }
}

fn run_plain(alloc: Global, program: &Program) -> Result<Answer, RunFault>
    requires { 0 < length program.now.core.bodies }
{
    run(alloc, program, TEXT, 0, &mut NoMemo, &mut NoWatch, None)
}

// With a memo that answers the second call of A.
fn run_with_memo(alloc: Global, program: &Program, memo: &mut LruMemo) -> Result<Answer, RunFault>
    requires rule { 0 < length program.now.core.bodies }
    requires empty { memo.old.pairs ≡ [] }
{
    run(alloc, program, TEXT, 0, memo, &mut NoWatch, None)
}

fn run_by_table(alloc: Global, program: &Program) -> Result<Answer, RunFault>
    requires { 0 < length program.now.core.bodies }
{
    let mut shortcuts = Shortcuts::new(alloc, program, usize::MAX, CallMode::Enter);
    run_with_shortcuts(
        alloc,
        &mut shortcuts,
        program,
        TEXT,
        0,
        &mut NoMemo,
        &mut NoWatch,
        None,
    )
}

// Whether each kind of run makes these nodes.
fn each_makes(alloc: Global, program: &Program, wanted: &[Node]) -> Result<bool, Fail>
    requires { 0 < length program.now.core.bodies }
{
    let mut memo = LruMemo::new(alloc, 20)?;
    Ok(
        has_nodes(&run_plain(alloc, program)?, wanted)
            && has_nodes(&run_with_memo(alloc, program, &mut memo)?, wanted)
            && has_nodes(&run_by_table(alloc, program)?, wanted),
    )
}

// The root is always shown, and the children of a hidden node take its place.
#[test]
fn a_run_makes_the_nodes_of_the_rules_that_are_shown(rt: HostRuntime) -> Result<(), Fail> {
    let cases: [(u32, u32, &[Node]); 5] = [
        (9, 9, &[(0, 0, 6, 1)]),
        (0, 9, &[(0, 0, 6, 1)]),
        (1, 9, &[(0, 0, 6, 2), (1, 0, 3, 1)]),
        (4, 9, &[(0, 0, 6, 3), (4, 1, 3, 1), (4, 4, 6, 1)]),
        (
            3,
            4,
            &[(0, 0, 6, 4), (4, 1, 3, 1), (3, 3, 6, 2), (4, 4, 6, 1)],
        ),
    ];
    for (first, second, wanted) in cases {
        let program = program_of_file(rt.alloc())?;
        assert!(rt; program.rules() > 0);
        let whole = run_plain(rt.alloc(), &program)?;
        let set = set_of(rt.alloc(), program.rules(), first, second)?;
        assert!(rt;
            selects(rt.alloc(), &whole, &set, wanted)?,
            "selecting {first} and {second}"
        );
        let shown = program.showing(Some(set));
        assert!(rt; shown.rules() > 0);
        assert!(rt;
            each_makes(rt.alloc(), &shown, wanted)?,
            "{first} and {second}"
        );
    }
    Ok(())
}
