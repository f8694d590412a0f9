//! The forms that the well-formedness of each core form depends on (Ford 2004, section 3.6), as links. These are the
//! parts that Ford's rules for well-formed expressions check, and for a call of a rule the rule's body.
ghost use Rattle.std.specs.Prelude.{◌≡◌, ◌<◌, ◌≤◌, length, IfOk, MatchOption};
ghost use Rattle.peg_core.specs.Layout.{max_forms};
ghost use Rattle.peg_check.specs.WellFormednessDeps.{HasDeps, AreWellFormednessDeps};
ghost use Rattle.peg_check.specs.Exact.{IsExactTable};

use crate::Table;
use crate::dependency::Dependency;
use peg_core::{Core, Node};
use std::alloc::{AllocError, Global};

/// Returns the links of the well-formedness dependencies of all core forms, in order.
pub(crate) fn well_formedness_deps(
    alloc: Global,
    core: &Core,
    table: &Table,
) -> Result<Vec<Dependency>, AllocError>
    requires { IsExactTable core.now table.now }
    ensures count { IfOk result (λ well_formedness. length well_formedness.items ≡ length core.now.forms) }
    ensures few { IfOk result (λ well_formedness. length well_formedness.items ≤ max_forms) }
    ensures checked_deps { IfOk result (λ well_formedness. AreWellFormednessDeps core.now well_formedness.items) }
{
    let mut well_formedness = Vec::new(alloc);
    for number in 0..core.len() {
        well_formedness.push(well_formedness_dep(core, table, number))?;
    }
    Ok(well_formedness)
}

// The dependencies of the form with a number. A sequence depends on its rest only if its first part can succeed without
// consuming a byte.
fn well_formedness_dep(core: &Core, table: &Table, number: u32) -> Dependency
    requires table { IsExactTable core.now table.now }
    requires within { number < length core.now.forms }
    ensures { HasDeps core.now number result }
{
    match core.node(number) {
        Node::Empty => Dependency::Constant(table.of(number)),
        Node::Test { .. } => Dependency::Constant(table.of(number)),
        Node::Rule(rule) => Dependency::Alias(core.body(rule)),
        Node::Seq(first, rest) => {
            if table.of(first).nothing {
                Dependency::Seq(first, rest)
            } else {
                Dependency::Alias(first)
            }
        }
        Node::Choice(first, rest) => Dependency::Choice(first, rest),
        Node::Star(part) => Dependency::Star(part),
        Node::Not(part) => Dependency::Not(part),
    }
}
