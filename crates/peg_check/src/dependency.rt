//! The forms that each core form's outcomes depend on, by number.
ghost use Rattle.std.specs.Prelude.{◌≡◌, ◌<◌, length, IfOk};
ghost use Rattle.peg_core.specs.Layout.{form_at};
ghost use Rattle.peg_check.specs.Cans.{can_at, can_of};
ghost use Rattle.peg_check.specs.Dependencies.{AreDependencies, IsDependencyOf, DepFits, outcome_by};

use crate::Can;
use peg_core::{Core, Node};
use std::alloc::{AllocError, Global};

/// A core form that is reduced to its dependencies. A call of a rule is reduced to the rule's body, and a test to its
/// outcomes.
#[derive(Clone, Copy)]
pub(crate) enum Dependency {
    /// Outcomes that depend on no other form.
    Constant(Can),
    /// The outcomes of the form with this number.
    Alias(u32),
    /// The outcomes of a sequence.
    Seq(u32, u32),
    /// The outcomes of a choice.
    Choice(u32, u32),
    /// The outcomes of a star.
    Star(u32),
    /// The outcomes of a not-predicate.
    Not(u32),
}

/// Returns the links of all core forms, in order.
pub(crate) fn dependencies_of(alloc: Global, core: &Core) -> Result<Vec<Dependency>, AllocError>
    ensures count { IfOk result (λ deps. length deps.items ≡ length core.now.forms) }
    ensures linked { IfOk result (λ deps. AreDependencies core.now deps.items) }
{
    let mut deps = Vec::new(alloc);
    for number in 0..core.len() {
        deps.push(dependency_of(core, number))?;
    }
    Ok(deps)
}

fn dependency_of(core: &Core, number: u32) -> Dependency
    requires { number < length core.now.forms }
    ensures { IsDependencyOf core.now (form_at core.now.forms number) result }
{
    match core.node(number) {
        Node::Empty => Dependency::Constant(Can {
            nothing: true,
            something: false,
            fails: false,
        }),
        Node::Test { set, .. } => Dependency::Constant(Can {
            nothing: false,
            something: !set.is_empty(),
            fails: true,
        }),
        Node::Rule(rule) => Dependency::Alias(core.body(rule)),
        Node::Seq(first, rest) => Dependency::Seq(first, rest),
        Node::Choice(first, rest) => Dependency::Choice(first, rest),
        Node::Star(part) => Dependency::Star(part),
        Node::Not(part) => Dependency::Not(part),
    }
}

/// Returns the outcomes of a form that follow from the known outcomes of its dependencies.
pub(crate) fn outcome_from(dep: Dependency, cans: &[Can]) -> Can
    requires { DepFits (length cans.now) dep }
    ensures { can_of result ≡ outcome_by (can_at cans.now) dep }
{
    match dep {
        Dependency::Constant(can) => can,
        Dependency::Alias(part) => cans[part as usize],
        Dependency::Seq(first, rest) => cans[first as usize].then(cans[rest as usize]),
        Dependency::Choice(first, rest) => cans[first as usize].or_else(cans[rest as usize]),
        Dependency::Star(part) => cans[part as usize].again(),
        Dependency::Not(part) => cans[part as usize].not_ahead(),
    }
}
