//! Left cycles: rules that left-call each other in a circle (Ford 2004, section 3.6).
ghost use Rattle.std.specs.Prelude.{◌≡◌, ℕ, ◌<◌, ⊤, Contains, false, length, slice_get, Some, IfOk, MatchOption};
ghost use Rattle.peg_core.specs.CoreForm.{Rule};
ghost use Rattle.peg_core.specs.CoreLoops.{CoreCanCallFirst};
ghost use Rattle.peg_core.specs.Layout.{bodies_of, form_at};
ghost use Rattle.peg_check.specs.WellFormednessDeps.{AreWellFormednessDeps};
ghost use Rattle.peg_check.specs.Paths.{IsFrom};
ghost use Rattle.peg_check.specs.Marks.{is_marked, AreSettled};
ghost use Rattle.peg_check.specs.Verdicts.{IsSimpleLeftCycle};

use crate::dependency::Dependency;
use crate::marks::first_unmarked_dep;
use peg_core::{Core, Node};
use std::alloc::{AllocError, Global};

/// Returns a left cycle. It follows dependencies from a form that isn't settled to forms that aren't settled either,
/// until a rule repeats. Takes time and memory linear in the number of forms.
pub(crate) fn cycle_from(
    alloc: Global,
    core: &Core,
    well_formedness: &[Dependency],
    marks: &[bool],
    start: u32,
) -> Result<Vec<u32>, AllocError>
    requires checked_deps { AreWellFormednessDeps core.now well_formedness.now }
    requires settled { AreSettled well_formedness.now marks.now }
    requires count { length well_formedness.now ≡ length core.now.forms }
    requires within { start < length core.now.forms }
    requires left { is_marked marks.now start ≡ false }
    ensures { IfOk result (λ path. IsSimpleLeftCycle (bodies_of core.now) path.items) }
{
    let mut seen = vec![in alloc; false; core.rules() as usize]?;
    let mut path = Vec::new(alloc);
    let mut rule = left_call(core, well_formedness, marks, start);
    'steps: while !seen[rule as usize] {
        seen[rule as usize] = true;
        path.push(rule)?;
        rule = left_call(core, well_formedness, marks, core.body(rule));
    }
    from_rule(alloc, &path, rule)
}

// A rule that an unsettled form left-calls, and whose body isn't settled either.
fn left_call(core: &Core, well_formedness: &[Dependency], marks: &[bool], form: u32) -> u32
    requires checked_deps { AreWellFormednessDeps core.now well_formedness.now }
    requires settled { AreSettled well_formedness.now marks.now }
    requires count { length well_formedness.now ≡ length core.now.forms }
    requires within { form < length core.now.forms }
    requires left { is_marked marks.now form ≡ false }
    ensures within { result < length core.now.bodies }
    ensures met { CoreCanCallFirst (bodies_of core.now) (form_at core.now.forms form) result }
    ensures left { (body : ℕ) → slice_get core.now.bodies result ≡ Some body → is_marked marks.now body ≡ false }
{
    let mut number = form;
    'parts: loop {
        if let Some(rule) = used_rule(core, number) {
            return rule;
        }
        match first_unmarked_dep(well_formedness[number as usize], marks) {
            Some(part) => number = part,
            None => unreachable!(),
        }
    }
}

/// Returns the rule that a form calls, if the form is a call.
pub(crate) fn used_rule(core: &Core, number: u32) -> Option<u32>
    requires { number < length core.now.forms }
    ensures within { MatchOption result ⊤ (λ rule. rule < length core.now.bodies) }
    ensures used { MatchOption result ((rule : ℕ) → ¬ (form_at core.now.forms number ≡ Rule rule))
        (λ rule. form_at core.now.forms number ≡ Rule rule) }
{
    match core.node(number) {
        Node::Rule(rule) => Some(rule),
        _ => None,
    }
}

// The part of a path from a rule on.
fn from_rule(alloc: Global, path: &[u32], rule: u32) -> Result<Vec<u32>, AllocError>
    requires { Contains path.now rule }
    ensures { IfOk result (λ rest. IsFrom path.now rule rest.items) }
{
    for (at, one) in path.iter().enumerate() {
        if *one == rule {
            return Vec::from_slice(alloc, &path[at..]);
        }
    }
    unreachable!()
}
