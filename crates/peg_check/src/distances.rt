//! Distances from forms to calls of a rule: the least number of calls on a path of left calls.
ghost use Rattle.std.specs.Prelude.{◌≡◌, ℕ, ◌+◌, ◌<◌, ◌≤◌, All, Contains, [], ◌∷◌, ◌++◌, length};
ghost use Rattle.std.specs.Prelude.{slice_get, slice_index_or};
ghost use Rattle.std.specs.Prelude.{IfOk, OnOk, MatchOption, Some};
ghost use Rattle.peg_core.specs.CoreForm.{Rule};
ghost use Rattle.peg_core.specs.Layout.{form_at, max_forms};
ghost use Rattle.peg_check.specs.Dependencies.{DepFits, DependsOn, dep_at};
ghost use Rattle.peg_check.specs.Distances.{AreDistances, distance_by, distance_from, nearest_part};
ghost use Rattle.peg_check.specs.ReverseDeps.{AreChains, HasDependent};
ghost use Rattle.peg_check.specs.declared.dependency.Dependency.{Dependency};

use crate::cycles::used_rule;
use crate::dependency::Dependency;
use crate::reverse_deps::{ReverseDeps, reverse_deps_of};
use peg_core::Core;
use std::alloc::{AllocError, Global};

/// Returns the distance of each form: the least number of calls up to and including a call of the start, or one more
/// than the number of forms if there is no path. If a form's distance changes, the forms that depend on it are pending.
/// Calls of its rule wait until all pending nearer forms are done. So each form gets its distance once.
///
/// Takes time and memory linear in the number of forms. The contract doesn't rest on the order.
pub(crate) fn call_distances(
    alloc: Global,
    core: &Core,
    well_formedness: &[Dependency],
    start: u32,
) -> Result<Vec<u32>, AllocError>
    requires count { length well_formedness.now ≡ length core.now.forms }
    requires few { length well_formedness.now ≤ max_forms }
    requires fit { (dependent : ℕ) (d : Dependency) → dependent < length well_formedness.now
        → DepFits (length well_formedness.now) (slice_index_or well_formedness.now dependent d) }
    ensures { IfOk result (λ distances. AreDistances core.now well_formedness.now start distances.items) }
{
    let reverse_deps = reverse_deps_of(alloc, well_formedness)?;
    let bodies = are_bodies(alloc, core)?;
    let mut distances = vec![in alloc; core.len() + 1; well_formedness.len()]?;
    let mut now = calls_of(alloc, core, start)?;
    let mut later = Vec::new(alloc);
    'looks: while let Some(number) = take_next(&mut now, &mut later) {
        let distance = distance_from(core, well_formedness, &distances, start, number);
        if distances[number as usize] <= distance {
            continue;
        }
        distances[number as usize] = distance;
        push_waiting(&reverse_deps, &bodies, number, &mut now, &mut later)?;
    }
    Ok(distances)
}

// Whether each form is the body of a rule, so that calls depend on it.
fn are_bodies(alloc: Global, core: &Core) -> Result<Vec<bool>, AllocError>
    ensures { IfOk result (λ bodies. length bodies.items ≡ length core.now.forms) }
{
    let mut bodies = vec![in alloc; false; core.len() as usize]?;
    for rule in 0..core.rules() {
        bodies[core.body(rule) as usize] = true;
    }
    Ok(bodies)
}

// The calls of a rule.
fn calls_of(alloc: Global, core: &Core, start: u32) -> Result<Vec<u32>, AllocError>
    ensures all { IfOk result (λ calls. (number : ℕ) → number < length core.now.forms
        → form_at core.now.forms number ≡ Rule start → Contains calls.items number) }
    ensures within { IfOk result (λ calls. All (λ number. number < length core.now.forms) calls.items) }
{
    let mut calls = Vec::new(alloc);
    for number in 0..core.len() {
        push_call(core, start, number, &mut calls)?;
    }
    Ok(calls)
}

// Pushes a form if it is a call of a rule.
fn push_call(core: &Core, start: u32, number: u32, calls: &mut Vec<u32>) -> Result<(), AllocError>
    requires { number < length core.now.forms }
    ensures called { OnOk result (form_at core.now.forms number ≡ Rule start → Contains calls.new.items number) }
    ensures kept { OnOk result ((k : ℕ) → Contains calls.old.items k → Contains calls.new.items k) }
    ensures within { OnOk result (All (λ k. k < length core.now.forms) calls.old.items
        → All (λ k. k < length core.now.forms) calls.new.items) }
{
    if used_rule(core, number) == Some(start) {
        calls.push(number)?;
    }
    Ok(())
}

// Takes a pending form: one of those for now, or one of the later ones if there are none.
fn take_next(now: &mut Vec<u32>, later: &mut Vec<u32>) -> Option<u32>
    ensures { MatchOption result ((later.old.items ++ now.old.items) ≡ [])
        (λ number. (later.old.items ++ now.old.items) ≡ ((later.new.items ++ now.new.items) ++ number ∷ [])) }
{
    if now.is_empty() {
        std::mem::swap(now, later);
    }
    now.pop()
}

// Pushes the forms that depend on a form: the calls of a rule for later, others for now.
fn push_waiting(
    reverse_deps: &ReverseDeps,
    bodies: &[bool],
    number: u32,
    now: &mut Vec<u32>,
    later: &mut Vec<u32>,
) -> Result<(), AllocError>
    requires chains { AreChains (length bodies.now) reverse_deps.now }
    requires within { number < length bodies.now }
    requires forms { All (λ k. k < length bodies.now) (later.old.items ++ now.old.items) }
    ensures dependents { OnOk result ((dependent : ℕ) → HasDependent reverse_deps.now number dependent
        → Contains (later.new.items ++ now.new.items) dependent) }
    ensures kept { OnOk result ((k : ℕ) → Contains (later.old.items ++ now.old.items) k
        → Contains (later.new.items ++ now.new.items) k) }
    ensures within { OnOk result (All (λ k. k < length bodies.now) (later.new.items ++ now.new.items)) }
    ensures few { OnOk result (length (later.new.items ++ now.new.items)
        ≤ length (later.old.items ++ now.old.items) + length reverse_deps.now.entries.items) }
{
    if bodies[number as usize] {
        reverse_deps.push_dependents(number, later)
    } else {
        reverse_deps.push_dependents(number, now)
    }
}

// The distance of a form that follows from the distances of its dependencies.
fn distance_from(
    core: &Core,
    well_formedness: &[Dependency],
    distances: &[u32],
    start: u32,
    number: u32,
) -> u32
    requires within { number < length core.now.forms }
    requires count { length well_formedness.now ≡ length core.now.forms }
    requires fit { (dependent : ℕ) (d : Dependency) → dependent < length well_formedness.now
        → DepFits (length well_formedness.now) (slice_index_or well_formedness.now dependent d) }
    requires distances { length distances.now ≡ length core.now.forms }
    ensures { result ≡ distance_from core.now well_formedness.now start distances.now number }
{
    let far = core.len() + 1;
    distance_by(
        core,
        nearest_of(well_formedness[number as usize], distances, far),
        far,
        start,
        number,
    )
}

// The distance of a form, from the least one of its dependencies. A call of a rule adds one.
fn distance_by(core: &Core, nearest: u32, far: u32, start: u32, number: u32) -> u32
    requires within { number < length core.now.forms }
    requires far { far ≤ length core.now.forms + 1 }
    ensures { result ≡ distance_by (form_at core.now.forms number) start far nearest }
{
    match used_rule(core, number) {
        Some(rule) => {
            if rule == start {
                1
            } else {
                nearest.saturating_add(1).min(far)
            }
        }
        None => nearest,
    }
}

// The least distance of a dependency.
fn nearest_of(dep: Dependency, distances: &[u32], far: u32) -> u32
    requires { DepFits (length distances.now) dep }
    ensures { result ≡ nearest_part far distances.now dep }
{
    match dep {
        Dependency::Constant(_) => far,
        Dependency::Alias(part) | Dependency::Star(part) | Dependency::Not(part) => {
            distances[part as usize]
        }
        Dependency::Seq(first, rest) | Dependency::Choice(first, rest) => {
            distances[first as usize].min(distances[rest as usize])
        }
    }
}
