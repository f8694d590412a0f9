//! The left cycle that is reported: the shortest one from the least rule on a left cycle, and of these the least one.
ghost use Rattle.std.specs.Prelude.{◌≡◌, ℕ, ◌<◌, ◌≤◌, List, length, slice_index_or, IfOk, MatchOption, ◌∷◌};
ghost use Rattle.peg_core.specs.CoreLoops.{IsCoreLeftCycle};
ghost use Rattle.peg_core.specs.Layout.{bodies_of, max_forms};
ghost use Rattle.peg_check.specs.Dependencies.{DepFits};
ghost use Rattle.peg_check.specs.Distances.{IsGuide, distance_of, far_of, next_of};
ghost use Rattle.peg_check.specs.LeastCycles.{IsLeastCycle, IsLeastFrom};
ghost use Rattle.peg_check.specs.WellFormednessDeps.{AreWellFormednessDeps};
ghost use Rattle.peg_check.specs.Verdicts.{HasNoLeftCycle, IsSimpleLeftCycle};
ghost use Rattle.peg_check.specs.declared.dependency.Dependency.{Dependency};

use crate::components::{called_in_own_component, strongly_connected_components};
use crate::dependency::Dependency;
use crate::distances::call_distances;
use crate::next_rules::next_rules;
use peg_core::Core;
use std::alloc::{AllocError, Global};

/// Returns the least left cycle, if there is one. The first rule that has a call in the component of its own body is on
/// a cycle. So the search runs once, although the contract doesn't rest on that.
///
/// Takes time and memory linear in the number of forms.
pub(crate) fn least_cycle(
    alloc: Global,
    core: &Core,
    well_formedness: &[Dependency],
) -> Result<Option<Vec<u32>>, AllocError>
    requires checked_deps { AreWellFormednessDeps core.now well_formedness.now }
    requires count { length well_formedness.now ≡ length core.now.forms }
    requires few { length well_formedness.now ≤ max_forms }
    requires fit { (dependent : ℕ) (d : Dependency) → dependent < length well_formedness.now
        → DepFits (length well_formedness.now) (slice_index_or well_formedness.now dependent d) }
    ensures { IfOk result (λ found. MatchOption found (HasNoLeftCycle core.now)
        (λ path. IsSimpleLeftCycle (bodies_of core.now) path.items
        × IsLeastCycle (IsCoreLeftCycle (bodies_of core.now)) path.items)) }
{
    let labels = strongly_connected_components(alloc, well_formedness)?;
    let called = called_in_own_component(alloc, core, &labels)?;
    for rule in 0..core.rules() {
        if called[rule as usize] {
            if let Some(path) = least_cycle_from(alloc, core, well_formedness, rule)? {
                return Ok(Some(path));
            }
        }
    }
    Ok(None)
}

// The least of the shortest left cycles from a rule, if there is one.
fn least_cycle_from(
    alloc: Global,
    core: &Core,
    well_formedness: &[Dependency],
    start: u32,
) -> Result<Option<Vec<u32>>, AllocError>
    requires checked_deps { AreWellFormednessDeps core.now well_formedness.now }
    requires count { length well_formedness.now ≡ length core.now.forms }
    requires few { length well_formedness.now ≤ max_forms }
    requires fit { (dependent : ℕ) (d : Dependency) → dependent < length well_formedness.now
        → DepFits (length well_formedness.now) (slice_index_or well_formedness.now dependent d) }
    requires within { start < length core.now.bodies }
    ensures { IfOk result (λ found. MatchOption found
        ((more : List ℕ) → ¬ IsCoreLeftCycle (bodies_of core.now) (start ∷ more))
        (λ path. IsLeastFrom (bodies_of core.now) start path.items)) }
{
    let distances = call_distances(alloc, core, well_formedness, start)?;
    if distances[core.body(start) as usize] > core.len() {
        return Ok(None);
    }
    let nexts = next_rules(alloc, core, well_formedness, &distances, start)?;
    Ok(Some(follow_next_rules(alloc, core, &distances, &nexts, start)?))
}

// The rules from the start on, each the next rule of the one before it, until the start comes again.
fn follow_next_rules(
    alloc: Global,
    core: &Core,
    distances: &[u32],
    nexts: &[u32],
    start: u32,
) -> Result<Vec<u32>, AllocError>
    requires guide { IsGuide (bodies_of core.now) start (far_of core.now) (distance_of core.now distances.now)
        (next_of core.now nexts.now) }
    requires distances { length distances.now ≡ length core.now.forms }
    requires nexts { length nexts.now ≡ length core.now.forms }
    requires near { distance_of core.now distances.now start < far_of core.now }
    requires within { start < length core.now.bodies }
    ensures { IfOk result (λ path. IsLeastFrom (bodies_of core.now) start path.items) }
{
    let mut path = Vec::new(alloc);
    let mut rule = start;
    'steps: while distances[core.body(rule) as usize] > 1 {
        path.push(rule)?;
        rule = nexts[core.body(rule) as usize];
    }
    path.push(rule)?;
    Ok(path)
}
