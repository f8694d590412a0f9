//! The rule that each form calls first on the least of the shortest paths to a call of a start.
ghost use Rattle.std.specs.Prelude.{◌≡◌, ℕ, ◌<◌, ◌≤◌, length, slice_index_or, IfOk};
ghost use Rattle.peg_check.specs.Dependencies.{DepFits, DependsOn};
ghost use Rattle.peg_check.specs.Distances.{AreDistances, AreNexts, IsNext, distance_at, far_of, nearest_part};
ghost use Rattle.peg_check.specs.WellFormednessDeps.{AreWellFormednessDeps};

use crate::cycles::used_rule;
use crate::dependency::Dependency;
use peg_core::Core;
use std::alloc::{AllocError, Global};

/// Returns, for each form with a distance, the least rule that it can call first on a shortest path. Takes time and
/// memory linear in the number of forms.
pub(crate) fn next_rules(
    alloc: Global,
    core: &Core,
    well_formedness: &[Dependency],
    distances: &[u32],
    start: u32,
) -> Result<Vec<u32>, AllocError>
    requires checked_deps { AreWellFormednessDeps core.now well_formedness.now }
    requires count { length well_formedness.now ≡ length core.now.forms }
    requires distances { AreDistances core.now well_formedness.now start distances.now }
    ensures count { IfOk result (λ nexts. length nexts.items ≡ length core.now.forms) }
    ensures next { IfOk result (λ nexts. AreNexts core.now start distances.now nexts.items) }
{
    let mut nexts = Vec::new(alloc);
    for number in 0..core.len() {
        nexts.push(next_rule(core, well_formedness, distances, &nexts, start, number))?;
    }
    Ok(nexts)
}

// The next rule of a form, from those of its dependencies.
fn next_rule(
    core: &Core,
    well_formedness: &[Dependency],
    distances: &[u32],
    nexts: &[u32],
    start: u32,
    number: u32,
) -> u32
    requires checked_deps { AreWellFormednessDeps core.now well_formedness.now }
    requires deps { length well_formedness.now ≡ length core.now.forms }
    requires distances { AreDistances core.now well_formedness.now start distances.now }
    requires within { number < length core.now.forms }
    requires count { length nexts.now ≡ number }
    requires nexts { AreNexts core.now start distances.now nexts.now }
    ensures { distance_at core.now distances.now number < far_of core.now
        → IsNext core.now start distances.now number result }
{
    match used_rule(core, number) {
        Some(rule) => rule,
        None => least_next(
            well_formedness[number as usize],
            distances,
            nexts,
            distances[number as usize],
        ),
    }
}

// The least next rule of the dependencies that have a distance.
fn least_next(dep: Dependency, distances: &[u32], nexts: &[u32], distance: u32) -> u32
    requires distances { DepFits (length distances.now) dep }
    requires nexts { DepFits (length nexts.now) dep }
    ensures attained { (far : ℕ) → distance ≡ nearest_part far distances.now dep → distance < far
        → (part : ℕ) × DependsOn dep part × (slice_index_or distances.now part far ≡ distance)
        × (slice_index_or nexts.now part 0 ≡ result) }
    ensures least { (far part : ℕ) → DependsOn dep part → slice_index_or distances.now part far ≡ distance
        → result ≤ slice_index_or nexts.now part 0 }
{
    match dep {
        Dependency::Constant(_) => 0,
        Dependency::Alias(part) | Dependency::Star(part) | Dependency::Not(part) =>
            nexts[part as usize],
        Dependency::Seq(first, rest) | Dependency::Choice(first, rest) => {
            if distances[first as usize] != distance {
                nexts[rest as usize]
            } else if distances[rest as usize] != distance {
                nexts[first as usize]
            } else if nexts[first as usize] < nexts[rest as usize] {
                nexts[first as usize]
            } else {
                nexts[rest as usize]
            }
        }
    }
}
