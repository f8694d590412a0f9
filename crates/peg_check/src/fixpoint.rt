//! One update of the known outcomes of a form, from those of its dependencies.
ghost use Rattle.std.specs.Prelude.{◌≡◌, ◌<◌, ◌+◌, length};
ghost use Rattle.std.specs.Bool.{OnFalse, OnTrue};
ghost use Rattle.peg_check.specs.Dependencies.{DepFits};
ghost use Rattle.peg_check.specs.Fixpoint.{updated_at, unknown_in};

use crate::Can;
use crate::dependency::{Dependency, outcome_from};

/// Adds the outcomes of a form that follow from its dependencies. Returns whether any of them is new.
pub(crate) fn update(dep: Dependency, cans: &mut [Can], number: u32) -> bool
    requires fits { DepFits (length cans.old) dep }
    requires within { number < length cans.old }
    ensures looked { cans.new ≡ updated_at cans.old dep number }
    ensures same { OnFalse result (cans.new ≡ cans.old) }
    ensures more { OnTrue result (unknown_in cans.new < unknown_in cans.old) }
{
    let known = cans[number as usize];
    let can = known.union(outcome_from(dep, cans));
    if can == known {
        return false;
    }
    cans[number as usize] = can;
    true
}
