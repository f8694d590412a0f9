//! Settled forms. A form is settled if all forms that it depends on are settled, in some number of rounds.
ghost use Rattle.std.specs.Prelude.{◌≡◌, ℕ, ◌<◌, ◌≤◌, true, false, length, slice_index_or};
ghost use Rattle.std.specs.Prelude.{IfOk, MatchBool, MatchOption};
ghost use Rattle.peg_core.specs.Layout.{max_forms};
ghost use Rattle.peg_check.specs.Dependencies.{DepFits};
ghost use Rattle.peg_check.specs.Marks.{is_marked, AllMarked, IsUnmarkedDep, AreSettled, IsNewlyMarked, HasUnmarkedDep};
ghost use Rattle.peg_check.specs.declared.dependency.Dependency.{Dependency};

use crate::dependency::Dependency;
use crate::reverse_deps::reverse_deps_of;
use crate::table::all_numbers;
use std::alloc::{AllocError, Global};

/// Marks the settled forms. Each form is marked at most once, and then the forms that depend on it are visited again.
/// Takes time and memory linear in the number of forms.
pub(crate) fn well_formed_marks(
    alloc: Global,
    well_formedness: &[Dependency],
) -> Result<Vec<bool>, AllocError>
    requires few { length well_formedness.now ≤ max_forms }
    requires fit { (dependent : ℕ) (d : Dependency) → dependent < length well_formedness.now
        → DepFits (length well_formedness.now) (slice_index_or well_formedness.now dependent d) }
    ensures { IfOk result (λ marks. AreSettled well_formedness.now marks.items) }
{
    let reverse_deps = reverse_deps_of(alloc, well_formedness)?;
    let mut marks = vec![in alloc; false; well_formedness.len()]?;
    let mut pending = all_numbers(alloc, well_formedness.len() as u32)?;
    'looks: while let Some(number) = pending.pop() {
        let more = try_mark(well_formedness[number as usize], &mut marks, number);
        if !more {
            continue;
        }
        reverse_deps.push_dependents(number, &mut pending)?;
    }
    Ok(marks)
}

// Marks a form if all its dependencies are marked. Returns whether the form is newly marked.
fn try_mark(dep: Dependency, marks: &mut [bool], number: u32) -> bool
    requires fits { DepFits (length marks.old) dep }
    requires within { number < length marks.old }
    ensures marked { MatchBool result (IsNewlyMarked marks.old dep number marks.new) (marks.new ≡ marks.old) }
    ensures left { is_marked marks.new number ≡ false → HasUnmarkedDep marks.new dep }
{
    if marks[number as usize] {
        return false;
    }
    if first_unmarked_dep(dep, marks).is_some() {
        return false;
    }
    marks[number as usize] = true;
    true
}

/// Returns a dependency of a link that isn't marked, if there is one.
pub(crate) fn first_unmarked_dep(dep: Dependency, marks: &[bool]) -> Option<u32>
    requires { DepFits (length marks.now) dep }
    ensures { MatchOption result (AllMarked marks.now dep) (IsUnmarkedDep marks.now dep) }
{
    match dep {
        Dependency::Constant(_) => None,
        Dependency::Alias(part) | Dependency::Star(part) | Dependency::Not(part) => {
            if marks[part as usize] {
                None
            } else {
                Some(part)
            }
        }
        Dependency::Seq(first, rest) | Dependency::Choice(first, rest) => {
            if !marks[first as usize] {
                Some(first)
            } else if !marks[rest as usize] {
                Some(rest)
            } else {
                None
            }
        }
    }
}

/// Returns the first form that isn't marked, if there is one.
pub(crate) fn first_unmarked(marks: &[bool]) -> Option<u32>
    requires { length marks.now ≤ max_forms }
    ensures { MatchOption result ((number : ℕ) → number < length marks.now → is_marked marks.now number ≡ true)
        (λ number. (number < length marks.now) × (is_marked marks.now number ≡ false)) }
{
    for (number, mark) in marks.iter().enumerate() {
        if !*mark {
            return Some(number as u32);
        }
    }
    None
}
