//! A postorder of the well-formedness dependencies.
ghost use Rattle.std.specs.Prelude.{◌≡◌, ℕ, ◌+◌, ◌<◌, ◌≤◌, All, length, slice_index_or, IfOk, OnOk};
ghost use Rattle.peg_core.specs.Layout.{max_forms};
ghost use Rattle.peg_check.specs.Dependencies.{DepFits};
ghost use Rattle.peg_check.specs.Visits.{AreVisits};
ghost use Rattle.peg_check.specs.declared.dependency.Dependency.{Dependency};

use crate::dependency::Dependency;
use std::alloc::{AllocError, Global};

/// A visit of the form with this number.
#[derive(Clone, Copy)]
pub(crate) struct Visit {
    number: u32,
    kind: VisitKind,
}

/// Whether a visit enters a form, or exits it after all its dependencies were entered.
#[derive(Clone, Copy)]
pub(crate) enum VisitKind {
    Enter,
    Exit,
}

/// Returns the forms in postorder. The dependencies of a form come before it, except for those on a cycle with it.
/// Takes time and memory linear in the number of forms.
pub(crate) fn postorder(
    alloc: Global,
    well_formedness: &[Dependency],
) -> Result<Vec<u32>, AllocError>
    requires few { length well_formedness.now ≤ max_forms }
    requires fit { (dependent : ℕ) (d : Dependency) → dependent < length well_formedness.now
        → DepFits (length well_formedness.now) (slice_index_or well_formedness.now dependent d) }
    ensures { IfOk result (λ order. All (λ number. number < length well_formedness.now) order.items) }
{
    let mut order = Vec::new(alloc);
    let mut entered = vec![in alloc; false; well_formedness.len()]?;
    let mut visits = entered_all(alloc, well_formedness.len())?;
    'visits: while let Some(Visit { number, kind }) = visits.pop() {
        if matches!(kind, VisitKind::Exit) {
            order.push(number)?;
            continue;
        }
        if entered[number as usize] {
            continue;
        }
        entered[number as usize] = true;
        visit_parts(well_formedness[number as usize], number, &mut visits)?;
    }
    Ok(order)
}

// One visit for each form.
fn entered_all(alloc: Global, count: usize) -> Result<Vec<Visit>, AllocError>
    requires { count ≤ max_forms }
    ensures { IfOk result (λ visits. AreVisits count visits.items) }
{
    let mut visits = Vec::new(alloc);
    for number in 0..count {
        visits.push(enter(number as u32))?;
    }
    Ok(visits)
}

fn enter(number: u32) -> Visit
    ensures { result.number ≡ number }
{
    Visit {
        number,
        kind: VisitKind::Enter,
    }
}

// Pushes the visit that exits a form, then those that enter its dependencies.
fn visit_parts(dep: Dependency, number: u32, visits: &mut Vec<Visit>) -> Result<(), AllocError>
    ensures fit { OnOk result ((count : ℕ) → number < count → DepFits count dep → AreVisits count visits.old.items
        → AreVisits count visits.new.items) }
    ensures few { OnOk result (length visits.new.items ≤ length visits.old.items + 3) }
{
    visits.push(Visit {
        number,
        kind: VisitKind::Exit,
    })?;
    match dep {
        Dependency::Constant(_) => {}
        Dependency::Alias(part) | Dependency::Star(part) | Dependency::Not(part) => visits.push(
            enter(part),
        )?,
        Dependency::Seq(first, rest) | Dependency::Choice(first, rest) => {
            visits.push(enter(first))?;
            visits.push(enter(rest))?;
        }
    }
    Ok(())
}
