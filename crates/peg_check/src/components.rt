//! The strongly connected components of the well-formedness dependencies (Kosaraju's algorithm).
ghost use Rattle.std.specs.Prelude.{◌≡◌, ℕ, ◌<◌, ◌≤◌, ◌⊎◌, true, length, slice_get, slice_index_or};
ghost use Rattle.std.specs.Prelude.{IfOk, OnOk, List, Some};
ghost use Rattle.peg_core.specs.CoreForm.{Rule};
ghost use Rattle.peg_core.specs.Layout.{form_at, max_forms};
ghost use Rattle.peg_check.specs.ReverseDeps.{AreChains, HasAllDependents};
ghost use Rattle.peg_check.specs.Dependencies.{DepFits};
ghost use Rattle.peg_check.specs.Distances.{AreOrdered, label_at};
ghost use Rattle.peg_check.specs.Marks.{is_marked};
ghost use Rattle.peg_check.specs.declared.dependency.Dependency.{Dependency};

use crate::cycles::used_rule;
use crate::dependency::Dependency;
use crate::reverse_deps::{ReverseDeps, reverse_deps_of};
use crate::search_order::postorder;
use peg_core::Core;
use std::alloc::{AllocError, Global};

/// Returns the label of each form's component, such that no form depends on one with a greater label. The forms are
/// visited in reverse postorder. All forms that depend on the visited one, directly or indirectly, and have no label
/// yet are of its component. Takes time and memory linear in the number of forms.
pub(crate) fn strongly_connected_components(
    alloc: Global,
    well_formedness: &[Dependency],
) -> Result<Vec<usize>, AllocError>
    requires few { length well_formedness.now ≤ max_forms }
    requires fit { (dependent : ℕ) (d : Dependency) → dependent < length well_formedness.now
        → DepFits (length well_formedness.now) (slice_index_or well_formedness.now dependent d) }
    ensures count { IfOk result (λ labels. length labels.items ≡ length well_formedness.now) }
    ensures ordered { IfOk result (λ labels. AreOrdered well_formedness.now labels.items) }
{
    let reverse_deps = reverse_deps_of(alloc, well_formedness)?;
    let mut order = postorder(alloc, well_formedness)?;
    let mut labels = vec![in alloc; 0usize; well_formedness.len()]?;
    'roots: while let Some(root) = order.pop() {
        label_reachable(alloc, &reverse_deps, &mut labels, order.len() + 1, root)?;
    }
    Ok(labels)
}

// Labels a form, and the forms that depend on it directly or indirectly, unless they have a label. Earlier labels are
// greater, and 0 is no label.
fn label_reachable(
    alloc: Global,
    reverse_deps: &ReverseDeps,
    labels: &mut [usize],
    label: usize,
    root: u32,
) -> Result<(), AllocError>
    requires chains { AreChains (length labels.old) reverse_deps.now }
    requires few { length labels.old ≤ max_forms }
    requires within { root < length labels.old }
    requires some { 0 < label }
    requires earlier { (number : ℕ) → (label_at labels.old number ≡ 0) ⊎ (label ≤ label_at labels.old number) }
    ensures count { OnOk result (length labels.new ≡ length labels.old) }
    ensures earlier { OnOk result ((number : ℕ)
        → (label_at labels.new number ≡ 0) ⊎ (label ≤ label_at labels.new number)) }
    ensures ordered { OnOk result ((well_formedness : List Dependency) → length well_formedness ≡ length labels.old
        → HasAllDependents reverse_deps.now well_formedness → AreOrdered well_formedness labels.old
        → AreOrdered well_formedness labels.new) }
{
    let mut pending = vec![in alloc; root; 1]?;
    'dependents: while let Some(number) = pending.pop() {
        if labels[number as usize] > 0 {
            continue;
        }
        labels[number as usize] = label;
        reverse_deps.push_dependents(number, &mut pending)?;
    }
    Ok(())
}

/// Returns, for each rule, whether it has a call in the component of its own body. Each rule on a left cycle has one.
pub(crate) fn called_in_own_component(
    alloc: Global,
    core: &Core,
    labels: &[usize],
) -> Result<Vec<bool>, AllocError>
    requires { length labels.now ≡ length core.now.forms }
    ensures count { IfOk result (λ rules. length rules.items ≡ length core.now.bodies) }
    ensures called { IfOk result (λ rules. (number rule body : ℕ) → number < length core.now.forms
        → form_at core.now.forms number ≡ Rule rule → slice_get core.now.bodies rule ≡ Some body
        → label_at labels.now number ≡ label_at labels.now body → is_marked rules.items rule ≡ true) }
{
    let mut rules = vec![in alloc; false; core.rules() as usize]?;
    for number in 0..core.len() {
        if let Some(rule) = used_rule(core, number) {
            if labels[number as usize] == labels[core.body(rule) as usize] {
                rules[rule as usize] = true;
            }
        }
    }
    Ok(rules)
}
