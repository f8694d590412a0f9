//! Reverse dependencies: the forms that depend on a form, and are to be visited again when it changes.
ghost use Rattle.std.specs.Prelude.{◌≡◌, ◌<◌, ◌≤◌, ◌+◌, ◌*◌, ℕ, All, Contains, length, slice_index_or, IfOk, OnOk};
ghost use Rattle.peg_core.specs.Layout.{max_forms};
ghost use Rattle.peg_check.specs.ReverseDeps.{AreChains, HasDependent, KeepsDependents, HasAllDependents};
ghost use Rattle.peg_check.specs.Dependencies.{DependsOn, DepFits};
ghost use Rattle.peg_check.specs.declared.dependency.Dependency.{Dependency};

use crate::dependency::Dependency;
use std::alloc::{AllocError, Global};

/// A form that depends on another one, and the next older entry for that one. Entry n is at index n - 1, and 0 is none.
#[derive(Clone, Copy)]
pub(crate) struct Edge {
    dependent: u32,
    older: u32,
}

/// The newest entry for each form, and the entries of all forms.
#[derive(Drop)]
pub(crate) struct ReverseDeps {
    newest: Vec<u32>,
    entries: Vec<Edge>,
}

/// Returns the reverse dependencies of links. A link adds at most two entries.
pub(crate) fn reverse_deps_of(alloc: Global, deps: &[Dependency]) -> Result<ReverseDeps, AllocError>
    requires few { length deps.now ≤ max_forms }
    requires fit { (dependent : ℕ) (d : Dependency) → dependent < length deps.now
        → DepFits (length deps.now) (slice_index_or deps.now dependent d) }
    ensures chains { IfOk result (λ reverse_deps. AreChains (length deps.now) reverse_deps) }
    ensures dependents { IfOk result (λ reverse_deps. HasAllDependents reverse_deps deps.now) }
{
    let mut reverse_deps = ReverseDeps {
        newest: vec![in alloc; 0; deps.len()]?,
        entries: Vec::new(alloc),
    };
    for (dependent, dep) in deps.iter().enumerate() {
        reverse_deps.add_dependency(*dep, dependent as u32)?;
    }
    Ok(reverse_deps)
}

impl ReverseDeps {
    // Adds an entry for each dependency of a link.
    fn add_dependency(&mut self, dep: Dependency, dependent: u32) -> Result<(), AllocError>
        requires chains { AreChains (length self.old.newest.items) self.old }
        requires fits { DepFits (length self.old.newest.items) dep }
        requires within { dependent < length self.old.newest.items }
        requires room { length self.old.entries.items + 2 ≤ 2 * max_forms }
        ensures chains { OnOk result (AreChains (length self.old.newest.items) self.new) }
        ensures kept { OnOk result (KeepsDependents self.old self.new) }
        ensures added { OnOk result ((part : ℕ) → DependsOn dep part → HasDependent self.new part dependent) }
        ensures few { OnOk result (length self.new.entries.items ≤ length self.old.entries.items + 2) }
    {
        match dep {
            Dependency::Constant(_) => Ok(()),
            Dependency::Alias(part) | Dependency::Star(part) | Dependency::Not(part) => self.add(
                part, dependent,
            ),
            Dependency::Seq(first, rest) | Dependency::Choice(first, rest) => {
                self.add(first, dependent)?;
                self.add(rest, dependent)
            }
        }
    }

    fn add(&mut self, part: u32, dependent: u32) -> Result<(), AllocError>
        requires chains { AreChains (length self.old.newest.items) self.old }
        requires fits { part < length self.old.newest.items }
        requires within { dependent < length self.old.newest.items }
        requires room { length self.old.entries.items < 2 * max_forms }
        ensures chains { OnOk result (AreChains (length self.old.newest.items) self.new) }
        ensures kept { OnOk result (KeepsDependents self.old self.new) }
        ensures added { OnOk result (HasDependent self.new part dependent) }
        ensures more { OnOk result (length self.new.entries.items ≡ length self.old.entries.items + 1) }
    {
        let older = self.newest[part as usize];
        self.entries.push(Edge { dependent, older })?;
        self.newest[part as usize] = self.entries.len() as u32;
        Ok(())
    }

    /// Pushes the forms that depend on a form.
    pub(crate) fn push_dependents(
        &self,
        part: u32,
        pending: &mut Vec<u32>,
    ) -> Result<(), AllocError>
        requires chains { AreChains (length self.now.newest.items) self.now }
        requires within { part < length self.now.newest.items }
        requires forms { All (λ number. number < length self.now.newest.items) pending.old.items }
        ensures dependents { OnOk result ((dependent : ℕ) → HasDependent self.now part dependent
            → Contains pending.new.items dependent) }
        ensures kept { OnOk result ((number : ℕ) → Contains pending.old.items number
            → Contains pending.new.items number) }
        ensures forms { OnOk result (All (λ number. number < length self.now.newest.items) pending.new.items) }
        ensures few { OnOk result (length pending.new.items
            ≤ length pending.old.items + length self.now.entries.items) }
    {
        let mut at = self.newest[part as usize];
        while at > 0 {
            let entry = self.entries[at as usize - 1];
            pending.push(entry.dependent)?;
            at = entry.older;
        }
        Ok(())
    }
}
