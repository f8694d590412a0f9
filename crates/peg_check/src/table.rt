//! The table of the abstract outcomes of core forms.
ghost use Rattle.std.specs.Prelude.{◌≡◌, ℕ, ◌<◌, ◌≤◌, List, All, Contains, length, slice_get, IfOk, Some};
ghost use Rattle.peg_core.specs.CoreParts.{AreCoreFormsOf};
ghost use Rattle.peg_core.specs.Layout.{max_forms};
ghost use Rattle.peg_check.specs.Cans.{can_of};
ghost use Rattle.peg_check.specs.Exact.{IsExactTable, cans_of};
ghost use Rattle.peg_semantics.specs.RuleOutcomes.{AreAbstractOutcomes};
ghost use Rattle.peg_semantics.specs.Rules.{Rule};

use crate::Can;
use crate::dependency::dependencies_of;
use crate::fixpoint::update;
use crate::reverse_deps::reverse_deps_of;
use peg_core::Core;
use std::alloc::{AllocError, Global};
use std::marker::Model;

// No outcomes.
const UNKNOWN: Can = Can {
    nothing: false,
    something: false,
    fails: false,
};

/// The abstract outcomes of each core form of a grammar, by number.
#[derive(Debug, Drop)]
pub struct Table {
    entries: Vec<Can>,
}

impl Model for Table {
    ghost use Rattle.std.specs.Prelude.{length, map, ◌≤◌};
    ghost use Rattle.peg_core.specs.Layout.{max_forms};
    ghost use Rattle.peg_check.specs.Cans.{Cans, can_of, cans_code};

    ghost Value = { Cans };

    ghost coded = { cans_code };

    ghost view = { λ table. map can_of table.entries.items };

    ghost invariant = { λ table. length table.entries.items ≤ max_forms };
}

impl Table {
    /// Returns the number of core forms. Takes constant time.
    pub fn len(&self) -> u32
        ensures count { result ≡ length self.now }
        ensures most { result ≤ max_forms }
    {
        self.entries.len() as u32
    }

    /// Returns the outcomes of the core form with a number. Takes constant time.
    pub fn of(&self, number: u32) -> Can
        requires { number < length self.now }
        ensures { slice_get self.now number ≡ Some (can_of result) }
    {
        self.entries[number as usize]
    }
}

/// Computes the outcomes of a grammar's core forms by Ford's rules. Each of the three outcomes is added to a form at
/// most once, and then the forms that depend on it are visited again. So this takes time and memory linear in the
/// number of forms. The only error is a failed allocation.
pub fn table_of(alloc: Global, core: &Core) -> Result<Table, AllocError>
    ensures exact { IfOk result (λ table. IsExactTable core.now table) }

    // For the core forms of a grammar, the entries of the rules' bodies are the outcomes of the rules' expressions.
    ensures rules { IfOk result (λ table. (rules : List Rule) → AreCoreFormsOf rules core.now
        → AreAbstractOutcomes rules (cans_of core.now.bodies table)) }
{
    let count = core.len();
    let deps = dependencies_of(alloc, core)?;
    let reverse_deps = reverse_deps_of(alloc, &deps)?;
    let mut entries = vec![in alloc; UNKNOWN; deps.len()]?;
    let mut pending = all_numbers(alloc, count)?;
    'looks: while let Some(number) = pending.pop() {
        let more = update(deps[number as usize], &mut entries, number);
        if !more {
            continue;
        }
        reverse_deps.push_dependents(number, &mut pending)?;
    }
    Ok(Table { entries })
}

// All numbers below `count`, the smallest last.
pub(crate) fn all_numbers(alloc: Global, count: u32) -> Result<Vec<u32>, AllocError>
    ensures all { IfOk result (λ numbers. (number : ℕ) → number < count → Contains numbers.items number) }
    ensures within { IfOk result (λ numbers. All (λ number. number < count) numbers.items) }
{
    let mut numbers = Vec::new(alloc);
    let mut number = count;
    while number > 0 {
        number -= 1;
        numbers.push(number)?;
    }
    Ok(numbers)
}
