//! Whether a grammar is well-formed, and why not.
ghost use Rattle.std.specs.Prelude.{◌≡◌, ◌↔◌, ℕ, ◌<◌, ◌≤◌, ⊤, List, length, slice_index_or, MatchOption};
ghost use Rattle.std.specs.Prelude.{IfOk, IfErr, IsErrAnd, IsErrOf, IsOk, OnOk};
ghost use Rattle.peg_core.specs.CoreParts.{AreCoreFormsOf};
ghost use Rattle.peg_core.specs.Layout.{bodies_of, max_forms};
ghost use Rattle.peg_check.specs.Exact.{IsExactTable};
ghost use Rattle.peg_check.specs.EmptyLoops.{HasNoLoop};
ghost use Rattle.peg_core.specs.CoreLoops.{IsCoreLeftCycle};
ghost use Rattle.peg_check.specs.LeastCycles.{IsLeastCycle, NamesLeastCoreCycle, NamesLeastCycle};
ghost use Rattle.peg_check.specs.FirstLoops.{NamesFirstCoreLoop, NamesFirstLoop};
ghost use Rattle.peg_check.specs.Verdicts.{AreWellFormed, AreWellFormedIn, HasEmptyLoop, HasNoEmptyLoop};
ghost use Rattle.peg_check.specs.Verdicts.{HasNoLeftCycle, IsFaultOf, IsIllFormedBy, IsSimpleLeftCycle, NamesRules};
ghost use Rattle.peg_check.specs.Verdicts.{NamesEmptyLoop, NamesLeftCycle};
ghost use Rattle.peg_semantics.specs.Rules.{Rule};
ghost use Rattle.peg_semantics.specs.WellFormed.{IsWellFormedGrammar};
ghost use Rattle.peg_semantics.specs.WrittenLoops.{SpansNameLoops};

use crate::cycles::cycle_from;
use crate::least_cycle::least_cycle;
use crate::loops::{Loop, empty_loop};
use crate::marks::{first_unmarked, well_formed_marks};
use crate::well_formedness::well_formedness_deps;
use crate::{CheckFault, Table, table_of};
use peg_core::Core;
use std::alloc::{AllocError, Global};

/// The core forms of a well-formed grammar (Ford 2004, section 3.6). Each of them is well-formed in at most as many
/// rounds as there are forms.
#[derive(Debug, Drop)]
pub struct Checked {
    core: Core,
    pub ghost well_formed: { ∥ AreWellFormedIn (length core.forms) core ∥₁ },
}

impl Checked {
    /// Returns the core forms. Takes constant time.
    pub fn core(&self) -> &Core
        ensures { result.now ≡ self.now.core }
    {
        &self.core
    }
}

/// Checks that each core form is well-formed (Ford 2004, section 3.6). The error names the first empty loop in written
/// order: rules in order, an expression before its parts, and parts from left to right. If there is none, it names the
/// shortest left cycle from the smallest rule on a left cycle. Of several, it names the one with the smallest rule
/// numbers in order. The error is `Memory` if an allocation fails.
///
/// A loop is named by its rule and its span. That it is the first one of the rule as written is promised for rules in
/// which no two stars or pluses have the same span. In a grammar file they never have.
///
/// Takes time and memory linear in the number of forms.
///
/// # Example
///
/// ```
/// let grammar = Grammar::new(alloc, read(alloc, b"S <- S 'a' / 'b'")?)?;
/// let fault = check(alloc, desugar(alloc, &grammar)?).unwrap_err();
/// assert!(matches!(fault, CheckFault::LeftRecursion { .. }));
/// ```
pub fn check(alloc: Global, core: Core) -> Result<Checked, CheckFault>
    ensures accepted { IfOk result (λ checked. checked.core ≡ core) }
    ensures well_formed { OnOk result (AreWellFormed core) }
    ensures rounds { OnOk result (AreWellFormedIn (length core.forms) core) }
    ensures refused { IfErr result (IsFaultOf core) }
    ensures named { IfErr result (NamesRules (length core.bodies)) }

    // An accepted grammar has no empty loop and no left cycle. Unless an allocation fails, each result is returned
    // exactly if it is true.
    ensures no_empty_loop { OnOk result (HasNoEmptyLoop core) }
    ensures no_left_cycle { OnOk result (HasNoLeftCycle core) }
    ensures accepted_where { ¬ IsErrOf result CheckFault.Memory → (IsOk result ↔ AreWellFormed core) }
    ensures empty_loop_where { ¬ IsErrOf result CheckFault.Memory
        → (IsErrAnd result NamesEmptyLoop ↔ HasEmptyLoop core) }
    ensures left_cycle_where { ¬ IsErrOf result CheckFault.Memory
        → (IsErrAnd result NamesLeftCycle ↔ (HasNoEmptyLoop core × ¬ AreWellFormed core)) }

    // For the core forms of a grammar, the result is true of the grammar as written.
    ensures grammar { (rules : List Rule) → AreCoreFormsOf rules core → OnOk result (IsWellFormedGrammar rules) }
    ensures grammar_refused { (rules : List Rule) → AreCoreFormsOf rules core → IfErr result (IsIllFormedBy rules) }

    // The empty loop that an error names is the first one, and the left cycle is the least of the shortest ones from
    // the least rule on one. Both are so in the core forms and in the rules as written.
    ensures first_core_loop { IfErr result (NamesFirstCoreLoop (bodies_of core)) }
    ensures least_core_cycle { IfErr result (NamesLeastCoreCycle (bodies_of core)) }
    ensures first_loop { (rules : List Rule) → AreCoreFormsOf rules core → SpansNameLoops rules
        → IfErr result (NamesFirstLoop rules) }
    ensures least_cycle { (rules : List Rule) → AreCoreFormsOf rules core → IfErr result (NamesLeastCycle rules) }
{
    check_core(alloc, &core)?;
    Ok(Checked { core })
}

// Succeeds if each core form is well-formed, and returns the reason otherwise.
fn check_core(alloc: Global, core: &Core) -> Result<(), CheckFault>
    ensures well_formed { OnOk result (AreWellFormedIn (length core.now.forms) core.now) }
    ensures refused { IfErr result (IsFaultOf core.now) }
    ensures named { IfErr result (NamesRules (length core.now.bodies)) }
    ensures no_empty_loop { OnOk result (HasNoEmptyLoop core.now) }
    ensures first_core_loop { IfErr result (NamesFirstCoreLoop (bodies_of core.now)) }
    ensures least_core_cycle { IfErr result (NamesLeastCoreCycle (bodies_of core.now)) }
{
    let table = table_of(alloc, core)?;
    match empty_loop(alloc, core, &table)? {
        Some(Loop { rule, span }) => Err(CheckFault::EmptyLoop { rule, span }),
        None => match left_cycle(alloc, core, &table)? {
            Some(path) => Err(CheckFault::LeftRecursion { path }),
            None => Ok(()),
        },
    }
}

// The least left cycle, unless all forms are well-formed.
fn left_cycle(alloc: Global, core: &Core, table: &Table) -> Result<Option<Vec<u32>>, AllocError>
    requires table { IsExactTable core.now table.now }
    requires loops { HasNoLoop core.now }
    ensures { IfOk result (λ found.
        MatchOption found (AreWellFormedIn (length core.now.forms) core.now)
        (λ path. IsSimpleLeftCycle (bodies_of core.now) path.items
        × IsLeastCycle (IsCoreLeftCycle (bodies_of core.now)) path.items)) }
{
    let well_formedness = well_formedness_deps(alloc, core, table)?;
    let marks = well_formed_marks(alloc, &well_formedness)?;
    match first_unmarked(&marks) {
        None => Ok(None),
        Some(number) => {
            // A cycle exists, so the search below finds one.
            let _found = cycle_from(alloc, core, &well_formedness, &marks, number)?;
            match least_cycle(alloc, core, &well_formedness)? {
                Some(path) => Ok(Some(path)),
                None => unreachable!(),
            }
        }
    }
}
