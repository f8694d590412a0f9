//! What abstract outcomes say of records (Ford 2004, section 3.5).
ghost use Rattle.std.specs.Prelude.{◌↔◌, List, IsTrue};
ghost use Rattle.peg_check.specs.Cans.{can_of};
ghost use Rattle.peg_semantics.specs.Form.{Form};
ghost use Rattle.peg_semantics.specs.RuleOutcomes.{IsAbstractOutcome};
ghost use Rattle.peg_semantics.specs.Rules.{Rule};
ghost use Rattle.peg_lint.specs.Excluded.{CannotFail, CannotMatch};
ghost use Rattle.peg_lint.specs.Never.{NeverFails, NeverMatches};

use crate::outcomes::succeeds;
use peg_check::Can;
use peg_grammar::laws::results_show_abstract_outcomes;

/// What the outcomes of an expression exclude never happens.
pub(crate) fn excluded_outcomes_never_happen()
    ensures matches { (rules : List Rule) (e : Form) → CannotMatch rules e → NeverMatches rules e }
    ensures fails { (rules : List Rule) (e : Form) → CannotFail rules e → NeverFails rules e }
{
    results_show_abstract_outcomes();
}

/// Returns whether these outcomes exclude a match.
pub(crate) fn never_matches(can: Can) -> bool
    ensures { (rules : List Rule) (e : Form) → IsAbstractOutcome rules e (can_of can)
        → (IsTrue result ↔ CannotMatch rules e) }
{
    !succeeds(can)
}

/// Returns whether these outcomes exclude a failure.
pub(crate) fn never_fails(can: Can) -> bool
    ensures { (rules : List Rule) (e : Form) → IsAbstractOutcome rules e (can_of can)
        → (IsTrue result ↔ CannotFail rules e) }
{
    !can.fails
}
