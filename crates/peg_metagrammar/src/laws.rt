//! Laws of the definitions. Each function does nothing; the contract of the function is the law.
ghost use Rattle.std.specs.Prelude.{◌≡◌, ℕ, List, length};
ghost use Rattle.peg_semantics.specs.Grammar.{CountsAreInRange, IsGrammar};
ghost use Rattle.peg_semantics.specs.Rules.{Rule};
ghost use Rattle.peg_semantics.specs.WellFormed.{IsWellFormedGrammar};
ghost use Rattle.peg_metagrammar.specs.EscapedFigure.{escaped_figure};
ghost use Rattle.peg_metagrammar.specs.Figure.{figure};
ghost use Rattle.peg_metagrammar.specs.Nesting.{max_open};
ghost use Rattle.peg_metagrammar.specs.Notation.{IsReading};

use crate::nesting::MAX_OPEN;

/// The metagrammar has 31 rules.
pub fn the_figure_has_31_rules()
    ensures { length figure ≡ 31 }
{}

/// The metagrammar without counts has 29 rules.
pub fn the_escaped_figure_has_29_rules()
    ensures { length escaped_figure ≡ 29 }
{}

/// The metagrammar is a grammar, and it is well-formed (Ford 2004, section 3.6).
pub fn the_figure_is_well_formed()
    ensures grammar { IsGrammar figure }
    ensures well_formed { IsWellFormedGrammar figure }
{}

/// The counts in the reading of any file are in range.
pub fn the_counts_of_a_reading_are_in_range()
    ensures { (file : List ℕ) (rules : List Rule) → IsReading file rules → CountsAreInRange rules }
{}

/// The limit of open parentheses in code is the limit in the definitions.
pub fn max_nesting_matches_spec()
    ensures { MAX_OPEN ≡ max_open }
{}
