//! Laws of the definitions. Each function does nothing; its contract is the law.
ghost use Rattle.std.specs.Prelude.{◌≡◌, ◌≢◌, ℕ, List, [], codes};
ghost use Rattle.peg_semantics.specs.Rules.{Rule};
ghost use Rattle.peg_tree.specs.Trees.{Trees};
ghost use Rattle.peg_metagrammar.specs.EscapedFigure.{MatchesEscaped, numbered_now, IsEscapedReading};
ghost use Rattle.peg_metagrammar.specs.Nesting.{nesting};
ghost use Rattle.peg_metagrammar.specs.Notation.{Matches, IsReading};
ghost use Rattle.peg_metagrammar.specs.Denotation.{byte_spelled, part};
ghost use Rattle.peg_notation.specs.EscapedNesting.{escaped_nesting};
ghost use Rattle.peg_notation.specs.PrintedFigure.{MatchesPrinted, IsPrintedReading, printed_byte};

/// The reading of a file has at least one rule.
pub fn a_reading_has_a_rule()
    ensures { (file : List ℕ) (rules : List Rule) → IsReading file rules → rules ≢ [] }
{}

/// The metagrammar matches each file that it matched before counts were added, with the same tree apart from rule
/// numbers. Such a file is in the notation with the same reading and the same nesting depth.
pub fn counts_extend_the_notation()
    ensures tree { (file : List ℕ) (end : ℕ) (trees : Trees) → MatchesEscaped file (codes "Grammar") 0 end trees
        → Matches file (codes "Grammar") 0 end (numbered_now trees) }
    ensures nesting { (file : List ℕ) (end : ℕ) (trees : Trees) → MatchesEscaped file (codes "Grammar") 0 end trees
        → nesting (numbered_now trees) ≡ escaped_nesting trees }
    ensures reading { (file : List ℕ) (rules : List Rule) → IsEscapedReading file rules → IsReading file rules }
{}

/// The metagrammar matches each file that the printed figure 1 matches, with the same tree apart from rule numbers. The
/// printed figure has no hexadecimal digits in Char and no counts in Suffix. Such a file is in the notation with the
/// same reading and the same nesting depth. A Char of the printed figure denotes the byte that it is printed to denote.
pub fn extensions_preserve_fords_notation()
    ensures tree { (file : List ℕ) (end : ℕ) (trees : Trees) → MatchesPrinted file (codes "Grammar") 0 end trees
        → Matches file (codes "Grammar") 0 end (numbered_now trees) }
    ensures spelling { (file : List ℕ) (start end : ℕ) (trees : Trees)
        → MatchesPrinted file (codes "Char") start end trees
        → byte_spelled (part file start end) ≡ printed_byte (part file start end) }
    ensures nesting { (file : List ℕ) (end : ℕ) (trees : Trees) → MatchesPrinted file (codes "Grammar") 0 end trees
        → nesting (numbered_now trees) ≡ escaped_nesting trees }
    ensures reading { (file : List ℕ) (rules : List Rule) → IsPrintedReading file rules → IsReading file rules }
{}
