//! Laws of the marked grammar, for every grammar and text. Each function does nothing; the contract of the function is
//! the law.
ghost use Rattle.std.specs.Prelude.{◌≡◌, ◌≢◌, ℕ, ◌+◌, ◌^◌, ◌<◌, ◌≤◌, AllPairs, List, Some, codes, length};
ghost use Rattle.peg_bytes.specs.Extent.{between};
ghost use Rattle.peg_diagnostics.specs.Attempts.{Attempt, AreAttempts, IsWithin, ShowAttempts, attempts_in, has_attempt};
ghost use Rattle.peg_diagnostics.specs.Attempts.{has_call, shown_by};
ghost use Rattle.peg_diagnostics.specs.Diagnostic.{HaveNoMark};
ghost use Rattle.peg_diagnostics.specs.Marked.{alternatives, alternatives_of_rules, extents_of_alternatives, mark};
ghost use Rattle.peg_diagnostics.specs.Marked.{marked_rules, marker_name, markers_of_rules};
ghost use Rattle.peg_diagnostics.specs.MarkedExamples.{guarded, guarded_attempts, nested, nested_attempts, nested_marked};
ghost use Rattle.peg_diagnostics.specs.MarkedExamples.{nested_result};
ghost use Rattle.peg_diagnostics.specs.MarkedResults.{IsMarkedResult};
ghost use Rattle.peg_semantics.specs.Form.{Form, Name};
ghost use Rattle.peg_semantics.specs.Grammar.{IsGrammar};
ghost use Rattle.peg_semantics.specs.Record.{Record, RuleCall, IsRecord, record_in, start_record};
ghost use Rattle.peg_semantics.specs.Rules.{Rule, Meaning, meaning_of, names};
ghost use Rattle.peg_semantics.specs.WellFormed.{IsWellFormedGrammar};

/// The definitions give the marked rules of a grammar that was worked by hand, and the tree of a text. They give the
/// attempts of texts for this grammar and for one with a predicate, whose text fails.
pub fn the_definitions_agree_with_a_hand_worked_marked_grammar()
    ensures rules { marked_rules nested ≡ nested_marked }
    ensures count { length (extents_of_alternatives nested) ≡ alternatives_of_rules nested }
    ensures result { (r : Record) × IsRecord (marked_rules nested) (codes "cd") (Name (codes "S") (between 0 0)) 0 0 r
        × (r.result ≡ nested_result) }
    ensures attempts { (r : Record) × AreAttempts nested (codes "cd") (codes "S") r nested_attempts }
    ensures in_predicates { (r : Record) × AreAttempts guarded (codes "b") (codes "S") r guarded_attempts }
{}

/// The marked grammar of a grammar is a grammar if no name of a rule has a `!`, and it is well-formed if the rules are
/// (Ford 2004, section 3.6).
pub fn the_marked_grammar_is_a_well_formed_grammar()
    ensures grammar { (rules : List Rule) → IsGrammar rules → HaveNoMark rules
        → markers_of_rules rules ≤ 2 ^ 64 → IsGrammar (marked_rules rules) }
    ensures well_formed { (rules : List Rule) → IsGrammar rules
        → AllPairs (λ (a b : List ℕ). a ≢ b) (names (marked_rules rules)) → markers_of_rules rules ≤ 2 ^ 64
        → IsWellFormedGrammar rules → IsWellFormedGrammar (marked_rules rules) }
{}

/// The marked grammar keeps results, if all its names are distinct. An expression with a record has a marked form with
/// a record in the marked grammar. Both fail, or both match with the same end, and the trees without the markers are
/// those of the expression. Marker k has the number of the k-th rule after those of the grammar.
pub fn the_marked_grammar_keeps_results()
    ensures expressions { (rules : List Rule) (text : List ℕ) (n : ℕ) (e : Form)
        (number terminal other position : ℕ) (r : Record)
        → AllPairs (λ (a b : List ℕ). a ≢ b) (names (marked_rules rules)) → markers_of_rules rules ≤ 2 ^ 64
        → number + alternatives e ≤ alternatives_of_rules rules
        → record_in rules text n e terminal position ≡ Some r
        → (m : Record) × IsRecord (marked_rules rules) text (mark number e) other position m
        × IsMarkedResult (length rules) r.result m.result }
    ensures starts { (rules : List Rule) (text : List ℕ) (n : ℕ) (start : List ℕ) (r : Record)
        → AllPairs (λ (a b : List ℕ). a ≢ b) (names (marked_rules rules)) → markers_of_rules rules ≤ 2 ^ 64
        → start_record rules text n start ≡ Some r
        → (m : Record) × IsRecord (marked_rules rules) text (Name start (between 0 0)) 0 0 m
        × IsMarkedResult (length rules) r.result m.result }
    ensures markers { (rules : List Rule) (marker : ℕ)
        → AllPairs (λ (a b : List ℕ). a ≢ b) (names (marked_rules rules)) → markers_of_rules rules ≤ 2 ^ 64
        → marker < markers_of_rules rules
        → (m : Meaning) × (meaning_of (marked_rules rules) (marker_name marker) ≡ Some m)
        × (m.rule ≡ length rules + marker) }
{}

/// The calls of the marked grammar show the attempts of the grammar as written, if all names of the marked grammar are
/// distinct. The record of an expression has a marked record with the same result. The calls of the marked record are
/// of the rules that show the attempts of the expression, in order. So a rule or an alternative is tried or matches, in
/// predicates too, if and only if the rule that shows it is called.
pub fn the_calls_of_the_marked_grammar_are_the_attempts()
    ensures expressions { (rules : List Rule) (text : List ℕ) (n : ℕ) (e : Form)
        (number terminal other position : ℕ) (r : Record)
        → AllPairs (λ (a b : List ℕ). a ≢ b) (names (marked_rules rules)) → markers_of_rules rules ≤ 2 ^ 64
        → number + alternatives e ≤ alternatives_of_rules rules
        → record_in rules text n e terminal position ≡ Some r
        → (m : Record) × IsRecord (marked_rules rules) text (mark number e) other position m
        × IsMarkedResult (length rules) r.result m.result
        × ShowAttempts rules (attempts_in rules text n e number terminal position) m.calls }
    ensures starts { (rules : List Rule) (text start : List ℕ) (r : Record) (attempts : List Attempt)
        → AllPairs (λ (a b : List ℕ). a ≢ b) (names (marked_rules rules)) → markers_of_rules rules ≤ 2 ^ 64
        → AreAttempts rules text start r attempts
        → (m : Record) × IsRecord (marked_rules rules) text (Name start (between 0 0)) 0 0 m
        × IsMarkedResult (length rules) r.result m.result × ShowAttempts rules attempts m.calls }
    ensures each { (rules : List Rule) (attempts : List Attempt) (calls : List RuleCall) (attempt : Attempt)
        → ShowAttempts rules attempts calls → IsWithin (length rules) (alternatives_of_rules rules) attempt
        → has_attempt attempt attempts
        ≡ has_call (shown_by (length rules) (alternatives_of_rules rules) attempt) calls }
{}
