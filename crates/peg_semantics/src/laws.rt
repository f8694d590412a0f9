//! Laws of the definitions, for every grammar and text. Each function does nothing; the contract of the function is the
//! law.
ghost use Rattle.std.specs.Prelude.{◌≡◌, ◌≢◌, ◌↔◌, ℕ, suc, ◌<◌, ◌≤◌, All, Contains, List, [], ◌∷◌, codes, length};
ghost use Rattle.std.specs.Prelude.{None, Some};
ghost use Rattle.peg_semantics.specs.AbstractOutcomes.{Can, CanAll, CanFail, GivesNothing, GivesSomething, OutcomeOf, can_in};
ghost use Rattle.peg_semantics.specs.CutCounts.{cut_counts, cut_rules};
ghost use Rattle.peg_semantics.specs.Depth.{max_cases};
ghost use Rattle.peg_semantics.specs.Examples.{Gives, nested, nested_record, abc_grammar, abc_record, ordered};
ghost use Rattle.peg_semantics.specs.Examples.{ordered_record, repeated_prefix, repeated_prefix_record};
ghost use Rattle.peg_semantics.specs.Examples.{all_can_in, nested_can, abc_can, itself, itself_can, operators, operators_can};
ghost use Rattle.peg_semantics.specs.Examples.{star_of_star, plus_of_empty, star_of_optional};
ghost use Rattle.peg_semantics.specs.Examples.{two_to_four, three_record, too_few_record, four_record, two_to_four_can};
ghost use Rattle.peg_semantics.specs.Form.{Form, Name};
ghost use Rattle.peg_semantics.specs.Rules.{Rule, name_of};
ghost use Rattle.peg_semantics.specs.LoopExamples.{only_rule, star_of_stuck_star, after_optional, after_empty_class};
ghost use Rattle.peg_semantics.specs.LoopExamples.{counted_itself, star_of_count};
ghost use Rattle.peg_semantics.specs.Loops.{IsEmptyLoop, IsLeftCycle, LeftCalls};
ghost use Rattle.peg_semantics.specs.Ranked.{IsRanked};
ghost use Rattle.peg_semantics.specs.Grammar.{IsGrammar, first_bad_count, first_duplicate, first_undefined};
ghost use Rattle.peg_semantics.specs.Furthest.{IsFurthest};
ghost use Rattle.peg_semantics.specs.FurthestPass.{furthest_of};
ghost use Rattle.peg_semantics.specs.Record.{Failed, Matched, Record, IsRecord, Test, record_in, start_record};
ghost use Rattle.peg_semantics.specs.RuleOutcomes.{AreAbstractOutcomes};
ghost use Rattle.peg_semantics.specs.Terminals.{extents_of_terminals};
ghost use Rattle.peg_semantics.specs.WellFormed.{IsWellFormedIn, IsWellFormed, IsWellFormedGrammar, subexpressions};
ghost use Rattle.peg_bytes.specs.Extent.{Extent, between};
ghost use Rattle.peg_tree.specs.Nodes.{RulesBelow};
ghost use Rattle.peg_tree.specs.Trees.{Trees};

/// Records are monotone in the depth: a record in depth n is also the record in depth n + 1.
pub fn records_are_monotone_in_depth()
    ensures { (rules : List Rule) (text : List ℕ) (n : ℕ) (e : Form) (terminal position : ℕ) (r : Record)
        → record_in rules text n e terminal position ≡ Some r
        → record_in rules text (suc n) e terminal position ≡ Some r }
{}

/// Records are unique: one expression has at most one record at one position (Ford 2004, section 3.3: the relation is a
/// function).
pub fn records_are_unique()
    ensures { (rules : List Rule) (text : List ℕ) (e : Form) (terminal position : ℕ) (r s : Record)
        → IsRecord rules text e terminal position r → IsRecord rules text e terminal position s → r ≡ s }
{}

/// One pass over the failed tests, as the code does it, computes their furthest failure.
pub fn one_pass_gives_the_furthest_failure()
    ensures { (tests : List Test) → IsFurthest tests (furthest_of tests).far (furthest_of tests).expected }
{}

/// The definitions give the results of grammars that were worked by hand: result, trees, failed tests, calls and
/// furthest failure.
pub fn the_definitions_agree_with_hand_worked_grammars()
    ensures nested { Gives nested (codes "S") (codes "aab") nested_record 2 (0 ∷ []) }
    ensures abc_grammar { Gives abc_grammar (codes "D") (codes "aabbcc") abc_record 6 (2 ∷ []) }
    ensures ordered { Gives ordered (codes "S") (codes "ab") ordered_record 0 [] }
    ensures repeated_prefix { Gives repeated_prefix (codes "A") (codes "(a)y") repeated_prefix_record 3 (2 ∷ []) }
    ensures three { Gives two_to_four (codes "A") (codes "aaa") three_record 3 (0 ∷ []) }
    ensures too_few { Gives two_to_four (codes "A") (codes "a") too_few_record 1 (0 ∷ []) }
    ensures four { Gives two_to_four (codes "A") (codes "aaaaa") four_record 0 [] }
{}

/// The abstract outcomes agree with grammars that were worked by hand. A rule that is only itself has no outcome in any
/// number of rounds. A star or a plus over a part that can match the empty string is not well-formed.
pub fn the_outcomes_agree_with_hand_worked_grammars()
    ensures nested { all_can_in nested 8 ≡ nested_can }
    ensures abc_grammar { all_can_in abc_grammar 8 ≡ abc_can }
    ensures operators { all_can_in operators 8 ≡ operators_can }
    ensures two_to_four { all_can_in two_to_four 8 ≡ two_to_four_can }
    ensures itself { (n : ℕ) → all_can_in itself n ≡ itself_can }
    ensures star_of_star { ¬ IsWellFormed [] star_of_star }
    ensures plus_of_empty { ¬ IsWellFormed [] plus_of_empty }
    ensures star_of_optional { ¬ IsWellFormed [] star_of_optional }
    ensures well_formed { IsWellFormedGrammar nested }
{}

/// A list of rules is a grammar exactly if none of four faults applies. The faults are: no rule, a duplicate name, a
/// call of an undefined name, and a count out of range.
pub fn accepted_definitions_are_a_grammar()
    ensures { (rules : List Rule) → IsGrammar rules
        ↔ ((rules ≢ []) × (first_duplicate rules ≡ None) × (first_undefined rules ≡ None)
        × (first_bad_count rules ≡ None)) }
{}

/// Every failed test of a record from a start has the number of a terminal in the rules. So has every terminal of a
/// furthest failure.
pub fn every_failed_test_is_of_a_terminal()
    ensures tests { (rules : List Rule) (text : List ℕ) (n start : ℕ) (r : Record)
        → start_record rules text n (name_of rules start) ≡ Some r
        → All (λ (test : Test). test.terminal < length (extents_of_terminals rules)) r.tests }
    ensures furthest { (rules : List Rule) (text : List ℕ) (n start : ℕ) (r : Record) (far : ℕ) (expected : List ℕ)
        → start_record rules text n (name_of rules start) ≡ Some r
        → IsFurthest r.tests far expected
        → All (λ terminal. terminal < length (extents_of_terminals rules)) expected }
{}

/// From a position within the text, every failed test is within the text, and every match ends within the text.
pub fn records_stay_within_the_text()
    ensures tests { (rules : List Rule) (text : List ℕ) (n : ℕ) (e : Form) (terminal position : ℕ) (r : Record)
        → position ≤ length text → record_in rules text n e terminal position ≡ Some r
        → All (λ (test : Test). test.position ≤ length text) r.tests }
    ensures end { (rules : List Rule) (text : List ℕ) (n : ℕ) (e : Form) (terminal position end : ℕ) (trees : Trees)
        (r : Record) → position ≤ length text → record_in rules text n e terminal position ≡ Some r
        → r.result ≡ Matched end trees → end ≤ length text }
{}

/// Every node of a parse tree from a start has the number of a rule of the grammar.
pub fn every_node_is_of_a_rule()
    ensures { (rules : List Rule) (text : List ℕ) (n start : ℕ) (r : Record) (end : ℕ) (trees : Trees)
        → start_record rules text n (name_of rules start) ≡ Some r → r.result ≡ Matched end trees
        → RulesBelow (length rules) trees }
{}

/// Abstract outcomes are monotone: the outcomes in n rounds are among the outcomes in n + 1 rounds.
pub fn abstract_outcomes_are_monotone()
    ensures { (rules : List Rule) (n : ℕ) (e : Form) → CanAll (can_in rules n e) (can_in rules (suc n) e) }
{}

/// Abstract outcomes are sound (Ford 2004, section 3.5): every match ends at its start position or later. A match that
/// consumes nothing implies outcome 0, a longer match implies 1, and a failure implies f.
pub fn results_show_abstract_outcomes()
    ensures onward { (rules : List Rule) (text : List ℕ) (n : ℕ) (e : Form) (terminal position end : ℕ) (trees : Trees)
        (r : Record) → record_in rules text n e terminal position ≡ Some r → r.result ≡ Matched end trees
        → position ≤ end }
    ensures nothing { (rules : List Rule) (text : List ℕ) (n : ℕ) (e : Form) (terminal position : ℕ) (trees : Trees)
        (r : Record) → record_in rules text n e terminal position ≡ Some r → r.result ≡ Matched position trees
        → GivesNothing rules e }
    ensures something { (rules : List Rule) (text : List ℕ) (n : ℕ) (e : Form) (terminal position end : ℕ)
        (trees : Trees)
        (r : Record) → record_in rules text n e terminal position ≡ Some r → r.result ≡ Matched end trees
        → position < end
        → GivesSomething rules e }
    ensures fails { (rules : List Rule) (text : List ℕ) (n : ℕ) (e : Form) (terminal position : ℕ) (r : Record)
        → record_in rules text n e terminal position ≡ Some r → r.result ≡ Failed → CanFail rules e }
{}

/// An expression that is well-formed in n rounds is well-formed in n + 1 rounds.
pub fn well_formed_expressions_are_monotone()
    ensures { (rules : List Rule) (n : ℕ) (e : Form) → IsWellFormedIn rules n e → IsWellFormedIn rules (suc n) e }
{}

/// A well-formed grammar has no empty loop and no left cycle (Ford 2004, section 3.6).
pub fn well_formed_grammars_have_no_loops()
    ensures empty_loops { (rules : List Rule) (rule : ℕ) (span : Extent)
        → IsWellFormedGrammar rules → ¬ IsEmptyLoop rules rule span }
    ensures left_cycles { (rules : List Rule) (path : List ℕ) → IsWellFormedGrammar rules → ¬ IsLeftCycle rules path }
{}

/// A well-formed grammar is complete (Ford 2004, section 3.6). On every text, at every position, every subexpression of
/// every rule and the name of every rule has a record. Every start rule has a record on every text.
pub fn well_formed_grammars_are_complete()
    ensures subexpressions { (rules : List Rule) (text : List ℕ) (rule : Rule) (e : Form) (terminal position : ℕ)
        → IsWellFormedGrammar rules → Contains rules rule → Contains (subexpressions rule.body) e
        → position ≤ length text
        → (r : Record) × IsRecord rules text e terminal position r }
    ensures names { (rules : List Rule) (text : List ℕ) (rule : ℕ) (span : Extent) (terminal position : ℕ)
        → IsWellFormedGrammar rules → rule < length rules → position ≤ length text
        → (r : Record) × IsRecord rules text (Name (name_of rules rule) span) terminal position r }
    ensures starts { (rules : List Rule) (text : List ℕ) (start : ℕ)
        → IsWellFormedGrammar rules → start < length rules
        → (n : ℕ) × (r : Record) × (start_record rules text n (name_of rules start) ≡ Some r) }
{}

/// No record from a start nests deeper than the number of states, the pairs of an expression and a position. Any record
/// from a start is also a record in depth `max_cases`.
pub fn no_record_is_deeper_than_its_states()
    ensures { (rules : List Rule) (text : List ℕ) (n start : ℕ) (r : Record)
        → start_record rules text n (name_of rules start) ≡ Some r
        → start_record rules text (max_cases rules text) (name_of rules start) ≡ Some r }
{}

/// A grammar is well-formed if some outcome table and some ranking of the rules satisfy three conditions. The table is
/// closed under Ford's rules, no star or plus has a part that gives 0, and every rule left-calls only rules of lower
/// rank.
pub fn ranked_grammars_are_well_formed()
    ensures { (rules : List Rule) (judge : OutcomeOf) (rank : ℕ → ℕ)
        → IsGrammar rules → IsRanked rules judge rank → IsWellFormedGrammar rules }
{}

/// Empty loops and left cycles agree with grammars that were worked by hand. In `(''*)*` only the inner star is an
/// empty loop, and an expression after an empty class is not a left call.
pub fn the_loops_agree_with_hand_worked_grammars()
    ensures star_of_star { IsEmptyLoop (only_rule star_of_star) 0 (between 5 12) }
    ensures plus_of_empty { IsEmptyLoop (only_rule plus_of_empty) 0 (between 5 10) }
    ensures star_of_optional { IsEmptyLoop (only_rule star_of_optional) 0 (between 5 13) }
    ensures inner { IsEmptyLoop star_of_stuck_star 0 (between 6 9) }
    ensures outer { ¬ IsEmptyLoop star_of_stuck_star 0 (between 5 11) }
    ensures after_optional { IsLeftCycle after_optional (0 ∷ 1 ∷ []) }
    ensures after_empty_class { ¬ LeftCalls after_empty_class 0 0 }
    ensures itself { IsLeftCycle itself (0 ∷ []) }
    ensures counted_itself { IsLeftCycle counted_itself (0 ∷ []) }
    ensures star_of_count { IsEmptyLoop star_of_count 0 (between 5 16) }
{}

/// Cut counts keep the abstract outcomes of each expression, in each round, and so those of the rules.
pub fn cut_counts_keep_abstract_outcomes()
    ensures rounds { (rules : List Rule) (n : ℕ) (e : Form)
        → can_in (cut_rules rules) n (cut_counts e) ≡ can_in rules n e }
    ensures rules { (rules : List Rule) (cans : List Can)
        → (AreAbstractOutcomes (cut_rules rules) cans ↔ AreAbstractOutcomes rules cans) }
{}

/// Rules with cut counts are a well-formed grammar exactly if the rules are, and they have the same loops.
pub fn cut_counts_keep_well_formedness()
    ensures grammar { (rules : List Rule) → IsGrammar rules → IsGrammar (cut_rules rules) }
    ensures well_formed { (rules : List Rule) → (IsWellFormedGrammar (cut_rules rules) ↔ IsWellFormedGrammar rules) }
    ensures empty_loops { (rules : List Rule) (rule : ℕ) (span : Extent)
        → (IsEmptyLoop (cut_rules rules) rule span ↔ IsEmptyLoop rules rule span) }
    ensures left_cycles { (rules : List Rule) (path : List ℕ)
        → (IsLeftCycle (cut_rules rules) path ↔ IsLeftCycle rules path) }
{}
