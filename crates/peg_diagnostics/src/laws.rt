//! Laws of the diagnostic grammar, for every grammar and text. Each function does nothing; the contract of the function
//! is the law.
ghost use Rattle.std.specs.Prelude.{◌≡◌, ◌≢◌, ◌↔◌, ℕ, ◌<◌, suc, All, AllPairs, Contains, List, [], ◌∷◌, Some};
ghost use Rattle.std.specs.Prelude.{codes, length};
ghost use Rattle.std.specs.List.Sorted.{IsStrictlyIncreasing};
ghost use Rattle.peg_bytes.specs.Extent.{Extent, between};
ghost use Rattle.peg_diagnostics.specs.Blame.{blame_in, HasBlame, StartHasBlame};
ghost use Rattle.peg_diagnostics.specs.BlameExamples.{guarded, keyword, predicate_blame, literal_blame, matched_blame};
ghost use Rattle.peg_diagnostics.specs.BlameExamples.{keyword_blame, identifier_blame};
ghost use Rattle.peg_diagnostics.specs.Diagnosis.{Diagnosis};
ghost use Rattle.peg_diagnostics.specs.Diagnostic.{diagnostic_rules, loud, HaveNoMark};
ghost use Rattle.peg_diagnostics.specs.FailedItems.{ItemFails};
ghost use Rattle.peg_diagnostics.specs.Items.{extents_of_items, item_meaning_of};
ghost use Rattle.peg_diagnostics.specs.ItemTests.{item_of_terminal, item_terminals, item_tests};
ghost use Rattle.peg_diagnostics.specs.Placed.{IsPlaced};
ghost use Rattle.peg_semantics.specs.Form.{Form, Name};
ghost use Rattle.peg_semantics.specs.Grammar.{IsGrammar};
ghost use Rattle.peg_semantics.specs.Record.{Record, IsRecord, Test, record_in, start_record};
ghost use Rattle.peg_semantics.specs.Rules.{Rule, Meaning, meaning_of, names};
ghost use Rattle.peg_semantics.specs.WellFormed.{IsWellFormedGrammar};

/// Blame is monotone in the depth: a blame in depth n is also the blame in depth n + 1.
pub fn blame_is_monotone_in_depth()
    ensures { (rules : List Rule) (text : List ℕ) (n : ℕ) (e : Form) (item position : ℕ) (r : Record)
        → blame_in rules text n e item position ≡ Some r
        → blame_in rules text (suc n) e item position ≡ Some r }
{}

/// Blame is unique: one expression has at most one blame at one position.
pub fn blame_is_unique()
    ensures { (rules : List Rule) (text : List ℕ) (e : Form) (item position : ℕ) (r s : Record)
        → HasBlame rules text e item position r → HasBlame rules text e item position s → r ≡ s }
{}

/// Each failed test of a blame is the failure of an item: the expression of the item has a record at the position of the
/// test, and the record fails (Ford 2004, section 3.3). So what a message names as expected wasn't there.
pub fn each_blamed_item_fails()
    ensures { (rules : List Rule) (text : List ℕ) (n : ℕ) (start : List ℕ) (r b : Record)
        → start_record rules text n start ≡ Some r → StartHasBlame rules text start b
        → All (λ (test : Test). ItemFails rules text test.terminal test.position) b.tests }
{}

/// Each call of a blame is a call of Ford's record of the text.
pub fn blame_calls_are_calls()
    ensures { (rules : List Rule) (text : List ℕ) (n : ℕ) (start : List ℕ) (r b : Record)
        → start_record rules text n start ≡ Some r → StartHasBlame rules text start b
        → All (Contains r.calls) b.calls }
{}

/// The definitions give the blame of grammars that were worked by hand: result, trees, failed items and calls. They
/// also give the terminal numbers of the added empty classes.
pub fn the_definitions_agree_with_hand_worked_grammars()
    ensures predicate { StartHasBlame guarded (codes "abc") (codes "S") predicate_blame }
    ensures literal { StartHasBlame guarded (codes "ax") (codes "S") literal_blame }
    ensures matched { StartHasBlame guarded (codes "abd") (codes "S") matched_blame }
    ensures keyword { StartHasBlame keyword (codes "if") (codes "S") keyword_blame }
    ensures identifier { StartHasBlame keyword (codes "ix") (codes "S") identifier_blame }
    ensures guarded_terminals { item_terminals guarded ≡ 1 ∷ 3 ∷ 5 ∷ [] }
    ensures keyword_terminals { item_terminals keyword ≡ 0 ∷ 2 ∷ 4 ∷ [] }
{}

/// The diagnostic grammar computes the blame, if all its names are distinct. An expression with a record has a blame,
/// and its loud expression has a record in the diagnostic grammar, both with the same result. The failed tests of added
/// empty classes are those of the blame. The calls of loud rules are those of the blame. Each rule has a loud copy of
/// the same number, placed by its first terminal and its first item.
pub fn the_diagnostic_grammar_computes_the_blame()
    ensures expressions { (rules : List Rule) (text : List ℕ) (n : ℕ) (e : Form)
        (terminal other item position : ℕ) (r : Record)
        → AllPairs (λ (a b : List ℕ). a ≢ b) (names (diagnostic_rules rules))
        → IsPlaced (item_of_terminal rules) e other item
        → record_in rules text n e terminal position ≡ Some r
        → Diagnosis rules text e other item position r }
    ensures rules { (rules : List Rule) (name : List ℕ) (m : Meaning) → item_meaning_of rules name ≡ Some m
        → (copy : Meaning) × (meaning_of (diagnostic_rules rules) name ≡ Some copy) × (m.rule ≡ copy.rule)
        × (copy.body ≡ loud m.body) × IsPlaced (item_of_terminal rules) m.body copy.terminal m.terminal }
    ensures names { (rules : List Rule) (text : List ℕ) (n : ℕ) (name : List ℕ) (span : Extent)
        (terminal other item position : ℕ) (r : Record)
        → AllPairs (λ (a b : List ℕ). a ≢ b) (names (diagnostic_rules rules))
        → record_in rules text n (Name name span) terminal position ≡ Some r
        → Diagnosis rules text (Name name span) other item position r }
    ensures starts { (rules : List Rule) (text : List ℕ) (n : ℕ) (start : List ℕ) (r : Record)
        → AllPairs (λ (a b : List ℕ). a ≢ b) (names (diagnostic_rules rules))
        → start_record rules text n start ≡ Some r
        → Diagnosis rules text (Name start (between 0 0)) 0 0 0 r }
{}

/// Each expression with a record has a blame with the same result. If all names of the diagnostic grammar are distinct,
/// its loud expression has a record with the same result there. The results don't depend on where terminals and items
/// are numbered from.
pub fn the_diagnostic_grammar_keeps_results()
    ensures blame { (rules : List Rule) (text : List ℕ) (n : ℕ) (e : Form) (terminal item position : ℕ) (r : Record)
        → record_in rules text n e terminal position ≡ Some r
        → (b : Record) × HasBlame rules text e item position b × (b.result ≡ r.result) }
    ensures loud { (rules : List Rule) (text : List ℕ) (n : ℕ) (e : Form) (terminal other position : ℕ) (r : Record)
        → AllPairs (λ (a b : List ℕ). a ≢ b) (names (diagnostic_rules rules))
        → record_in rules text n e terminal position ≡ Some r
        → (d : Record) × IsRecord (diagnostic_rules rules) text (loud e) other position d × (d.result ≡ r.result) }
{}

/// The terminal numbers of items ascend, and each item has an extent. A failed test of an item has the number of an
/// item.
pub fn items_are_numbered_in_written_order()
    ensures ascending { (rules : List Rule) → IsStrictlyIncreasing (item_terminals rules) }
    ensures extents { (rules : List Rule) → length (extents_of_items rules) ≡ length (item_terminals rules) }
    ensures tests { (rules : List Rule) (tests : List Test)
        → All (λ (test : Test). test.terminal < length (item_terminals rules)) (item_tests rules tests) }
{}

/// The diagnostic grammar of a grammar is a grammar if no name of a rule has a `!`. It is well-formed exactly if the
/// rules are (Ford 2004, section 3.6).
pub fn the_diagnostic_grammar_is_a_well_formed_grammar()
    ensures grammar { (rules : List Rule) → IsGrammar rules → HaveNoMark rules → IsGrammar (diagnostic_rules rules) }
    ensures well_formed { (rules : List Rule) → IsGrammar rules
        → AllPairs (λ (a b : List ℕ). a ≢ b) (names (diagnostic_rules rules))
        → (IsWellFormedGrammar (diagnostic_rules rules) ↔ IsWellFormedGrammar rules) }
{}
