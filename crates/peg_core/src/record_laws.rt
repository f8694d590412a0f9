//! Laws of the records and outcomes of core forms, for every grammar and text. Each function does nothing; its contract
//! is the law.
ghost use Rattle.std.specs.Prelude.{◌≡◌, ◌<◌, ◌≤◌, ◌+◌, All, length, ℕ, List, Some};
ghost use Rattle.peg_core.specs.CoreForm.{CoreForm};
ghost use Rattle.peg_core.specs.CoreOutcomes.{CoreGivesNothing, CoreGivesSomething, CoreCanFail};
ghost use Rattle.peg_core.specs.CoreOutcomes.{IsCoreWellFormedIn};
ghost use Rattle.peg_core.specs.CoreRecord.{core_record_in};
ghost use Rattle.peg_core.specs.Layout.{Desugared, bodies_of};
ghost use Rattle.peg_core.specs.RecordDepth.{max_rounds, FormsHaveRecords, CallsHaveRecords};
ghost use Rattle.peg_core.specs.FormsOfNodes.{AllAreFormsOfNodes};
ghost use Rattle.peg_semantics.specs.Record.{Failed, Matched, Record, Test};
ghost use Rattle.peg_tree.specs.Trees.{Trees};

/// A match ends at its start position or later. If it starts within the text, it ends within the text, and all its
/// failed tests are at positions of the text.
pub fn core_records_never_move_back()
    ensures onward { (bodies : List CoreForm) (text : List ℕ) (n : ℕ) (form : CoreForm) (position end : ℕ)
        (trees : Trees) (r : Record) → core_record_in bodies text n form position ≡ Some r
        → r.result ≡ Matched end trees → position ≤ end }
    ensures within { (bodies : List CoreForm) (text : List ℕ) (n : ℕ) (form : CoreForm) (position end : ℕ)
        (trees : Trees) (r : Record) → position ≤ length text → core_record_in bodies text n form position ≡ Some r
        → r.result ≡ Matched end trees → end ≤ length text }
    ensures tests { (bodies : List CoreForm) (text : List ℕ) (n : ℕ) (form : CoreForm) (position : ℕ) (r : Record)
        → position ≤ length text → core_record_in bodies text n form position ≡ Some r
        → All (λ (test : Test). test.position ≤ length text) r.tests }
{}

/// The result of a core form shows one of its abstract outcomes (Ford 2004, section 3.5, the theorem on abstract
/// outcomes). A match that consumes nothing shows 0, a longer match shows 1, and a failure shows f.
pub fn core_results_show_abstract_outcomes()
    ensures nothing { (bodies : List CoreForm) (text : List ℕ) (n : ℕ) (form : CoreForm) (position : ℕ) (trees : Trees)
        (r : Record) → core_record_in bodies text n form position ≡ Some r → r.result ≡ Matched position trees
        → CoreGivesNothing bodies form }
    ensures something { (bodies : List CoreForm) (text : List ℕ) (n : ℕ) (form : CoreForm) (position end : ℕ)
        (trees : Trees) (r : Record) → core_record_in bodies text n form position ≡ Some r
        → r.result ≡ Matched end trees → position < end → CoreGivesSomething bodies form }
    ensures fails { (bodies : List CoreForm) (text : List ℕ) (n : ℕ) (form : CoreForm) (position : ℕ) (r : Record)
        → core_record_in bodies text n form position ≡ Some r → r.result ≡ Failed → CoreCanFail bodies form }
{}

/// Well-formed core forms are complete (Ford 2004, section 3.6). If all are well-formed in a number of rounds, each
/// form and each rule has a record at each position of each text. The rounds and the length of the text bound the depth
/// of the record. It suffices that the forms are merely well-formed.
pub fn well_formed_core_forms_are_complete()
    ensures calls { (core : Desugared) (rounds : ℕ) → AllAreFormsOfNodes core
        → All (λ body. body < length core.forms) core.bodies
        → All (IsCoreWellFormedIn (bodies_of core) rounds) core.forms
        → (text : List ℕ) → CallsHaveRecords core text (1 + max_rounds rounds text) }
    ensures forms { (core : Desugared) (rounds : ℕ) → AllAreFormsOfNodes core
        → All (λ body. body < length core.forms) core.bodies
        → All (IsCoreWellFormedIn (bodies_of core) rounds) core.forms
        → (text : List ℕ) → FormsHaveRecords core text (max_rounds rounds text) }
    ensures merely { (core : Desugared) (rounds : ℕ) → AllAreFormsOfNodes core
        → All (λ body. body < length core.forms) core.bodies
        → ∥ All (IsCoreWellFormedIn (bodies_of core) rounds) core.forms ∥₁
        → (text : List ℕ) → CallsHaveRecords core text (1 + max_rounds rounds text) }
    ensures merely_forms { (core : Desugared) (rounds : ℕ) → AllAreFormsOfNodes core
        → All (λ body. body < length core.forms) core.bodies
        → ∥ All (IsCoreWellFormedIn (bodies_of core) rounds) core.forms ∥₁
        → (text : List ℕ) → FormsHaveRecords core text (max_rounds rounds text) }
{}
