//! Laws of the definitions, for every grammar and text. Each function has an empty body; its contract is the law.
ghost use Rattle.std.specs.Prelude.{◌≡◌, ◌↔◌, ◌+◌, ◌≤◌, codes, Contains, length, List, ℕ, suc, Some};
ghost use Rattle.peg_core.specs.CoreExamples.{nested_core};
ghost use Rattle.peg_core.specs.CoreForm.{CoreForm};
ghost use Rattle.peg_core.specs.CoreRecord.{core_record_in};
ghost use Rattle.peg_semantics.specs.Furthest.{IsFurthest};
ghost use Rattle.peg_semantics.specs.Record.{Record, Test};
ghost use Rattle.peg_code.specs.Code.{size, code_of, program_code, entries_of};
ghost use Rattle.peg_runs.specs.Local.{BodyContext};
ghost use Rattle.peg_runs.specs.Runs.{AnswersCalls, EndsAsRecord, RunsAsRecord};
ghost use Rattle.peg_runs.specs.Running.{IsFirstRecord};
ghost use Rattle.peg_runs.specs.CodeLayout.{EntriesAreLaidOut, IsEntry, CodeAt};
ghost use Rattle.peg_runs.specs.StepExamples.{repeated_prefix_core};
ghost use Rattle.peg_runs.specs.Steps.{CallCounting, own_steps_of_pair_in, plain_steps_of_start_in, steps_in};
ghost use Rattle.peg_runs.specs.Steps.{steps_of_body};

/// The code of a form has as many instructions as the form's size.
pub fn the_code_of_a_form_has_its_size()
    ensures { (form : CoreForm) (pc : ℕ) → length (code_of form pc) ≡ size form }
{}

/// The step count of a form at depth n is also its step count at depth n + 1.
pub fn step_counts_are_monotone()
    ensures { (counted : CallCounting) (bodies : List CoreForm) (text : List ℕ) (n : ℕ) (form : CoreForm)
        (position steps : ℕ)
        → steps_in counted bodies text n form position ≡ Some steps
        → steps_in counted bodies text (suc n) form position ≡ Some steps }
{}

/// A form that has a record at depth n has a step count at depth n.
pub fn steps_are_counted_where_a_record_is()
    ensures { (counted : CallCounting) (bodies : List CoreForm) (text : List ℕ) (n : ℕ) (form : CoreForm) (position : ℕ)
        (r : Record) → core_record_in bodies text n form position ≡ Some r
        → (steps : ℕ) × (steps_in counted bodies text n form position ≡ Some steps) }
{}

/// The code of a form computes the form's record if its calls are answered by the records of the rules called. It runs
/// from its first instruction to the one after its last, or fails.
///
/// The nodes of the record's trees are appended. The failed tests (in order), the calls and the steps are exactly
/// those of the record.
pub fn code_runs_as_its_record_says()
    ensures { (counted : CallCounting) (bodies : List CoreForm) (body_context : BodyContext) (n : ℕ) (form : CoreForm)
        (pc position steps : ℕ) (r : Record) → AnswersCalls counted bodies n body_context
        → CodeAt body_context.code pc form
        → core_record_in bodies body_context.text n form position ≡ Some r
        → steps_in counted bodies body_context.text n form position ≡ Some steps
        → RunsAsRecord body_context pc (pc + size form) position r steps }
{}

/// The body of a rule, run from the rule's entry, ends as its record says. It fails, or it returns at the record's end
/// with the nodes of the record's trees appended. It takes the steps counted for it, and one more if it matched.
pub fn a_body_ends_as_its_record_says()
    ensures { (counted : CallCounting) (bodies : List CoreForm) (body_context : BodyContext) (n : ℕ) (body : CoreForm)
        (entry position steps : ℕ) (r : Record) → AnswersCalls counted bodies n body_context
        → IsEntry body_context.code entry body
        → core_record_in bodies body_context.text n body position ≡ Some r
        → steps_of_body (Some r) (steps_in counted bodies body_context.text n body position) ≡ Some steps
        → EndsAsRecord body_context entry position r steps }
{}

/// In the code of a grammar each rule's body is at the rule's entry, followed by `Ret`. Instruction 0 is `End`.
pub fn each_rule_is_at_its_entry()
    ensures { (bodies : List CoreForm) → EntriesAreLaidOut (program_code bodies) (entries_of bodies) bodies }
{}

/// The step counts of two grammars worked by hand: plain steps from the start, and own steps of pairs of a rule and a
/// position.
pub fn step_counts_agree_with_hand_worked_grammars()
    ensures nested { plain_steps_of_start_in nested_core (codes "aab") 16 0 ≡ Some 15 }
    ensures repeated_prefix { plain_steps_of_start_in repeated_prefix_core (codes "(a)y") 16 0 ≡ Some 25 }
    ensures outer_own { own_steps_of_pair_in repeated_prefix_core (codes "(a)y") 16 0 0 ≡ Some 12 }
    ensures inner_own { own_steps_of_pair_in repeated_prefix_core (codes "(a)y") 16 0 1 ≡ Some 6 }
{}

/// A form that has a record has a least depth with a record.
pub fn each_record_has_a_first_number()
    ensures { (bodies : List CoreForm) (text : List ℕ) (form : CoreForm) (position : ℕ) (n : ℕ) (r : Record)
        → core_record_in bodies text n form position ≡ Some r
        → (m : ℕ) × (m ≤ n) × IsFirstRecord bodies text m form position r }
{}

/// The furthest failure depends only on the set of failed tests, not on their order or number.
pub fn the_furthest_failure_depends_on_the_set_alone()
    ensures { (tests others : List Test) (far : ℕ) (expected : List ℕ)
        → ((test : Test) → (Contains tests test ↔ Contains others test)) → IsFurthest tests far expected
        → IsFurthest others far expected }
{}
