//! Laws of core forms, for every grammar and text. Each function does nothing; its contract is the law.
ghost use Rattle.std.specs.Prelude.{◌≡◌, ◌↔◌, ◌<◌, codes, All, Contains, filter, flat_map, length, map, ℕ, suc, List};
ghost use Rattle.std.specs.Prelude.{Some};
ghost use Rattle.peg_bytes.specs.Extent.{Extent};
ghost use Rattle.peg_core.specs.CoreExamples.{nested_core, operators_core, all_core_can_in};
ghost use Rattle.peg_core.specs.CoreExamples.{two_to_four_core, two_to_four_parts};
ghost use Rattle.peg_core.specs.CoreExamples.{empties, empties_core, empties_parts};
ghost use Rattle.peg_core.specs.CoreExamples.{nested_empties, nested_empties_core};
ghost use Rattle.peg_core.specs.CoreForm.{Rule as use_of};
ghost use Rattle.peg_core.specs.CoreForm.{CoreForm, core_bodies, core_form};
ghost use Rattle.peg_core.specs.CoreLoops.{CoreLeftCalls, IsCoreEmptyLoop, IsCoreLeftCycle, IsSubformOfBody};
ghost use Rattle.peg_core.specs.CoreOutcomes.{core_can_in, CoreGivesNothing, CoreGivesSomething, CoreCanFail};
ghost use Rattle.peg_core.specs.CoreOutcomes.{IsCoreWellFormedIn, IsCoreWellFormed};
ghost use Rattle.peg_core.specs.CoreParts.{all_core_parts};
ghost use Rattle.peg_core.specs.Subexpressions.{Numbered, numbered_subexpressions, all_core_stars, is_star};
ghost use Rattle.peg_core.specs.CoreRecord.{AreBytes, core_record_in, IsCoreRecord};
ghost use Rattle.peg_semantics.specs.AbstractOutcomes.{CanAll, GivesNothing, GivesSomething, CanFail};
ghost use Rattle.peg_semantics.specs.Examples.{nested, nested_record, operators, operators_can, two_to_four, three_record};
ghost use Rattle.peg_semantics.specs.Form.{Form};
ghost use Rattle.peg_semantics.specs.Loops.{LeftCalls, IsEmptyLoop, IsLeftCycle};
ghost use Rattle.peg_semantics.specs.Record.{Record, IsRecord};
ghost use Rattle.peg_semantics.specs.Rules.{Rule};
ghost use Rattle.peg_semantics.specs.WellFormed.{IsWellFormed, IsWellFormedGrammar, subexpressions};

/// A record in n is also the record in n + 1.
pub fn core_records_are_monotone_in_depth()
    ensures { (bodies : List CoreForm) (text : List ℕ) (n : ℕ) (form : CoreForm) (position : ℕ) (r : Record)
        → core_record_in bodies text n form position ≡ Some r
        → core_record_in bodies text (suc n) form position ≡ Some r }
{}

/// A form has at most one record at a position.
pub fn core_records_are_unique()
    ensures { (bodies : List CoreForm) (text : List ℕ) (form : CoreForm) (position : ℕ) (r s : Record)
        → IsCoreRecord bodies text form position r → IsCoreRecord bodies text form position s → r ≡ s }
{}

/// Ford's abstract outcomes of a form in n rounds are also its outcomes in n + 1.
pub fn core_outcomes_are_monotone()
    ensures { (bodies : List CoreForm) (n : ℕ) (form : CoreForm)
        → CanAll (core_can_in bodies n form) (core_can_in bodies (suc n) form) }
{}

/// A form that is well-formed in n rounds is well-formed in n + 1.
pub fn well_formed_core_forms_are_monotone()
    ensures { (bodies : List CoreForm) (n : ℕ) (form : CoreForm)
        → IsCoreWellFormedIn bodies n form → IsCoreWellFormedIn bodies (suc n) form }
{}

/// A written expression and its core form have the same record at each position of a text, or neither has one.
pub fn core_forms_have_the_same_records()
    ensures { (rules : List Rule) (text : List ℕ) (e : Form) (terminal position : ℕ) (r : Record) → AreBytes text
        → (IsRecord rules text e terminal position r
        ↔ IsCoreRecord (core_bodies rules) text (core_form rules terminal e) position r) }
{}

/// A written expression and its core form have the same abstract outcomes: 0, 1 and f.
pub fn core_forms_have_the_same_outcomes()
    ensures nothing { (rules : List Rule) (e : Form) (terminal : ℕ)
        → (GivesNothing rules e ↔ CoreGivesNothing (core_bodies rules) (core_form rules terminal e)) }
    ensures something { (rules : List Rule) (e : Form) (terminal : ℕ)
        → (GivesSomething rules e ↔ CoreGivesSomething (core_bodies rules) (core_form rules terminal e)) }
    ensures fails { (rules : List Rule) (e : Form) (terminal : ℕ)
        → (CanFail rules e ↔ CoreCanFail (core_bodies rules) (core_form rules terminal e)) }
{}

/// A written expression is well-formed exactly if its core form is.
pub fn core_forms_are_well_formed_alike()
    ensures { (rules : List Rule) (e : Form) (terminal : ℕ)
        → (IsWellFormed rules e ↔ IsCoreWellFormed (core_bodies rules) (core_form rules terminal e)) }
{}

/// The core forms of a grammar include those of its written subexpressions. The stars among them are exactly those of
/// its written stars and pluses. The grammar is well-formed exactly if all its core forms are.
pub fn a_grammars_core_forms_are_those_of_its_expressions()
    ensures subexpressions { (rules : List Rule)
        → All (λ (e : Numbered). Contains (all_core_parts rules) (core_form rules e.terminal e.form))
        (numbered_subexpressions rules) }
    ensures all { (rules : List Rule) → map (λ (e : Numbered). e.form) (numbered_subexpressions rules)
        ≡ flat_map (λ (rule : Rule). subexpressions rule.body) rules }
    ensures stars { (rules : List Rule) → filter is_star (all_core_parts rules) ≡ all_core_stars rules }
    ensures well_formed { (rules : List Rule) → (IsWellFormedGrammar rules
        ↔ All (IsCoreWellFormed (core_bodies rules)) (all_core_parts rules)) }
{}

/// A rule left-calls the same rules in its written expression and in its core form, so both have the same left cycles.
/// They also have the same empty loops, by the spans of their stars and pluses.
pub fn core_forms_have_the_same_loops()
    ensures meets { (rules : List Rule) (first second : ℕ) → second < length rules
        → (LeftCalls rules first second ↔ CoreLeftCalls (core_bodies rules) first second) }
    ensures left_cycles { (rules : List Rule) (path : List ℕ)
        → (IsLeftCycle rules path ↔ IsCoreLeftCycle (core_bodies rules) path) }
    ensures empty_loops { (rules : List Rule) (rule : ℕ) (span : Extent)
        → (IsEmptyLoop rules rule span ↔ IsCoreEmptyLoop (core_bodies rules) rule span) }
{}

/// If all forms in the rules' bodies are well-formed, no rule has an empty loop and there is no left cycle.
pub fn well_formed_core_forms_have_no_loops()
    ensures empty_loops { (bodies : List CoreForm)
        → ((form : CoreForm) → IsSubformOfBody bodies form → IsCoreWellFormed bodies form)
        → (rule : ℕ) (origin : Extent) → ¬ IsCoreEmptyLoop bodies rule origin }
    ensures left_cycles { (bodies : List CoreForm)
        → ((form : CoreForm) → IsSubformOfBody bodies form → IsCoreWellFormed bodies form)
        → (path : List ℕ) → ¬ IsCoreLeftCycle bodies path }
{}

/// The definitions agree with grammars that were worked by hand: core forms, the record of a first rule, and outcomes.
pub fn the_core_forms_agree_with_hand_worked_grammars()
    ensures nested { core_bodies nested ≡ nested_core }
    ensures operators { core_bodies operators ≡ operators_core }
    ensures recognized { IsCoreRecord nested_core (codes "aab") (use_of 0) 0 nested_record }
    ensures outcomes { all_core_can_in operators_core 8 ≡ operators_can }
    ensures two_to_four { core_bodies two_to_four ≡ two_to_four_core }
    ensures two_to_four_parts { all_core_parts two_to_four ≡ two_to_four_parts }
    ensures empties { core_bodies empties ≡ empties_core }
    ensures empties_parts { all_core_parts empties ≡ empties_parts }
    ensures nested_empties { core_bodies nested_empties ≡ nested_empties_core }
    ensures three { IsCoreRecord two_to_four_core (codes "aaa") (use_of 0) 0 three_record }
{}
