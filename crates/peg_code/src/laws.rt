//! Laws of the code of core forms. Each function does nothing; its contract is the law.
ghost use Rattle.std.specs.Prelude.{◌≡◌, ◌+◌, ◌<◌, [], ◌∷◌, length, List, Some, slice_get, ℕ};
ghost use Rattle.peg_core.specs.CoreExamples.{nested_core, operators_core};
ghost use Rattle.peg_core.specs.CoreForm.{CoreForm};
ghost use Rattle.peg_code.specs.Code.{code_of, entries_of, program_code, size};
ghost use Rattle.peg_code.specs.CodeExamples.{nested_code, operators_code, operators_entries};

/// The length of a form's code is its size, wherever the code starts.
pub fn the_code_of_a_form_has_its_size()
    ensures { (form : CoreForm) (pc : ℕ) → length (code_of form pc) ≡ size form }
{}

/// Each rule has an entry, and the entry is one of the instructions.
pub fn each_rule_has_an_entry()
    ensures count { (bodies : List CoreForm) → length (entries_of bodies) ≡ length bodies }
    ensures within { (bodies : List CoreForm) (rule entry : ℕ) → slice_get (entries_of bodies) rule ≡ Some entry
        → entry < length (program_code bodies) }
{}

/// The definitions agree with grammars that were compiled by hand.
pub fn the_code_agrees_with_hand_worked_grammars()
    ensures nested { program_code nested_core ≡ nested_code }
    ensures nested_entries { entries_of nested_core ≡ 1 ∷ [] }
    ensures operators { program_code operators_core ≡ operators_code }
    ensures operators_entries { entries_of operators_core ≡ operators_entries }
{}
