//! Laws of the packrat property. Each function has an empty body; its contract is the law.
ghost use Rattle.std.specs.Prelude.{◌++◌, ◌∷◌, [], Contains, List};
ghost use Rattle.peg_semantics.specs.Record.{Record, Test, RuleCall};
ghost use Rattle.peg_runs.specs.Local.{Effects, SavedChoice};
ghost use Rattle.peg_machine.specs.Packrat.{AreInMemoOrActive, IsInMemo};
ghost use Rattle.peg_runs.specs.Running.{RunContext};
ghost use Rattle.peg_runs.specs.PartialRuns.{ActiveCall, Mode, PartialRun};
ghost use Rattle.peg_memo.specs.MemoMap.{MemoMap};

/// A call that has no memo entry was never traced, if each pair traced has a memo entry or is active.
pub fn a_call_that_starts_was_never_traced()
    ensures { (stored : MemoMap) (context : RunContext) (start : RuleCall) (answer : Record) (tests : List Test)
        (calls : List RuleCall)
        (to_come : Effects) (mode : Mode) (active : ActiveCall) (below : List ActiveCall) (traced : List RuleCall)
        → PartialRun context start answer tests calls to_come mode (active ∷ below)
        → AreInMemoOrActive stored traced below
        → ¬ IsInMemo stored active.frame.pair → ¬ Contains traced active.frame.pair }
{}

/// Each event preserves that every pair traced has a memo entry or is active. A new call is traced and active, an
/// ended call has a memo entry, and choice points don't matter.
pub fn traced_pairs_are_in_memo_or_active()
    ensures begins { (stored : MemoMap) (traced : List RuleCall) (active : ActiveCall) (below : List ActiveCall)
        → AreInMemoOrActive stored traced below
        → AreInMemoOrActive stored (traced ++ active.frame.pair ∷ []) (active ∷ below) }
    ensures ends { (stored more_held : MemoMap) (traced : List RuleCall) (active : ActiveCall) (below : List ActiveCall)
        → ((pair : RuleCall) → IsInMemo stored pair → IsInMemo more_held pair) → IsInMemo more_held active.frame.pair
        → AreInMemoOrActive stored traced (active ∷ below) → AreInMemoOrActive more_held traced below }
    ensures choice_points { (stored : MemoMap) (traced : List RuleCall) (active : ActiveCall)
        (choice_points : List SavedChoice) (below : List ActiveCall)
        → AreInMemoOrActive stored traced (active ∷ below)
        → AreInMemoOrActive stored traced (record active { choice_points = choice_points } ∷ below) }
{}
