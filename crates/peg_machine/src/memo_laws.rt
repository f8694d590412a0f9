//! Laws of a run with a memo: each event preserves the invariant of the run. Each function has an empty body; its
//! contract is the law.
ghost use Rattle.std.specs.Prelude.{◌≡◌, ◌+◌, ◌∷◌, ◌<◌, [], slice_get, Bool, List, None, Some, ℕ};
ghost use Rattle.std.specs.FinMap as map;
ghost use Rattle.peg_code.specs.Instructions.{Call, Ret};
ghost use Rattle.peg_semantics.specs.Record.{Record, Test, RuleCall};
ghost use Rattle.peg_machine.specs.RunInvariant.{after_hit, after_traced_call, Trace, RunInvariant, ReturnKeepsInvariant};
ghost use Rattle.peg_runs.specs.OpenRows.{opened};
ghost use Rattle.peg_machine.specs.MemoInvariant.{stored_result, IsOffered, IsTouched, MemoState};
ghost use Rattle.peg_runs.specs.Running.{RunContext};
ghost use Rattle.peg_runs.specs.CodeLayout.{EntriesAreLaidOut};
ghost use Rattle.peg_runs.specs.PartialRuns.{mode_after, ActiveCall, Mode, Backtracks, RunsAt};
ghost use Rattle.peg_memo.specs.StoredResult.{StoredResult, StoredFailure};
ghost use Rattle.peg_tree.specs.Rows.{Row};

/// The invariant survives a lookup that marks a memo entry as used. It survives offering the result of an ended call
/// to the memo, whether the memo stores the result or not.
pub fn memo_may_forget_without_losing_the_invariant()
    ensures touched { (context : RunContext) (trace : Trace) (tests : List Test) (memo : MemoState) (mode : Mode)
        (stack : List ActiveCall) → RunInvariant context trace tests memo mode stack → (new : MemoState)
        → IsTouched memo new
        → RunInvariant context trace tests new mode stack }
    ensures fails { (context : RunContext) (trace : Trace) (tests : List Test) (memo : MemoState)
        (active caller : ActiveCall)
        (older : List ActiveCall) → RunInvariant context trace tests memo Backtracks (active ∷ caller ∷ older)
        → active.choice_points ≡ []
        → (kept : Bool) (new : MemoState) → IsOffered memo active.frame.pair StoredFailure kept new
        → RunInvariant context trace tests new Backtracks (caller ∷ older) }
    ensures returns { (context : RunContext) (trace : Trace) (tests : List Test) (memo : MemoState) (pc position : ℕ)
        (rows : List Row)
        (active caller : ActiveCall) (older : List ActiveCall)
        → RunInvariant context trace tests memo (RunsAt pc position rows) (active ∷ caller ∷ older)
        → slice_get context.code pc ≡ Some Ret
        → ReturnKeepsInvariant context trace tests memo position rows active caller older }
{}

/// A call with a memo entry continues as the record of that entry says, in one step, and saves some steps. Any other
/// call runs the rule's body and is traced; a memo with a capacity above 0 has no entry for it.
pub fn a_hit_or_a_call()
    ensures hits { (context : RunContext) (trace : Trace) (tests : List Test) (memo : MemoState) (pc position : ℕ)
        (rows : List Row)
        (active : ActiveCall) (below : List ActiveCall)
        → RunInvariant context trace tests memo (RunsAt pc position rows) (active ∷ below)
        → (rule : ℕ) (result : StoredResult) → slice_get context.code pc ≡ Some (Call rule)
        → map.get memo.entries (rule, position) ≡ Some result
        → (r : Record) × (stored_result context.shown r.result ≡ result) × (more : ℕ)
        × RunInvariant context (after_hit more trace) tests memo (mode_after context.shown r.result (pc + 1) rows)
        (active ∷ below) }
    ensures begins { (context : RunContext) (trace : Trace) (tests : List Test) (memo : MemoState) (pc position : ℕ)
        (rows : List Row)
        (active : ActiveCall) (below : List ActiveCall)
        → RunInvariant context trace tests memo (RunsAt pc position rows) (active ∷ below)
        → (entries : List ℕ) → EntriesAreLaidOut context.code entries context.bodies → (rule : ℕ)
        → slice_get context.code pc ≡ Some (Call rule) → (0 < memo.capacity
        → map.get memo.entries (rule, position) ≡ None)
        → (entry : ℕ) × (slice_get entries rule ≡ Some entry)
        × RunInvariant context (after_traced_call (record { rule = rule; position = position }) trace) tests memo
        (RunsAt entry position (opened context.shown rows (record { rule = rule; position = position })))
        (record {
          frame = record { pair = record { rule = rule; position = position }; return_pc = pc + 1; before = rows };
          choice_points = [];
        } ∷ active ∷ below) }
{}
