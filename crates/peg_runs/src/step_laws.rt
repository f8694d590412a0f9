//! Laws of an active run: what each event does to its invariant. A loop that executes one instruction after the other
//! preserves the invariant. Each function has an empty body; its contract is the law.
ghost use Rattle.std.specs.Prelude.{◌≡◌, ◌≢◌, ◌+◌, ◌<◌, ◌∷◌, ◌⊎◌, [], All, Contains, drop, slice_get, List, ℕ};
ghost use Rattle.std.specs.Prelude.{None, Some};
ghost use Rattle.peg_bytes.specs.ByteSet.{Bytes, has};
ghost use Rattle.peg_code.specs.Instructions.{Call, Choice, Commit, End, FailTwice, Ret};
ghost use Rattle.peg_code.specs.Instructions.{Test as TestOf};
ghost use Rattle.peg_semantics.specs.Record.{byte_at, failed_at, matched_at, test_of, Record, Test, RuleCall};
ghost use Rattle.peg_runs.specs.Local.{effects_of, only_steps, run_local, step_of, saved_choice, then_effects, with_effects};
ghost use Rattle.peg_runs.specs.Local.{CallAnswers, CallCosts, Continuation, Effects, SavedChoice};
ghost use Rattle.peg_runs.specs.Noted.{IsNoted};
ghost use Rattle.peg_runs.specs.Running.{steps_of_call, RunContext};
ghost use Rattle.peg_runs.specs.OpenRows.{opened, root_rows};
ghost use Rattle.peg_runs.specs.CodeLayout.{EntriesAreLaidOut};
ghost use Rattle.peg_runs.specs.Steps.{body_steps_in};
ghost use Rattle.peg_runs.specs.PartialRuns.{result_in_mode, mode_after, ActiveCall, MayBeStored, Mode, Backtracks, CallHasFailed};
ghost use Rattle.peg_runs.specs.PartialRuns.{CallHasReturned, IsRecordOfCall, RunFailed, RunMatched, RunsAt, PartialRun};
ghost use Rattle.peg_tree.specs.Rows.{Row};

/// A run starts at the entry of its rule if the body of that rule has a record. The node of the start is open, and all
/// work of the body remains. Only the start is noted.
pub fn a_run_begins()
    ensures { (context : RunContext) (start : RuleCall) (answer : Record) (entries : List ℕ)
        → EntriesAreLaidOut context.code entries context.bodies
        → IsRecordOfCall context start answer
        → (entry : ℕ) × (n : ℕ) × (steps : ℕ) × (slice_get entries start.rule ≡ Some entry)
        × (body_steps_in context.counted 1 context.bodies context.text n start.rule start.position ≡ Some steps)
        × PartialRun context start answer [] (start ∷ []) (effects_of answer steps)
        (RunsAt entry start.position (opened context.shown (root_rows context.shown start) start))
        (record {
          frame = record { pair = start; return_pc = 0; before = root_rows context.shown start };
          choice_points = [];
        } ∷ []) }
{}

/// An active run is never stuck: there is an instruction, which isn't `End`, and at least one step remains.
pub fn a_run_continues()
    ensures there { (context : RunContext) (start : RuleCall) (answer : Record) (tests : List Test)
        (calls : List RuleCall)
        (to_come : Effects) (pc position : ℕ) (rows : List Row) (active : ActiveCall) (below : List ActiveCall)
        → PartialRun context start answer tests calls to_come (RunsAt pc position rows) (active ∷ below)
        → slice_get context.code pc ≢ None }
    ensures no_end { (context : RunContext) (start : RuleCall) (answer : Record) (tests : List Test)
        (calls : List RuleCall)
        (to_come : Effects) (pc position : ℕ) (rows : List Row) (active : ActiveCall) (below : List ActiveCall)
        → PartialRun context start answer tests calls to_come (RunsAt pc position rows) (active ∷ below)
        → slice_get context.code pc ≢ Some End }
    ensures to_come { (context : RunContext) (start : RuleCall) (answer : Record) (tests : List Test)
        (calls : List RuleCall)
        (to_come : Effects) (pc position : ℕ) (rows : List Row) (active : ActiveCall) (below : List ActiveCall)
        → PartialRun context start answer tests calls to_come (RunsAt pc position rows) (active ∷ below)
        → 0 < to_come.steps }
{}

/// A byte passes its terminal test, or the failed test is noted and the call fails. Either takes one step.
pub fn a_test_passes_or_fails()
    ensures passes { (context : RunContext) (start : RuleCall) (answer : Record) (tests : List Test)
        (calls : List RuleCall)
        (to_come : Effects) (pc position : ℕ) (rows : List Row) (active : ActiveCall) (below : List ActiveCall)
        → PartialRun context start answer tests calls to_come (RunsAt pc position rows) (active ∷ below)
        → (set : Bytes) (terminal : ℕ) → slice_get context.code pc ≡ Some (TestOf set terminal)
        → byte_at (has set) terminal position (drop position context.text) ≡ matched_at (position + 1)
        → (left : Effects) × (to_come ≡ then_effects (only_steps 1) left)
        × PartialRun context start answer tests calls left (RunsAt (pc + 1) (position + 1) rows) (active ∷ below) }
    ensures fails { (context : RunContext) (start : RuleCall) (answer : Record) (tests : List Test)
        (calls : List RuleCall)
        (to_come : Effects) (pc position : ℕ) (rows : List Row) (active : ActiveCall) (below : List ActiveCall)
        → PartialRun context start answer tests calls to_come (RunsAt pc position rows) (active ∷ below)
        → (set : Bytes) (terminal : ℕ) (more_tests : List Test)
        → slice_get context.code pc ≡ Some (TestOf set terminal)
        → byte_at (has set) terminal position (drop position context.text) ≡ failed_at terminal position
        → ((test : Test) → Contains tests test → Contains more_tests test)
        → Contains more_tests (test_of terminal position)
        → ((test : Test) → Contains more_tests test → Contains tests test ⊎ (test_of terminal position ≡ test))
        → (left : Effects) × (to_come ≡ then_effects (effects_of (failed_at terminal position) 1) left)
        × PartialRun context start answer more_tests calls left Backtracks (active ∷ below) }
{}

/// Choice points are pushed and popped in one step each. One is on the stack wherever an instruction pops it. Resuming
/// at a choice point after a failure takes no step.
pub fn choice_points_are_pushed_and_popped()
    ensures leaves { (context : RunContext) (start : RuleCall) (answer : Record) (tests : List Test)
        (calls : List RuleCall)
        (to_come : Effects) (pc position : ℕ) (rows : List Row) (active : ActiveCall) (below : List ActiveCall)
        → PartialRun context start answer tests calls to_come (RunsAt pc position rows) (active ∷ below)
        → (target : ℕ) → slice_get context.code pc ≡ Some (Choice target)
        → (left : Effects) × (to_come ≡ then_effects (only_steps 1) left)
        × PartialRun context start answer tests calls left (RunsAt (pc + 1) position rows)
        (record active { choice_points = saved_choice target position rows ∷ active.choice_points } ∷ below) }
    ensures commits { (context : RunContext) (start : RuleCall) (answer : Record) (tests : List Test)
        (calls : List RuleCall)
        (to_come : Effects) (pc position : ℕ) (rows : List Row) (active : ActiveCall) (below : List ActiveCall)
        → PartialRun context start answer tests calls to_come (RunsAt pc position rows) (active ∷ below)
        → (target : ℕ) → slice_get context.code pc ≡ Some (Commit target)
        → (choice_point : SavedChoice) × (choice_points : List SavedChoice) × (left : Effects)
        × (active.choice_points ≡ choice_point ∷ choice_points) × (to_come ≡ then_effects (only_steps 1) left)
        × PartialRun context start answer tests calls left (RunsAt target position rows)
        (record active { choice_points = choice_points } ∷ below) }
    ensures fails_twice { (context : RunContext) (start : RuleCall) (answer : Record) (tests : List Test)
        (calls : List RuleCall)
        (to_come : Effects) (pc position : ℕ) (rows : List Row) (active : ActiveCall) (below : List ActiveCall)
        → PartialRun context start answer tests calls to_come (RunsAt pc position rows) (active ∷ below)
        → slice_get context.code pc ≡ Some FailTwice
        → (choice_point : SavedChoice) × (choice_points : List SavedChoice) × (left : Effects)
        × (active.choice_points ≡ choice_point ∷ choice_points) × (to_come ≡ then_effects (only_steps 1) left)
        × PartialRun context start answer tests calls left Backtracks
        (record active { choice_points = choice_points } ∷ below) }
    ensures falls_back { (context : RunContext) (start : RuleCall) (answer : Record) (tests : List Test)
        (calls : List RuleCall)
        (to_come : Effects) (active : ActiveCall) (below : List ActiveCall) (choice_point : SavedChoice)
        (choice_points : List SavedChoice)
        → active.choice_points ≡ choice_point ∷ choice_points
        → PartialRun context start answer tests calls to_come Backtracks (active ∷ below)
        → PartialRun context start answer tests calls to_come
        (RunsAt choice_point.pc choice_point.position choice_point.rows)
        (record active { choice_points = choice_points } ∷ below) }
{}

/// An instruction whose effect doesn't depend on what follows has this effect on the run. So have several rounds whose
/// effect doesn't depend on the rounds left.
pub fn a_step_consumes_remaining_work()
    ensures step { (context : RunContext) (start : RuleCall) (answer : Record) (tests more_tests : List Test)
        (calls : List RuleCall)
        (to_come : Effects) (pc position : ℕ) (rows : List Row) (active : ActiveCall) (below : List ActiveCall)
        (work : Effects) (next : Mode)
        (choice_points : List SavedChoice)
        → PartialRun context start answer tests calls to_come (RunsAt pc position rows) (active ∷ below)
        → ((test : Test) → Contains tests test → Contains more_tests test)
        → ((test : Test) → Contains more_tests test → Contains tests test ⊎ Contains work.tests test)
        → IsNoted more_tests calls work
        → ((reads : CallAnswers) (costs : CallCosts) (later : Continuation)
        → step_of (record {
          code = context.code;
          shown = context.shown;
          text = context.text;
          calls = reads;
          costs = costs;
        }) later
        (slice_get context.code pc) pc position rows active.choice_points ≡ with_effects work
        (result_in_mode next later choice_points))
        → (left : Effects) × (to_come ≡ then_effects work left)
        × PartialRun context start answer more_tests calls left next
        (record active { choice_points = choice_points } ∷ below) }
    ensures rounds { (context : RunContext) (start : RuleCall) (answer : Record) (tests more_tests : List Test)
        (calls : List RuleCall)
        (to_come : Effects) (pc position : ℕ) (rows : List Row) (active : ActiveCall) (below : List ActiveCall) (k : ℕ)
        (work : Effects)
        (next : Mode) (choice_points : List SavedChoice)
        → PartialRun context start answer tests calls to_come (RunsAt pc position rows) (active ∷ below)
        → ((test : Test) → Contains tests test → Contains more_tests test)
        → ((test : Test) → Contains more_tests test → Contains tests test ⊎ Contains work.tests test)
        → IsNoted more_tests calls work
        → ((reads : CallAnswers) (costs : CallCosts) (left : ℕ)
        → run_local (record { code = context.code; shown = context.shown; text = context.text; calls = reads; costs = costs })
        (k + left) pc position rows
        active.choice_points
        ≡ with_effects work (result_in_mode next
        (run_local (record { code = context.code; shown = context.shown; text = context.text; calls = reads; costs = costs }) left)
        choice_points))
        → (left : Effects) × (to_come ≡ then_effects work left)
        × PartialRun context start answer more_tests calls left next
        (record active { choice_points = choice_points } ∷ below) }
{}

/// A call is answered by a record that a memo stored, or it runs the rule's body and is noted.
pub fn a_call_hits_or_starts()
    ensures hits { (context : RunContext) (start : RuleCall) (answer : Record) (tests : List Test)
        (calls : List RuleCall)
        (to_come : Effects) (pc position : ℕ) (rows : List Row) (active : ActiveCall) (below : List ActiveCall)
        → PartialRun context start answer tests calls to_come (RunsAt pc position rows) (active ∷ below)
        → (rule : ℕ) (r : Record) → slice_get context.code pc ≡ Some (Call rule)
        → MayBeStored context tests calls (record { rule = rule; position = position }) r
        → (n : ℕ) × (steps : ℕ) × (left : Effects)
        × (body_steps_in context.counted 1 context.bodies context.text n rule position ≡ Some steps)
        × (to_come ≡ then_effects (effects_of r (steps_of_call context.counted steps)) left)
        × PartialRun context start answer tests calls left (mode_after context.shown r.result (pc + 1) rows) (active ∷ below) }
    ensures begins { (context : RunContext) (start : RuleCall) (answer : Record) (entries : List ℕ)
        → EntriesAreLaidOut context.code entries context.bodies
        → (tests : List Test) (calls more_uses : List RuleCall) (to_come : Effects) (pc : ℕ) (rows : List Row)
        (active : ActiveCall) (below : List ActiveCall) (pair : RuleCall)
        → PartialRun context start answer tests calls to_come (RunsAt pc pair.position rows) (active ∷ below)
        → slice_get context.code pc ≡ Some (Call pair.rule)
        → ((other : RuleCall) → Contains calls other → Contains more_uses other) → Contains more_uses pair
        → ((other : RuleCall) → Contains more_uses other → Contains calls other ⊎ (pair ≡ other))
        → (entry : ℕ) × (n : ℕ) × (steps : ℕ) × (left : Effects) × (slice_get entries pair.rule ≡ Some entry)
        × (body_steps_in context.counted 1 context.bodies context.text n pair.rule pair.position ≡ Some steps)
        × (steps_of_call context.counted steps + left.steps ≡ steps + to_come.steps)
        × (pair ∷ left.calls ≡ to_come.calls)
        × PartialRun context start answer tests more_uses left (RunsAt entry pair.position (opened context.shown rows pair))
        (record { frame = record { pair = pair; return_pc = pc + 1; before = rows }; choice_points = [] } ∷ active
        ∷ below) }
{}

/// A call returns to its caller or fails its caller, and the memo may store its record.
pub fn a_call_returns_to_its_caller()
    ensures returns { (context : RunContext) (start : RuleCall) (answer : Record) (tests : List Test)
        (calls : List RuleCall)
        (to_come : Effects) (pc position : ℕ) (rows : List Row) (active caller : ActiveCall) (below : List ActiveCall)
        → PartialRun context start answer tests calls to_come (RunsAt pc position rows) (active ∷ caller ∷ below)
        → slice_get context.code pc ≡ Some Ret
        → CallHasReturned context start answer tests calls to_come position rows active caller below }
    ensures fails { (context : RunContext) (start : RuleCall) (answer : Record) (tests : List Test)
        (calls : List RuleCall)
        (to_come : Effects) (active caller : ActiveCall) (below : List ActiveCall)
        → PartialRun context start answer tests calls to_come Backtracks (active ∷ caller ∷ below)
        → active.choice_points ≡ []
        → CallHasFailed context start answer tests calls to_come active caller below }
{}

/// A run matches or fails as the start's record says, and exactly the failed tests and calls of this record are noted.
pub fn a_run_ends_as_its_record_says()
    ensures matches { (context : RunContext) (start : RuleCall) (answer : Record) (tests : List Test)
        (calls : List RuleCall)
        (to_come : Effects) (pc position : ℕ) (rows : List Row) (active : ActiveCall)
        → PartialRun context start answer tests calls to_come (RunsAt pc position rows) (active ∷ [])
        → slice_get context.code pc ≡ Some Ret
        → RunMatched context.shown start answer tests calls to_come position rows active }
    ensures fails { (context : RunContext) (start : RuleCall) (answer : Record) (tests : List Test)
        (calls : List RuleCall)
        (to_come : Effects) (active : ActiveCall)
        → PartialRun context start answer tests calls to_come Backtracks (active ∷ []) → active.choice_points ≡ []
        → RunFailed start answer tests calls to_come }
{}

/// A record that a memo may store may be stored from then on. A call has one such record.
pub fn storable_results_stay_storable()
    ensures stays { (context : RunContext) (tests more_tests : List Test) (calls more_uses : List RuleCall)
        (pair : RuleCall) (r : Record)
        → ((test : Test) → Contains tests test → Contains more_tests test)
        → ((other : RuleCall) → Contains calls other → Contains more_uses other)
        → MayBeStored context tests calls pair r → MayBeStored context more_tests more_uses pair r }
    ensures one { (context : RunContext) (tests : List Test) (calls : List RuleCall) (pair : RuleCall) (r s : Record)
        → MayBeStored context tests calls pair r → MayBeStored context tests calls pair s → r ≡ s }
{}

/// No pair of a rule and a position is on the stack twice: no older call has the pair of the newest one.
pub fn no_pair_is_on_the_stack_twice()
    ensures { (context : RunContext) (start : RuleCall) (answer : Record) (tests : List Test) (calls : List RuleCall)
        (to_come : Effects)
        (mode : Mode) (active : ActiveCall) (below : List ActiveCall)
        → PartialRun context start answer tests calls to_come mode (active ∷ below)
        → All (λ (other : ActiveCall). other.frame.pair ≢ active.frame.pair) below }
{}
