//! Laws of runs of a whole program: the result that each active call expects, and how each instruction preserves this
//! expectation. Each function has an empty body; its contract is the law.
ghost use Rattle.std.specs.Prelude.{◌≡◌, ◌≢◌, ◌+◌, ◌++◌, ◌∷◌, ◌≤◌, [], All, Contains, length, slice_get, List, ℕ};
ghost use Rattle.std.specs.Prelude.{None, Option, Some};
ghost use Rattle.peg_code.specs.Instructions.{Call, Commit, End, FailTwice, Ret};
ghost use Rattle.peg_core.specs.CoreForm.{CoreForm, Rule};
ghost use Rattle.peg_core.specs.CoreRecord.{IsCoreRecord};
ghost use Rattle.peg_semantics.specs.Record.{Failed, Matched, Record, Test, RuleCall};
ghost use Rattle.peg_runs.specs.Local.{then_effects, backtrack, run_local, only_steps, step_of, with_effects, effects_of};
ghost use Rattle.peg_runs.specs.Local.{BodyResult, Continuation, SavedChoice, Effects};
ghost use Rattle.peg_runs.specs.Noted.{IsNoted, TaskNoted};
ghost use Rattle.peg_runs.specs.Running.{new_task, resume_task, body_context_of, oldest_call};
ghost use Rattle.peg_runs.specs.OpenRows.{close_row, root_rows, rows_after_match, opened};
ghost use Rattle.peg_runs.specs.Running.{steps_of_call, with_done, work_to_come};
ghost use Rattle.peg_runs.specs.Running.{AreSuspended, IsBacktrackingTask, IsBacktracking, Frame, IsContinuing, RunContext, IsExpectedBy, Expectation};
ghost use Rattle.peg_runs.specs.Starts.{CallStart};
ghost use Rattle.peg_runs.specs.Running.{RunsAsExpected, IsRunningTask, CallTask};
ghost use Rattle.peg_runs.specs.Starts.{RunStart};
ghost use Rattle.peg_runs.specs.CodeLayout.{EntriesAreLaidOut};
ghost use Rattle.peg_tree.specs.Rows.{Row};
ghost use Rattle.peg_runs.specs.ShownRows.{shown_rows, Shown};
ghost use Rattle.peg_tree.specs.Trees.{Trees};

/// A run from a call whose body has a record is expected to compute this record.
pub fn a_run_starts_as_expected()
    ensures { (context : RunContext) (entries : List ℕ) → EntriesAreLaidOut context.code entries context.bodies
        → (pair : RuleCall) (body : CoreForm)
        (r : Record) → slice_get context.bodies pair.rule ≡ Some body
        → IsCoreRecord context.bodies context.text body pair.position r
        → RunStart context entries pair r }
{}

/// The work of an instruction comes first in the work expected, and the rest remains. This holds for an instruction
/// whose effect doesn't depend on what follows. It also holds for several rounds whose effect doesn't depend on the
/// rounds left.
pub fn a_step_consumes_promised_work()
    ensures step { (context : RunContext) (pc position : ℕ) (rows : List Row) (task : CallTask)
        → IsRunningTask context pc position rows task
        → (work : Effects) (later : Continuation → Option BodyResult)
        → ((next : Continuation)
        → step_of (body_context_of context task.rounds) next
        (slice_get context.code pc) pc position rows task.choice_points
        ≡ with_effects work (later next))
        → (rest : Effects) × (task.to_come ≡ then_effects work rest)
        × IsExpectedBy context (with_done task work rest) (λ n. later (run_local
        (body_context_of context task.rounds) n)) }
    ensures rounds { (context : RunContext) (pc position : ℕ) (rows : List Row) (task : CallTask)
        → IsRunningTask context pc position rows task
        → (k : ℕ) (work : Effects) (later : ℕ → Option BodyResult)
        → ((left : ℕ) → run_local (body_context_of context task.rounds) (k + left) pc position rows task.choice_points
        ≡ with_effects work (later left))
        → (rest : Effects) × (task.to_come ≡ then_effects work rest)
        × IsExpectedBy context (with_done task work rest) later }
{}

/// A run is never stuck: there is an instruction, which isn't `End`. A choice point that is to be popped is on the
/// stack.
pub fn a_run_is_never_stuck()
    ensures there { (context : RunContext) (pc position : ℕ) (rows : List Row) (task : CallTask)
        → IsRunningTask context pc position rows task
        → slice_get context.code pc ≢ None }
    ensures no_end { (context : RunContext) (pc position : ℕ) (rows : List Row) (task : CallTask)
        → IsRunningTask context pc position rows task
        → slice_get context.code pc ≢ Some End }
    ensures commits { (context : RunContext) (pc position : ℕ) (rows : List Row) (task : CallTask)
        → IsRunningTask context pc position rows task
        → (target : ℕ) → slice_get context.code pc ≡ Some (Commit target)
        → (choice_point : SavedChoice) × (choice_points : List SavedChoice) × (rest : Effects)
        × (task.choice_points ≡ choice_point ∷ choice_points)
        × (task.to_come ≡ then_effects (only_steps 1) rest)
        × IsRunningTask context target position rows (record (with_done task
        (only_steps 1) rest) { choice_points = choice_points }) }
    ensures fails_twice { (context : RunContext) (pc position : ℕ) (rows : List Row) (task : CallTask)
        → IsRunningTask context pc position rows task
        → slice_get context.code pc ≡ Some FailTwice
        → (choice_point : SavedChoice) × (choice_points : List SavedChoice) × (rest : Effects)
        × (task.choice_points ≡ choice_point ∷ choice_points)
        × (task.to_come ≡ then_effects (only_steps 1) rest)
        × IsBacktrackingTask context (record (with_done task (only_steps 1) rest) { choice_points = choice_points }) }
{}

/// A call whose record is known, as from a memo, is answered by it. Any other call runs its body while its caller
/// waits.
pub fn a_call_is_answered_or_starts()
    ensures answered { (context : RunContext) (pc position : ℕ) (rows : List Row) (task : CallTask) (rule : ℕ)
        (r : Record)
        → IsRunningTask context pc position rows task → slice_get context.code pc ≡ Some (Call rule)
        → IsCoreRecord context.bodies context.text (Rule rule) position r
        → (rest : Effects) × (task.to_come ≡ then_effects (effects_of r
        ((body_context_of context task.rounds).costs rule position)) rest)
        × IsContinuing context r.result (pc + 1) rows
        (with_done task (effects_of r ((body_context_of context task.rounds).costs rule position)) rest) }
    ensures begins { (context : RunContext) (entries : List ℕ)
        → EntriesAreLaidOut context.code entries context.bodies → (pc : ℕ) (rows : List Row)
        (task : CallTask) (older : List CallTask) (pair : RuleCall)
        → RunsAsExpected context pc pair.position rows task older
        → slice_get context.code pc ≡ Some (Call pair.rule) → CallStart context entries pc rows task older pair }
    ensures counts { (context : RunContext) (entries : List ℕ) (pc : ℕ) (rows : List Row) (task : CallTask)
        (older : List CallTask)
        (pair : RuleCall) (begins : CallStart context entries pc rows task older pair)
        → (steps_of_call context.counted begins.steps
        + (work_to_come (new_task pair (pc + 1) rows begins.rounds (effects_of begins.answer begins.steps)
        ∷ record task { to_come = begins.rest } ∷ older)).steps
        ≡ begins.steps + (work_to_come (task ∷ older)).steps)
        × (pair ∷ (work_to_come (new_task pair (pc + 1) rows begins.rounds (effects_of begins.answer begins.steps)
        ∷ record task { to_come = begins.rest } ∷ older)).calls ≡ (work_to_come (task ∷ older)).calls) }
{}

/// At the end of its rule a call returns to its caller with its node closed, if it has one. The start returns to
/// instruction 0.
pub fn a_call_returns_with_its_tree()
    ensures returns { (context : RunContext) (pc position : ℕ) (rows : List Row) (task caller : CallTask)
        (older : List CallTask)
        (as_expected : RunsAsExpected context pc position rows task (caller ∷ older))
        → slice_get context.code pc ≡ Some Ret
        → (trees : Trees) × (task.choice_points ≡ []) × (task.to_come ≡ only_steps 1)
        × (opened context.shown task.frame.before task.frame.pair ++ shown_rows context.shown trees ≡ rows)
        × (as_expected.0.answer.result ≡ Matched position trees)
        × RunsAsExpected context task.frame.return_pc position
        (rows_after_match context.shown task.frame.before task.frame.pair position trees)
        (resume_task context caller task.frame.pair as_expected.0.answer) older }
    ensures start { (context : RunContext) (pc position : ℕ) (rows : List Row) (task : CallTask)
        (as_expected : RunsAsExpected context pc position rows task []) → slice_get context.code pc ≡ Some Ret
        → (trees : Trees) × (task.choice_points ≡ []) × (task.to_come ≡ only_steps 1) × (task.frame.return_pc ≡ 0)
        × (task.frame.before ≡ root_rows context.shown task.frame.pair)
        × (opened context.shown task.frame.before task.frame.pair ++ shown_rows context.shown trees ≡ rows)
        × (as_expected.0.answer.result ≡ Matched position trees) }
    ensures row { (shown : Shown) (before : List Row) (pair : RuleCall) (end : ℕ) (trees : Trees)
        → close_row shown (length before) (opened shown before pair ++ shown_rows shown trees) pair end
        ≡ rows_after_match shown before pair end trees }
{}

/// A task that fails resumes at its newest choice point. Without one its record is failed, and its caller fails too.
pub fn a_call_backtracks_or_fails()
    ensures choice_point { (context : RunContext) (task : CallTask) (choice_point : SavedChoice)
        (choice_points : List SavedChoice) → task.choice_points ≡ choice_point ∷ choice_points
        → IsBacktrackingTask context task
        → IsRunningTask context choice_point.pc choice_point.position choice_point.rows
        (record task { choice_points = choice_points }) }
    ensures gives_up { (context : RunContext) (task : CallTask) (fails : IsBacktrackingTask context task)
        → task.choice_points ≡ []
        → (fails.answer.result ≡ Failed) × (task.to_come ≡ only_steps 0) }
    ensures caller_fails { (context : RunContext) (task caller : CallTask) (older : List CallTask)
        (falling : IsBacktracking context task (caller ∷ older)) → task.choice_points ≡ []
        → IsBacktracking context (resume_task context caller task.frame.pair falling.0.answer) older }
{}

/// The failed tests and the calls of each active call's record are among those of the start's record.
pub fn each_task_is_part_of_the_start()
    ensures { (context : RunContext) (n : ℕ) (called : Frame) (done to_come : Effects) (later : ℕ → Option BodyResult)
        (older : List CallTask) (promise : Expectation context n called.pair called.before done to_come later)
        → AreSuspended context n called older
        → (body : CoreForm) × (all : Record)
        × (slice_get context.bodies (oldest_call called.pair older).rule ≡ Some body)
        × IsCoreRecord context.bodies context.text body (oldest_call called.pair older).position all
        × ((test : Test) → Contains promise.answer.tests test → Contains all.tests test)
        × ((pair : RuleCall) → Contains (called.pair ∷ promise.answer.calls) pair
        → Contains (oldest_call called.pair older ∷ all.calls) pair) }
{}

/// No call is active twice: no waiting task has the pair of a newer one.
pub fn no_call_is_active_twice()
    ensures { (context : RunContext) (n m : ℕ) (pair : RuleCall) (before : List Row) (done to_come : Effects)
        (later : ℕ → Option BodyResult) (called : Frame) (older : List CallTask)
        → Expectation context n pair before done to_come later → n ≤ m → AreSuspended context m called older
        → All (λ (task : CallTask). task.frame.pair ≢ pair) older }
{}

/// The work of a task stays noted: at its start, after more work, at its end, and then in its caller.
pub fn done_work_is_noted()
    ensures begins { (tests : List Test) (calls : List RuleCall) (pair : RuleCall) (return_pc : ℕ)
        (before : List Row) (rounds : ℕ)
        (to_come : Effects) → Contains calls pair
        → TaskNoted tests calls (new_task pair return_pc before rounds to_come) }
    ensures does { (tests : List Test) (calls : List RuleCall) (task : CallTask) (work rest : Effects)
        → TaskNoted tests calls task → IsNoted tests calls work → TaskNoted tests calls (with_done task work rest) }
    ensures ends { (tests : List Test) (calls : List RuleCall) (context : RunContext) (n : ℕ) (pair : RuleCall)
        (before : List Row)
        (done : Effects) (later : ℕ → Option BodyResult) (steps : ℕ)
        (promise : Expectation context n pair before done (only_steps steps) later) → IsNoted tests calls done
        → IsNoted tests calls (effects_of promise.answer promise.steps) }
    ensures is_back { (tests : List Test) (calls : List RuleCall) (context : RunContext) (task : CallTask)
        (pair : RuleCall) (r : Record)
        (steps : ℕ) → TaskNoted tests calls task → Contains calls pair → IsNoted tests calls (effects_of r steps)
        → TaskNoted tests calls (resume_task context task pair r) }
    ensures stays { (tests : List Test) (calls : List RuleCall) (more_tests : List Test) (more_uses : List RuleCall)
        → ((test : Test) → Contains tests test → Contains more_tests test)
        → ((pair : RuleCall) → Contains calls pair → Contains more_uses pair)
        → (task : CallTask) → TaskNoted tests calls task → TaskNoted more_tests more_uses task }
{}
