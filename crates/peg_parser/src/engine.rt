//! Engines: a grammar with its code, and runs of the machine on texts.
ghost use Rattle.std.specs.Prelude.{◌≡◌, ◌<◌, ◌≤◌, ◌↔◌, ⊤, [], ℕ, List, None};
ghost use Rattle.std.specs.Prelude.{length, slice_get, Option, Some, IfOk, IfErr, IfSome, IsErrOf, OnOk};
ghost use Rattle.std.specs.FinMap as map;
ghost use Rattle.std.specs.List.Sorted.{IsStrictlyIncreasing};
ghost use Rattle.std.specs.Option.{ForSome};
ghost use Rattle.peg_bytes.specs.Extent.{extent};
ghost use Rattle.peg_core.specs.CoreForm.{core_bodies};
ghost use Rattle.peg_core.specs.Layout.{bodies_of};
ghost use Rattle.peg_code.specs.Code.{entries_of, program_code};
ghost use Rattle.peg_grammar.specs.GrammarRules.{rules_in};
ghost use Rattle.peg_grammar.specs.Limits.{max_text_bytes};
ghost use Rattle.peg_semantics.specs.Terminals.{extents_of_terminals};
ghost use Rattle.peg_semantics.specs.WellFormed.{IsWellFormedGrammar};
ghost use Rattle.peg_machine.specs.RunContract.{IsRun, NeverStores};
ghost use Rattle.peg_machine.specs.SelectedTests.{listed};
ghost use Rattle.peg_machine.specs.Traced.{GetsCalls};
ghost use Rattle.peg_semantics.specs.Record.{RuleCall};

use crate::options::ParseOptions;
use crate::parser::ParseFault;
use crate::refusal::Refusal;
use peg_bytes::Span;
use peg_code::Program;
use peg_grammar::{Grammar, MAX_TEXT_BYTES};
use peg_machine::{Answer, NoWatch, RunFault, Runner, Watch};
use peg_memo::{CopiedNodes, NoMemo, NodeStore};
use peg_memo_policy::{RerunCosts, SelectiveStore};
use peg_tree::RuleSet;
use peg_tree::laws::a_selected_tree_has_no_other_rules;
use std::alloc::Global;

/// A well-formed grammar and its code, which parses every text. The trees have the nodes of the rules that the code
/// shows.
#[derive(Drop)]
pub(crate) struct Engine {
    grammar: Grammar,
    program: Program,
    costs: RerunCosts,
    pub ghost well_formed: { ∥ IsWellFormedGrammar (rules_in grammar) ∥₁ },
    pub ghost bodies: { ∥ bodies_of program.core ≡ core_bodies (rules_in grammar) ∥₁ },
    pub ghost code: { program.code ≡ program_code (core_bodies (rules_in grammar)) },
    pub ghost entries: { program.entries ≡ entries_of (core_bodies (rules_in grammar)) },
    pub ghost spans: { program.core.spans ≡ extents_of_terminals (rules_in grammar) },
}

// A parse runs without a memo first. That run may take `PLAIN_STEPS_BASE` steps, and `PLAIN_STEPS_PER_BYTE` for each
// byte of the text. Data formats take 5 to 10 steps for each byte, grammar files about 20, and programs in C 40 to 60.
const PLAIN_STEPS_BASE: u64 = 4_096;

const PLAIN_STEPS_PER_BYTE: u64 = 64;

// The step limit of the run without a memo: at most the limit of the parse.
fn plain_steps(bytes: usize, max_steps: Option<u64>) -> u64
    requires { bytes ≤ max_text_bytes }
    ensures { (limit : ℕ) → max_steps ≡ Some limit → result ≤ limit }
{
    let plain = PLAIN_STEPS_BASE + PLAIN_STEPS_PER_BYTE * bytes as u64;
    match max_steps {
        Some(limit) => limit.min(plain),
        None => plain,
    }
}

impl Engine {
    ghost use Rattle.peg_semantics.specs.Rules.{name_of};
    ghost use Rattle.peg_parser.specs.Calls.{AreCallsSoFar, AreFirstCalls, TracesCallsInOrder, TracesCallsOf};
    ghost use Rattle.peg_parser.specs.Calls.{TracesCallsSoFar, TracesSomeCalls};
    ghost use Rattle.peg_parser.specs.Engine.{engine_rules, shown_in};
    ghost use Rattle.peg_parser.specs.ParseContract.{IsParse};
    ghost use Rattle.peg_parser.specs.Parser.{start_named};
    ghost use Rattle.peg_parser.specs.ProgramOf.{IsProgramOf};
    ghost use Rattle.peg_semantics.specs.Starts.{start_name};

    /// Returns the engine of a well-formed grammar and its code. The only error is a failed allocation.
    pub(crate) fn new(alloc: Global, grammar: Grammar, program: Program) -> Result<Engine, Refusal>
        requires well_formed { IsWellFormedGrammar (rules_in grammar) }
        requires program { IsProgramOf (rules_in grammar) program }
        ensures rules { IfOk result (λ engine. engine_rules engine ≡ rules_in grammar) }
        ensures all_shown { IfOk result (λ engine. shown_in engine ≡ None) }
        ensures memory { IfErr result (λ why. why ≡ Refusal.Memory) }
    {
        let costs = RerunCosts::new(alloc, &program)?;
        Ok(Engine {
            grammar,
            program,
            costs,
        })
    }

    /// Returns the engine with a set of rules to show, or with all for `None`.
    pub(crate) fn showing(self, shown: Option<RuleSet>) -> Engine
        ensures rules { engine_rules result ≡ engine_rules self }
        ensures shown { shown_in result ≡ shown }
    {
        let Engine {
            grammar,
            program,
            costs,
        } = self;
        let program = program.showing(shown);
        Engine {
            grammar,
            program,
            costs,
        }
    }

    /// Returns the grammar.
    pub(crate) fn grammar(&self) -> &Grammar
        ensures { rules_in result.now ≡ engine_rules self.now }
    {
        &self.grammar
    }

    /// Returns the code.
    pub(crate) fn program(&self) -> &Program
        ensures code { result.now.code ≡ program_code (core_bodies (engine_rules self.now)) }
        ensures entries { result.now.entries ≡ entries_of (core_bodies (engine_rules self.now)) }
        ensures core { ∥ bodies_of result.now.core ≡ core_bodies (engine_rules self.now) ∥₁ }
    {
        &self.program
    }

    /// Returns the span of a terminal in the grammar file.
    pub(crate) fn terminal_span(&self, terminal: u32) -> Span
        requires { terminal < length (extents_of_terminals (engine_rules self.now)) }
        ensures { slice_get (extents_of_terminals (engine_rules self.now)) terminal ≡ Some (extent result) }
    {
        self.program.terminal_span(terminal)
    }

    /// Returns a runner of the code, before its first run.
    pub(crate) fn runner(&self, alloc: Global) -> Runner<'_>
        ensures { result.program.now ≡ self.now.program }
    {
        Runner::new(alloc, &self.program)
    }

    /// Parses a text, first without the memo. The furthest failure is that of the terminals in `among`, or of all.
    pub(crate) fn parse_selecting(
        &self,
        alloc: Global,
        text: &[u8],
        options: &ParseOptions<'_>,
        among: Option<&[u32]>,
    ) -> Result<Answer, ParseFault>
        requires { ForSome among (λ terminals. IsStrictlyIncreasing terminals.now) }
        ensures parse { IsParse (shown_in self.now) (listed among.entry) (engine_rules self.now) text.now
            (start_named options.now) (options.now.memo ≡ 0) options.now.steps result }
    {
        let mut runner = self.runner(alloc);
        self.parse_next(alloc, &mut runner, text, options, among)
    }

    /// Parses a text as `parse_selecting` does. The runs without a memo are those of a runner.
    pub(crate) fn parse_next(
        &self,
        alloc: Global,
        runner: &mut Runner<'_>,
        text: &[u8],
        options: &ParseOptions<'_>,
        among: Option<&[u32]>,
    ) -> Result<Answer, ParseFault>
        requires ascending { ForSome among (λ terminals. IsStrictlyIncreasing terminals.now) }
        requires program { runner.old.program.now ≡ self.now.program }
        ensures parse { IsParse (shown_in self.now) (listed among.entry) (engine_rules self.now) text.now
            (start_named options.now) (options.now.memo ≡ 0) options.now.steps result }
        ensures program { runner.new.program.now ≡ runner.old.program.now }
    {
        let Some(start) = self.start(options) else {
            return Err(ParseFault::NoSuchStart);
        };
        if options.memo == 0 || text.len() > MAX_TEXT_BYTES {
            return self.answer_plain(
                runner,
                alloc,
                text,
                start,
                among,
                &mut NoWatch,
                options.steps,
            );
        }
        let plain_steps = plain_steps(text.len(), options.steps);
        match self.answer_plain(
            runner,
            alloc,
            text,
            start,
            among,
            &mut NoWatch,
            Some(plain_steps),
        ) {
            Err(ParseFault::StepLimit) => {
                self.answer_with_memo(
                    alloc,
                    text,
                    start,
                    among,
                    options.memo,
                    &mut NoWatch,
                    options.steps,
                )
            }
            result => result,
        }
    }

    /// Parses a text in one run, and shows the tracer each call whose body runs.
    pub(crate) fn trace<W: Watch>(
        &self,
        alloc: Global,
        text: &[u8],
        options: &ParseOptions<'_>,
        watch: &mut W,
    ) -> Result<Answer, ParseFault>
        ensures parse { IsParse (shown_in self.now) None (engine_rules self.now) text.now (start_named options.now)
            (options.now.memo ≡ 0) options.now.steps result }
        ensures traced { IfOk result (λ answer. IfSome (start_name (engine_rules self.now) (start_named options.now))
            (λ start. TracesCallsOf (engine_rules self.now) text.now start answer
            (GetsCalls W.records W.traced watch.old watch.new))) }
        ensures in_order { options.now.memo ≡ 0
            → OnOk result (IfSome (start_name (engine_rules self.now) (start_named options.now))
            (λ start. TracesCallsInOrder (engine_rules self.now) text.now start
            (GetsCalls W.records W.traced watch.old watch.new))) }
        ensures stopped { IsErrOf result ParseFault.StepLimit
            → IfSome (start_name (engine_rules self.now) (start_named options.now))
            (λ start. TracesCallsSoFar (engine_rules self.now) text.now start options.now.memo options.now.steps
            (GetsCalls W.records W.traced watch.old watch.new)) }
        ensures out_of_memory { IsErrOf result ParseFault.Memory
            → IfSome (start_name (engine_rules self.now) (start_named options.now))
            (λ start. TracesSomeCalls (engine_rules self.now) text.now start
            (GetsCalls W.records W.traced watch.old watch.new)) }
        ensures untraced { IsErrOf result ParseFault.NoSuchStart → watch.new ≡ watch.old }
        ensures untraced_long { IsErrOf result ParseFault.TextTooLong → watch.new ≡ watch.old }
    {
        let (memo, max_steps) = (options.memo, options.steps);
        match self.start(options) {
            None => Err(ParseFault::NoSuchStart),
            Some(_) if text.len() > MAX_TEXT_BYTES => Err(ParseFault::TextTooLong),
            Some(start) if memo == 0 => {
                let mut runner = self.runner(alloc);
                self.answer_plain(&mut runner, alloc, text, start, None, watch, max_steps)
            }
            Some(start) => {
                self.answer_with_memo(alloc, text, start, None, memo, watch, max_steps)
            }
        }
    }

    // Runs the machine on a text from a rule, with a memo of this capacity and a tracer.
    fn answer_with_memo<W: Watch>(
        &self,
        alloc: Global,
        text: &[u8],
        start: u32,
        among: Option<&[u32]>,
        capacity: u32,
        watch: &mut W,
        max_steps: Option<u64>,
    ) -> Result<Answer, ParseFault>
        requires start { start < length (engine_rules self.now) }
        requires ascending { ForSome among (λ terminals. IsStrictlyIncreasing terminals.now) }
        requires short { length text.now ≤ max_text_bytes }
        requires capacity { 1 ≤ capacity }
        ensures parse { (named : Option (List ℕ))
            → start_name (engine_rules self.now) named ≡ Some (name_of (engine_rules self.now) start)
            → IsParse (shown_in self.now) (listed among.entry) (engine_rules self.now) text.now named ⊥ max_steps
            result }
        ensures traced { IfOk result (λ answer. TracesCallsOf (engine_rules self.now) text.now
            (name_of (engine_rules self.now) start) answer (GetsCalls W.records W.traced watch.old watch.new)) }
        ensures stopped { IsErrOf result ParseFault.StepLimit → (calls : List RuleCall)
            × GetsCalls W.records W.traced watch.old watch.new calls
            × AreCallsSoFar (engine_rules self.now) text.now (name_of (engine_rules self.now) start) max_steps calls }
        ensures out_of_memory { IsErrOf result ParseFault.Memory → TracesSomeCalls (engine_rules self.now) text.now
            (name_of (engine_rules self.now) start) (GetsCalls W.records W.traced watch.old watch.new) }
    {
        let mut store = SelectiveStore::new(alloc, capacity, &self.costs, text)?;
        let mut runner = self.runner(alloc);
        self.answer(
            &mut runner,
            text,
            start,
            among,
            &mut store,
            watch,
            max_steps,
        )
    }

    // Runs the machine on a text from a rule, without a memo and with a tracer.
    fn answer_plain<W: Watch>(
        &self,
        runner: &mut Runner<'_>,
        alloc: Global,
        text: &[u8],
        start: u32,
        among: Option<&[u32]>,
        watch: &mut W,
        max_steps: Option<u64>,
    ) -> Result<Answer, ParseFault>
        requires program { runner.old.program.now ≡ self.now.program }
        requires start { start < length (engine_rules self.now) }
        requires ascending { ForSome among (λ terminals. IsStrictlyIncreasing terminals.now) }
        ensures parse { (named : Option (List ℕ))
            → start_name (engine_rules self.now) named ≡ Some (name_of (engine_rules self.now) start)
            → IsParse (shown_in self.now) (listed among.entry) (engine_rules self.now) text.now named ⊤ max_steps
            result }
        ensures traced { IfOk result (λ answer. TracesCallsOf (engine_rules self.now) text.now
            (name_of (engine_rules self.now) start) answer (GetsCalls W.records W.traced watch.old watch.new)) }
        ensures in_order { OnOk result (TracesCallsInOrder
            (engine_rules self.now) text.now (name_of (engine_rules self.now) start)
            (GetsCalls W.records W.traced watch.old watch.new)) }
        ensures stopped { IsErrOf result ParseFault.StepLimit
            → (calls : List RuleCall) × GetsCalls W.records W.traced watch.old watch.new calls
            × AreCallsSoFar (engine_rules self.now) text.now (name_of (engine_rules self.now) start) max_steps calls
            × AreFirstCalls (engine_rules self.now) text.now (name_of (engine_rules self.now) start) calls }
        ensures out_of_memory { IsErrOf result ParseFault.Memory → TracesSomeCalls (engine_rules self.now) text.now
            (name_of (engine_rules self.now) start) (GetsCalls W.records W.traced watch.old watch.new) }
        ensures program { runner.new.program.now ≡ runner.old.program.now }
    {
        let mut memo = NoMemo;
        let mut store = CopiedNodes::new(alloc, &mut memo);
        self.answer(runner, text, start, among, &mut store, watch, max_steps)
    }

    // Runs the machine on a text from a rule, with a store without nodes and entries, and a tracer.
    fn answer<S: NodeStore, W: Watch>(
        &self,
        runner: &mut Runner<'_>,
        text: &[u8],
        start: u32,
        among: Option<&[u32]>,
        store: &mut S,
        watch: &mut W,
        max_steps: Option<u64>,
    ) -> Result<Answer, ParseFault>
        requires program { runner.old.program.now ≡ self.now.program }
        requires start { start < length (engine_rules self.now) }
        requires ascending { ForSome among (λ terminals. IsStrictlyIncreasing terminals.now) }
        requires no_nodes { (S.state store.old).nodes ≡ [] }
        requires empty { map.len (S.state store.old).memo.entries ≡ 0 }
        ensures parse { (named : Option (List ℕ))
            → start_name (engine_rules self.now) named ≡ Some (name_of (engine_rules self.now) start)
            → IsParse (shown_in self.now) (listed among.entry) (engine_rules self.now) text.now named
            (NeverStores (λ (any : S). (S.state any).memo.entries)) max_steps result }
        ensures traced { IfOk result (λ answer. TracesCallsOf (engine_rules self.now) text.now
            (name_of (engine_rules self.now) start) answer (GetsCalls W.records W.traced watch.old watch.new)) }
        ensures stopped { IsErrOf result ParseFault.StepLimit → (calls : List RuleCall)
            × GetsCalls W.records W.traced watch.old watch.new calls
            × AreCallsSoFar (engine_rules self.now) text.now (name_of (engine_rules self.now) start) max_steps calls }
        ensures in_order { NeverStores (λ (any : S). (S.state any).memo.entries) → OnOk result (TracesCallsInOrder
            (engine_rules self.now) text.now (name_of (engine_rules self.now) start)
            (GetsCalls W.records W.traced watch.old watch.new)) }
        ensures stopped_in_order { NeverStores (λ (any : S). (S.state any).memo.entries)
            → IsErrOf result ParseFault.StepLimit
            → (calls : List RuleCall) × GetsCalls W.records W.traced watch.old watch.new calls
            × AreCallsSoFar (engine_rules self.now) text.now (name_of (engine_rules self.now) start) max_steps calls
            × AreFirstCalls (engine_rules self.now) text.now (name_of (engine_rules self.now) start) calls }
        ensures out_of_memory { IsErrOf result ParseFault.Memory → TracesSomeCalls (engine_rules self.now) text.now
            (name_of (engine_rules self.now) start) (GetsCalls W.records W.traced watch.old watch.new) }
        ensures program { runner.new.program.now ≡ runner.old.program.now }
    {
        a_selected_tree_has_no_other_rules();
        match self.run(runner, text, start, among, store, watch, max_steps) {
            Ok(answer) => Ok(answer),
            Err(RunFault::TextTooLong) => Err(ParseFault::TextTooLong),
            Err(RunFault::StepLimit) => Err(ParseFault::StepLimit),
            Err(RunFault::Memory) => Err(ParseFault::Memory),
        }
    }

    // One run of the machine on a text from a rule, by a runner of the code.
    fn run<S: NodeStore, W: Watch>(
        &self,
        runner: &mut Runner<'_>,
        text: &[u8],
        start: u32,
        among: Option<&[u32]>,
        store: &mut S,
        watch: &mut W,
        max_steps: Option<u64>,
    ) -> Result<Answer, RunFault>
        requires program { runner.old.program.now ≡ self.now.program }
        requires start { start < length (engine_rules self.now) }
        requires ascending { ForSome among (λ terminals. IsStrictlyIncreasing terminals.now) }
        requires no_nodes { (S.state store.old).nodes ≡ [] }
        requires empty { map.len (S.state store.old).memo.entries ≡ 0 }
        ensures run { IsRun (shown_in self.now) (listed among.entry) (bodies_of self.now.program.core) text.now start
            max_steps
            (NeverStores (λ (any : S). (S.state any).memo.entries)) (S.state store.old).memo.capacity
            (S.state store.new).memo.allocation_failed
            (GetsCalls W.records W.traced watch.old watch.new) result }
        ensures program { runner.new.program.now ≡ runner.old.program.now }
    {
        runner.run(text, start, among, store, watch, max_steps)
    }

    // The number of the start rule.
    fn start(&self, options: &ParseOptions<'_>) -> Option<u32>
        ensures none { (result ≡ None) ↔ (start_name (engine_rules self.now) (start_named options.now) ≡ None) }
        ensures some { IfSome result (λ start. start < length (engine_rules self.now)) }
        ensures named { IfSome result (λ start.
            start_name (engine_rules self.now) (start_named options.now) ≡ Some (name_of
            (engine_rules self.now) start)) }
    {
        match options.start {
            None => Some(0),
            Some(name) => self.grammar.rule_number(name),
        }
    }
}
