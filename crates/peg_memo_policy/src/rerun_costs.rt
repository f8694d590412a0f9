//! The cost of running each rule of a program again.
//!
//! If a policy declines to store a result, the body of the rule may run again. The calls in the body are counted by the
//! memo, since each of them is looked up. The body's own instructions aren't counted. This module decides from the code
//! alone which rules have few instructions of their own. It looks at each rule separately, and at a fixed number of its
//! first instructions. Stars are judged by the core forms of the body. Each instruction and each form is visited a fixed
//! number of times at most, without recursion.
ghost use Rattle.std.specs.Prelude.{◌≡◌, length, IfOk};

use crate::RerunCost;
use crate::stars::{StarEffect, worst_star};
use peg_bytes::ByteSet;
use peg_code::{InstrRef, Program};
use std::alloc::{AllocError, Global};

// The number of instructions that are cheap to run again.
const MAX_TRIVIAL_STEPS: u32 = 32;

// Bodies with more instructions aren't searched for stars.
const MAX_BODY_SIZE: u32 = 64;

/// The cost of each rule, by number.
#[derive(Debug, Drop)]
pub struct RerunCosts {
    rules: Vec<RerunCost>,
}

impl RerunCosts {
    ghost use Rattle.peg_memo_policy.specs.RerunCosts.{costs_of};

    /// Computes the costs of a program's rules. Takes time linear in the number of instructions. The only error is a
    /// failed allocation.
    pub fn new(alloc: Global, program: &Program) -> Result<RerunCosts, AllocError>
        ensures { IfOk result (λ costs. length (costs_of costs) ≡ length program.now.core.bodies) }
    {
        let mut walk = Walk {
            alloc,
            program,
            ways: Vec::with_capacity(alloc, MAX_TRIVIAL_STEPS as usize)?,
        };
        let count = program.rules();
        let mut rules = Vec::with_capacity(alloc, count as usize)?;
        for rule in 0..count {
            rules.push(walk.cost(rule)?)?;
        }
        Ok(RerunCosts { rules })
    }

    /// Returns the cost of each rule, in order. Takes constant time.
    pub fn rules(&self) -> &[RerunCost]
        ensures { result.now ≡ costs_of self.now }
    {
        self.rules.as_slice()
    }
}

// The next instruction of a walk.
#[derive(Clone, Copy)]
enum Next {
    // This instruction.
    At(u32),
    // None: the rule has ended.
    Ended,
    // Unknown.
    Unknown,
}

// An entry of the stack of a walk.
#[derive(Clone, Copy)]
enum Return {
    // A call that returns to this instruction.
    AfterCall(u32),
    // A choice point at this instruction.
    ChoicePoint(u32),
}

// A walk over the code of a program.
#[derive(Drop)]
struct Walk<'a> {
    alloc: Global,
    program: &'a Program,
    ways: Vec<Return>,
}

impl Walk<'_> {
    // The cost of a rule.
    fn cost(&mut self, rule: u32) -> Result<RerunCost, AllocError> {
        let trivial = self.is_tiny(rule)?;
        let slow_next = self.slow_bytes(rule)?;
        let stars = self.stars(rule)?;
        Ok(RerunCost {
            trivial,
            linear_on_success: !matches!(stars, StarEffect::MayBeDiscarded),
            linear_on_failure: matches!(stars, StarEffect::Committed),
            slow_next: slow_next.unwrap_or(ByteSet::full()),
            slow_at_end: slow_next.is_none(),
        })
    }

    // The worst effect of the stars in a rule's body. Long bodies aren't searched.
    fn stars(&self, rule: u32) -> Result<StarEffect, AllocError> {
        if self.end(rule).saturating_sub(self.entry(rule)) > MAX_BODY_SIZE {
            return Ok(StarEffect::MayBeDiscarded);
        }
        worst_star(self.alloc, self.program.core(), rule)
    }

    // Whether a rule, with all that it calls, has few instructions and no star. A recursive rule is not tiny.
    fn is_tiny(&mut self, rule: u32) -> Result<bool, AllocError> {
        self.ways.clear();
        let mut pc = self.entry(rule);
        for _ in 0..MAX_TRIVIAL_STEPS {
            match self.next_in_layout(pc)? {
                Next::At(next) => pc = next,
                Next::Ended => return Ok(true),
                Next::Unknown => return Ok(false),
            }
        }
        Ok(false)
    }

    // The next instruction in the order of the code, where a call continues with the code of the called rule.
    fn next_in_layout(&mut self, pc: u32) -> Result<Next, AllocError> {
        Ok(match self.instr_ref(pc) {
            InstrRef::Call(rule) => {
                self.ways.push(Return::AfterCall(pc.saturating_add(1)))?;
                Next::At(self.entry(rule))
            }
            InstrRef::Commit(target) if target <= pc => Next::Unknown,
            InstrRef::End => Next::Unknown,
            InstrRef::Ret => match self.ways.pop() {
                Some(Return::AfterCall(next)) => Next::At(next),
                _ => Next::Ended,
            },
            _ => Next::At(pc.saturating_add(1)),
        })
    }

    // The bytes on which a rule may take more than a few instructions; None if it may do so on any byte and at the end
    // of the text. A test that passes consumes a byte, and no more is known from there. If all tests fail, the walk
    // takes the same path on every byte. So it is taken once, and the bytes of the sets on this path are slow.
    fn slow_bytes(&mut self, rule: u32) -> Result<Option<ByteSet>, AllocError> {
        self.ways.clear();
        let mut taken = ByteSet::empty();
        let mut pc = self.entry(rule);
        for _ in 0..MAX_TRIVIAL_STEPS {
            if let InstrRef::Test { set, .. } = self.instr_ref(pc) {
                taken = taken.union(set);
            }
            match self.next_if_all_tests_fail(pc)? {
                Next::At(next) => pc = next,
                Next::Ended => return Ok(Some(taken)),
                Next::Unknown => return Ok(None),
            }
        }
        Ok(None)
    }

    // The instruction that runs next if each test fails.
    fn next_if_all_tests_fail(&mut self, pc: u32) -> Result<Next, AllocError> {
        Ok(match self.instr_ref(pc) {
            InstrRef::Test { .. } => self.fail(),
            InstrRef::Call(rule) => {
                self.ways.push(Return::AfterCall(pc.saturating_add(1)))?;
                Next::At(self.entry(rule))
            }
            InstrRef::Choice(target) => {
                self.ways.push(Return::ChoicePoint(target))?;
                Next::At(pc.saturating_add(1))
            }
            InstrRef::Commit(target) => {
                self.ways.pop();
                Next::At(target)
            }
            InstrRef::FailTwice => {
                self.ways.pop();
                self.fail()
            }
            InstrRef::Ret => match self.ways.pop() {
                Some(Return::AfterCall(next)) => Next::At(next),
                _ => Next::Ended,
            },
            InstrRef::End => Next::Unknown,
        })
    }

    // Backtracks to the newest choice point.
    fn fail(&mut self) -> Next {
        while let Some(back) = self.ways.pop() {
            if let Return::ChoicePoint(target) = back {
                return Next::At(target);
            }
        }
        Next::Ended
    }

    // The instruction with a number; `End` if there is none.
    fn instr_ref(&self, pc: u32) -> InstrRef<'_> {
        if pc < self.program.len() {
            self.program.instr_ref(pc)
        } else {
            InstrRef::End
        }
    }

    // The first instruction of a rule; 0 if there is no such rule.
    fn entry(&self, rule: u32) -> u32 {
        if rule < self.program.rules() {
            self.program.entry(rule)
        } else {
            0
        }
    }

    // The instruction after a rule's code.
    fn end(&self, rule: u32) -> u32 {
        match self.entry(rule.saturating_add(1)) {
            0 => self.program.len(),
            next => next,
        }
    }
}
