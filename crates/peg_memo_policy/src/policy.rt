//! The policy that decides which results are stored.
//!
//! **Work pays for moves.** To store a result is to move its items: its nodes, with one link in the place of each result
//! that is part of it. `credit` grows with each body that is run and with each hit. It shrinks by the items that are
//! stored. A result is stored only if the credit has grown by at least its number of items since its body began. So no
//! more items are moved than work was done. A body that is declined for this reason has left results in the memo for at
//! least half of its work, and a second run finds them. A rule in debt has a higher price: the credit must have grown by
//! more than `WORK_PER_CALL` for each item. If each of these items was made once and nothing else was done, running the
//! body again costs hardly more.
//!
//! **Tiny rules aren't looked up.** Their bodies cost less than a memo lookup.
//!
//! **What was never stored isn't looked up**: see `RecentFilter`.
//!
//! **Each rule has a balance.** A stored result lowers the balance, and a hit raises it. A rule in debt has few calls
//! that are repeated, so only a sample of its small results is stored. The sample shows when this changes. A small
//! result is one that is cheap to compute again. The counted work of its body is bounded, and by `RerunCost` its own
//! instructions are bounded too. Such a body runs again at most as often as it is called, and its work then counts as
//! work of the calling body. If that work grows, the calling body is no longer small. Then the first test alone decides
//! whether it is stored.
ghost use Rattle.std.specs.Prelude.{◌≡◌};

use crate::recent_filter::RecentFilter;
use crate::size::Size;
use crate::{RerunCost, RerunCosts};
use std::alloc::{AllocError, Global};

// The work that a body counts for, besides its items.
const WORK_PER_CALL: u64 = 4;

// A rule with a smaller balance is in debt. A rule starts with the price of 512 stored failures more, so that on short
// texts everything is stored.
const DEBT_THRESHOLD: u64 = 256;

const INITIAL_BALANCE: u64 = 4352;

const MAX_BALANCE: u64 = 65536;

// What each stored result costs its rule besides its items, and what each hit adds besides what it saves.
const STORE_COST: u64 = 8;

const HIT_GAIN: u64 = 4;

// The work of a small result is less than `SMALL_WORK`, plus `SMALL_WORK_PER_ITEM` for each of its items.
const SMALL_WORK: u64 = 256;

const SMALL_WORK_PER_ITEM: u64 = 16;

// A rule in debt stores one in `SAMPLE_PERIOD` of its small results, and fewer of those with more items.
const SAMPLE_PERIOD: u64 = 128;

/// Whether the result of a call is stored.
#[derive(Clone, Copy, Debug, PartialEq, Eq)]
pub enum Decision {
    /// It isn't stored: its work doesn't pay for an entry.
    Decline,
    /// It is stored.
    Store,
    /// It isn't stored: it is small, of a rule in debt, and not part of the sample.
    Skip,
    /// It is stored as a sample of the small results of a rule in debt.
    Sample,
}

// The account of a rule.
#[derive(Clone, Copy)]
struct RuleAccount {
    trivial: bool,
    linear_on_success: bool,
    // The number of small results that were declined since the last one was stored.
    skipped: u32,
    balance: u64,
}

// Bodies that began directly within each other. The credit grew by `WORK_PER_CALL` from each to the next.
#[derive(Clone, Copy)]
struct CallRun {
    // The credit after the start of the newest body.
    next: u64,
    bodies: u64,
}

/// The decisions on one parse: what was stored recently, and how far it was of use.
#[derive(Drop)]
pub struct Policy<'a> {
    text: &'a [u8],
    costs: &'a RerunCosts,
    accounts: Vec<RuleAccount>,
    recent: RecentFilter,
    // The open bodies.
    open: Vec<CallRun>,
    credit: u64,
    // Whether an allocation for an open body has failed. Then `open` lacks it.
    pub(crate) out_of_memory: bool,
}

impl<'a> Policy<'a> {
    /// Returns the policy of a memo that has no entries yet. The only error is a failed allocation.
    pub fn new(
        alloc: Global,
        capacity: u32,
        costs: &'a RerunCosts,
        text: &'a [u8],
    ) -> Result<Policy<'a>, AllocError> {
        Ok(Policy {
            text,
            costs,
            accounts: first_accounts(alloc, costs.rules())?,
            recent: RecentFilter::new(alloc, capacity)?,
            open: Vec::new(alloc),
            credit: 0,
            out_of_memory: false,
        })
    }

    /// Returns whether the memo must be searched for a call. If not, this call counts as the start of its body.
    pub fn should_look_up(&mut self, rule: u32, position: u32) -> bool {
        match self.accounts.get(rule as usize) {
            Some(account) if account.trivial => {
                self.credit = self.credit.saturating_add(WORK_PER_CALL);
                false
            }
            Some(_) if self.recent.has(rule, position) => true,
            Some(_) => {
                self.begin();
                false
            }
            None => false,
        }
    }

    /// Returns whether an allocation for the start of a body has failed. Then no more results may be offered.
    pub fn is_out_of_memory(&self) -> bool
        ensures { result ≡ self.now.out_of_memory }
    {
        self.out_of_memory
    }

    /// Records the start of a body. If an allocation for it fails, the policy is out of memory.
    pub fn begin(&mut self) {
        match self.open.last_mut() {
            Some(run) if run.next == self.credit => {
                run.bodies = run.bodies.saturating_add(1);
                run.next = run.next.saturating_add(WORK_PER_CALL);
                self.credit = run.next;
            }
            _ => self.begin_run(),
        }
    }

    // Records the start of a body that is not directly within the newest nest.
    #[inline(never)]
    fn begin_run(&mut self) {
        let next = self.credit.saturating_add(WORK_PER_CALL);
        if self.open.push(CallRun { next, bodies: 1 }).is_ok() {
            self.credit = next;
        } else {
            self.out_of_memory = true;
        }
    }

    /// Records a hit: the memo returned the result of a rule at a position.
    pub fn note_found(&mut self, rule: u32, position: u32, size: Size) {
        self.recent.note_found(rule, position);
        self.credit = self.credit.saturating_add(size.items.saturating_mul(2));
        if let Some(account) = self.accounts.get_mut(rule as usize) {
            let saved = size.nodes.saturating_mul(4).saturating_add(size.bytes);
            let balance = account
                .balance
                .saturating_add(saved)
                .saturating_add(HIT_GAIN);
            account.balance = balance.min(MAX_BALANCE);
        }
    }

    /// Ends a call whose body has ended. Returns the work since the body began, or `None` if it isn't known: for a
    /// trivial rule, and for the first call of the start rule, which nothing looks up.
    pub fn end_call(&mut self, rule: u32) -> Option<u64> {
        if self.accounts.get(rule as usize)?.trivial {
            return None;
        }
        let began = end_newest_call(&mut self.open)?;
        Some(self.credit.saturating_sub(began))
    }

    /// Decides whether the result of a call that took this work is stored.
    pub fn decide(&self, rule: u32, position: u32, size: Size, work: u64) -> Decision {
        let Some(account) = self.accounts.get(rule as usize) else {
            return Decision::Decline;
        };
        if work < account.price_of(size.items) {
            return Decision::Decline;
        }
        if account.balance >= DEBT_THRESHOLD || !is_small(size, work) {
            return Decision::Store;
        }
        let is_cheap = if size.failed {
            is_cheap_failure(self.costs, rule, self.text, position)
        } else {
            account.linear_on_success
        };
        match (is_cheap, account.is_next_sample(size.items)) {
            (false, _) => Decision::Store,
            (true, true) => Decision::Sample,
            (true, false) => Decision::Skip,
        }
    }

    /// Records that a small result of a rule in debt was skipped.
    pub fn note_skipped(&mut self, rule: u32) {
        if let Some(account) = self.accounts.get_mut(rule as usize) {
            account.skipped = account.skipped.saturating_add(1);
        }
    }

    /// Records that a small result of a rule in debt is stored as a sample.
    pub fn note_sampled(&mut self, rule: u32) {
        if let Some(account) = self.accounts.get_mut(rule as usize) {
            account.skipped = 0;
        }
    }

    /// Records that a result was stored.
    pub fn note_stored(&mut self, rule: u32, position: u32, size: Size) {
        self.recent.note_stored(rule, position);
        self.credit = self.credit.saturating_sub(size.items);
        if let Some(account) = self.accounts.get_mut(rule as usize) {
            let price = size.items.saturating_add(STORE_COST);
            account.balance = account.balance.saturating_sub(price);
        }
    }
}

impl RuleAccount {
    // The least work for which a result with this number of items is stored.
    fn price_of(&self, items: u64) -> u64 {
        if self.balance < DEBT_THRESHOLD {
            items.saturating_mul(WORK_PER_CALL).saturating_add(1)
        } else {
            items
        }
    }

    // Whether the next small result is part of the sample.
    fn is_next_sample(&self, items: u64) -> bool {
        let period = SAMPLE_PERIOD.saturating_add(items.saturating_mul(SAMPLE_PERIOD / 16));
        u64::from(self.skipped).saturating_add(1) >= period
    }
}

// Ends the newest open body, and returns the credit at its start.
fn end_newest_call(open: &mut Vec<CallRun>) -> Option<u64> {
    let run = open.last_mut()?;
    let began = run.next.saturating_sub(WORK_PER_CALL);
    run.next = began;
    run.bodies = run.bodies.saturating_sub(1);
    if run.bodies == 0 {
        open.pop();
    }
    Some(began)
}

// Whether a result is small: its work, and the bytes that were read for it, are cheap to repeat.
fn is_small(size: Size, work: u64) -> bool {
    let limit = SMALL_WORK.saturating_add(size.items.saturating_mul(SMALL_WORK_PER_ITEM));
    work.saturating_add(size.bytes) < limit
}

// Whether a rule that fails at a position of a text does little work of its own.
fn is_cheap_failure(costs: &RerunCosts, rule: u32, text: &[u8], position: u32) -> bool {
    match costs.rules().get(rule as usize) {
        Some(cost) => cost.is_cheap_failure(text.get(position as usize).copied()),
        None => false,
    }
}

// The first accounts of rules with these costs.
fn first_accounts(alloc: Global, costs: &[RerunCost]) -> Result<Vec<RuleAccount>, AllocError> {
    costs
        .iter()
        .map(|cost| RuleAccount {
            trivial: cost.trivial,
            linear_on_success: cost.linear_on_success,
            skipped: 0,
            balance: INITIAL_BALANCE,
        })
        .collect(alloc)
}
