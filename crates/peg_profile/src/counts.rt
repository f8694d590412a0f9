//! Counting the calls of each rule.
ghost use Rattle.std.specs.Prelude.{◌≡◌, ◌↔◌, ◌⊎◌, ℕ, ◌<◌, ◌∷◌, ◌++◌, [], true, Contains, IfOk, IsTrue, List, OnErr, OnOk};
ghost use Rattle.std.specs.Prelude.{vec_len};
ghost use Rattle.std.specs.List.Sorted.{IsStrictlyIncreasing};
ghost use Rattle.peg_semantics.specs.Record.{RuleCall};
ghost use Rattle.peg_profile.specs.Positions.{positions_of};
ghost use Rattle.peg_profile.specs.Profiles.{AreProfilesOf, IsProfileOf};

use peg_machine::Watch;
use std::alloc::{AllocError, Global};

/// What a parse did with a rule.
#[derive(Clone, Copy, Debug, PartialEq, Eq)]
pub struct RuleProfile {
    /// The number of its calls.
    pub calls: usize,
    /// The number of different positions of these calls.
    pub places: usize,
}

/// A tracer that counts the calls of each rule and their different positions.
///
/// Takes at most 24 bytes of memory for each pair of a rule and a position, also while it grows, and up to 120 bytes for
/// each rule. The number of calls doesn't matter. A call takes logarithmic time in the number of positions, on average.
///
/// # Example
///
/// ```
/// let mut counts = CallCounts::new(alloc);
/// let answer = parser.trace(alloc, b"aab", &options, &mut counts)?;
/// let profiles = counts.profiles(alloc, parser.grammar().rules())?;
/// ```
#[derive(Debug, Drop)]
pub struct CallCounts {
    alloc: Global,
    rules: Vec<RuleCalls>,
}

// The calls of one rule: how many there are, and the position of each of them. A position may occur more than once.
#[derive(Debug, Drop)]
pub(crate) struct RuleCalls {
    calls: usize,
    positions: Vec<u32>,
    // So many positions ascend from the first on. They are searched before a position is added.
    sorted: usize,
}

impl RuleCalls {
    ghost use Rattle.peg_profile.specs.Counts.{AreCounted};

    // The counts of a rule without calls. Doesn't allocate.
    fn new(alloc: Global) -> RuleCalls
        ensures { AreCounted [] result }
    {
        RuleCalls {
            calls: 0,
            positions: Vec::new(alloc),
            sorted: 0,
        }
    }

    // Counts a call. The number of calls fits, or it is an error as if memory were missing.
    fn add(&mut self, position: u32) -> Result<(), AllocError>
        ensures ok { OnOk result ((positions : List ℕ) → AreCounted positions self.old
            → AreCounted (positions ++ position ∷ []) self.new) }
        ensures err { OnErr result ((positions : List ℕ) → AreCounted positions self.old
            → AreCounted positions self.new) }
    {
        let Some(calls) = self.calls.checked_add(1) else {
            return Err(AllocError);
        };
        self.insert(position)?;
        self.calls = calls;
        Ok(())
    }

    // Adds a position, unless it is among the sorted ones.
    fn insert(&mut self, position: u32) -> Result<(), AllocError>
        ensures calls { self.new.calls ≡ self.old.calls }
        ensures ok { OnOk result ((n : ℕ) → (Contains self.new.positions.items n
            ↔ Contains (self.old.positions.items ++ position ∷ []) n)) }
        ensures err { OnErr result ((n : ℕ) → (Contains self.new.positions.items n
            ↔ Contains self.old.positions.items n)) }
    {
        if self.has_sorted(position) {
            return Ok(());
        }
        self.make_room()?;
        self.positions.push(position)?;
        Ok(())
    }

    // Whether a position is among the sorted ones.
    fn has_sorted(&self, position: u32) -> bool
        ensures { IsTrue result → Contains self.now.positions.items position }
    {
        let count = self.sorted.min(self.positions.len());
        let sorted = &self.positions[..count];
        match sorted.last() {
            Some(last) if position <= *last => sorted.binary_search(&position).is_ok(),
            _ => false,
        }
    }

    // Makes room for another position. If the list is full, repetitions are dropped first. It grows only if more than
    // half of it is left.
    fn make_room(&mut self) -> Result<(), AllocError>
        ensures calls { self.new.calls ≡ self.old.calls }
        ensures same { (n : ℕ) → (Contains self.new.positions.items n ↔ Contains self.old.positions.items n) }
    {
        let capacity = self.positions.capacity();
        if self.positions.len() < capacity {
            return Ok(());
        }
        self.drop_repetitions();
        let count = self.positions.len();
        if count > capacity / 2 {
            self.positions.reserve(count)?;
        }
        Ok(())
    }

    // Sorts the positions, each once.
    fn drop_repetitions(&mut self)
        ensures calls { self.new.calls ≡ self.old.calls }
        ensures same { (n : ℕ) → (Contains self.new.positions.items n ↔ Contains self.old.positions.items n) }
        ensures sorted { IsStrictlyIncreasing self.new.positions.items }
    {
        self.positions.sort_unstable();
        self.positions.dedup();
        self.sorted = self.positions.len();
    }

    // The profile of the rule.
    fn profile(&mut self) -> RuleProfile
        ensures profile { (positions : List ℕ) → AreCounted positions self.old → IsProfileOf positions result }
        ensures same { (positions : List ℕ) → AreCounted positions self.old → AreCounted positions self.new }
    {
        self.drop_repetitions();
        RuleProfile {
            calls: self.calls,
            places: self.positions.len(),
        }
    }
}

impl CallCounts {
    ghost use Rattle.peg_profile.specs.Counts.{HasCounted};

    /// Returns a tracer that has counted no call. Doesn't allocate.
    pub fn new(alloc: Global) -> CallCounts
        ensures { HasCounted result [] }
    {
        CallCounts {
            alloc,
            rules: Vec::new(alloc),
        }
    }

    /// Returns the profile of each rule of a grammar with this many, in order. Calls of other rules are left out. Sorts
    /// the positions. The only error is a failed allocation.
    pub fn profiles(&mut self, alloc: Global, rules: u32) -> Result<Vec<RuleProfile>, AllocError>
        ensures { (calls : List RuleCall) → HasCounted self.old calls
            → IfOk result (λ profiles. AreProfilesOf rules calls profiles.items) }
    {
        let mut profiles = Vec::with_capacity(alloc, rules as usize)?;
        'rules: for rule in 0..rules {
            profiles.push(self.profile_of(rule))?;
        }
        Ok(profiles)
    }

    // The profile of a rule.
    fn profile_of(&mut self, rule: u32) -> RuleProfile
        ensures profile { (calls : List RuleCall) → HasCounted self.old calls
            → IsProfileOf (positions_of rule calls) result }
        ensures same { (calls : List RuleCall) → HasCounted self.old calls → HasCounted self.new calls }
    {
        match self.rules.get_mut(rule as usize) {
            Some(counts) => counts.profile(),
            None => RuleProfile {
                calls: 0,
                places: 0,
            },
        }
    }

    // Makes the list long enough for the counts of a rule.
    fn list_rule(&mut self, rule: u32) -> Result<(), AllocError>
        ensures within { OnOk result (rule < vec_len self.new.rules) }
        ensures same { (calls : List RuleCall) → HasCounted self.old calls → HasCounted self.new calls }
    {
        let missing = (rule as usize + 1).saturating_sub(self.rules.len());
        'missing: for _index in 0..missing {
            self.rules.push(RuleCalls::new(self.alloc))?;
        }
        Ok(())
    }
}

impl Watch for CallCounts {
    ghost use Rattle.peg_profile.specs.Counts.{HasCounted};

    ghost records = { true };

    ghost traced = { HasCounted };

    fn begin(&mut self, rule: u32, position: u32) -> Result<(), AllocError> {
        self.list_rule(rule)?;
        match self.rules.get_mut(rule as usize) {
            Some(counts) => counts.add(position),
            None => unreachable!(),
        }
    }
}
