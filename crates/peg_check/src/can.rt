//! Ford's abstract outcomes, and how those of a form follow from those of its parts.
ghost use Rattle.std.specs.Prelude.{◌≡◌};
ghost use Rattle.peg_semantics.specs.AbstractOutcomes.{star_outcome, seq_outcome, choice_outcome, not_outcome, succeeds};
ghost use Rattle.peg_check.specs.Cans.{can_of};
ghost use Rattle.peg_check.specs.Fixpoint.{union_of};

/// The abstract outcomes of an expression (Ford 2004, section 3.5). It may succeed without consuming a byte (0),
/// succeed and consume some (1), or fail (f).
#[derive(Clone, Copy, Debug, PartialEq, Eq)]
pub struct Can {
    pub nothing: bool,
    pub something: bool,
    pub fails: bool,
}

impl Can {
    /// Returns whether 0 or 1 is an outcome.
    fn succeeds(self) -> bool
        ensures { result ≡ succeeds (can_of self) }
    {
        self.nothing || self.something
    }

    /// Returns the outcomes of a sequence.
    pub(crate) fn then(self, rest: Can) -> Can
        ensures { can_of result ≡ seq_outcome (can_of self) (can_of rest) }
    {
        let succeed = self.succeeds() && rest.succeeds();
        Can {
            nothing: self.nothing && rest.nothing,
            something: succeed && (self.something || rest.something),
            fails: self.fails || (self.succeeds() && rest.fails),
        }
    }

    /// Returns the outcomes of a choice.
    pub(crate) fn or_else(self, rest: Can) -> Can
        ensures { can_of result ≡ choice_outcome (can_of self) (can_of rest) }
    {
        Can {
            nothing: self.nothing || (self.fails && rest.nothing),
            something: self.something || (self.fails && rest.something),
            fails: self.fails && rest.fails,
        }
    }

    /// Returns the outcomes of a star.
    pub(crate) fn again(self) -> Can
        ensures { can_of result ≡ star_outcome (can_of self) }
    {
        Can {
            nothing: self.fails,
            something: self.something,
            fails: false,
        }
    }

    /// Returns the outcomes of a not-predicate.
    pub(crate) fn not_ahead(self) -> Can
        ensures { can_of result ≡ not_outcome (can_of self) }
    {
        Can {
            nothing: self.fails,
            something: false,
            fails: self.succeeds(),
        }
    }

    /// Returns the union of both.
    pub(crate) fn union(self, more: Can) -> Can
        ensures { result ≡ union_of self (can_of more) }
    {
        Can {
            nothing: self.nothing || more.nothing,
            something: self.something || more.something,
            fails: self.fails || more.fails,
        }
    }
}
