//! Warnings and their kinds.
ghost use Rattle.std.specs.Prelude.{◌≡◌};

use peg_bytes::Span;

/// What a warning says of a part of a grammar.
#[derive(Clone, Copy, Debug, PartialEq, Eq)]
pub enum WarningKind {
    /// A rule that the start rule never calls, directly or through other rules. The span is that of its name.
    UnusedRule,
    /// An alternative, an item of a sequence, or a rule's expression that fails wherever it is tried.
    NeverMatches,
    /// An alternative after one that never fails.
    NeverTried,
    /// A predicate that fails wherever it is tried.
    AlwaysFails,
    /// An operator without which the same is matched: `e?`, `e*`, `&e` or `!e`.
    NoEffect,
    /// An alternative that is the same as an earlier one.
    SameAlternative,
    /// An alternative that fails wherever an earlier one fails.
    Shadowed,
    /// An item of a sequence that fails wherever the star or plus before it ends.
    NeverStops,
    /// An item of a sequence that fails wherever the item before it, which is no star and no plus, ends.
    NeverFollows,
    /// An item of a sequence that matches no byte wherever the item before it ends.
    TakesNothing,
    /// A range in a class whose first byte is greater than its last, so that it holds no byte.
    ReversedRange,
    /// An empty alternative that is not the last one, as a leading or a doubled slash leaves it.
    EmptyAlternative,
    /// A dot at the end of a rule before another one, as some notations end each rule. It comes after another item, and
    /// is not reported after a predicate or a dot.
    AnyAtEnd,
    /// A class that begins with a caret, which other notations read as all other bytes.
    ClassBeginsWithCaret,
    /// A range in a class whose last character is a bracket without a backslash.
    ClassEndsInRange,
    /// A range in a class of three characters that goes over signs: from a digit or a capital letter to a letter of
    /// another kind, or from a sign to another one over the dash.
    RangeOverSigns,
    /// A literal or a class that goes over the end of a line.
    HoldsLineEnd,
    /// A class with a byte that isn't ASCII. A letter of UTF-8 is two bytes or more there.
    HighBytesInClass,
    /// A class with a space at both ends, and something between them.
    BlanksInClass,
    /// A byte or a range in a class that has a byte of an earlier one.
    RepeatedByte,
}

impl WarningKind {
    ghost use Rattle.peg_lint.specs.FileWarnings.{is_proved};

    /// Returns whether a warning of this kind is proved: it is true of every text, or a range holds no byte. The other
    /// kinds are habits of other notations.
    pub fn is_proved(self) -> bool
        ensures { result ≡ is_proved self }
    {
        match self {
            WarningKind::UnusedRule
            | WarningKind::NeverMatches
            | WarningKind::NeverTried
            | WarningKind::AlwaysFails
            | WarningKind::NoEffect
            | WarningKind::SameAlternative
            | WarningKind::Shadowed
            | WarningKind::NeverStops
            | WarningKind::NeverFollows
            | WarningKind::TakesNothing
            | WarningKind::ReversedRange => true,
            WarningKind::EmptyAlternative
            | WarningKind::AnyAtEnd
            | WarningKind::ClassBeginsWithCaret
            | WarningKind::ClassEndsInRange
            | WarningKind::RangeOverSigns
            | WarningKind::HoldsLineEnd
            | WarningKind::HighBytesInClass
            | WarningKind::BlanksInClass
            | WarningKind::RepeatedByte => false,
        }
    }
}

/// Which warnings are reported.
#[derive(Clone, Copy, Debug, PartialEq, Eq)]
pub enum Selection {
    /// All warnings.
    All,
    /// Only those of a kind that is proved.
    Proved,
}

impl Selection {
    ghost use Rattle.peg_lint.specs.FileWarnings.{selection_of};

    /// Returns `Proved` if `proved` is set, otherwise `All`.
    pub fn from_proved(proved: bool) -> Selection
        ensures { result ≡ selection_of proved }
    {
        if proved {
            Selection::Proved
        } else {
            Selection::All
        }
    }
}

/// A warning about a part of a grammar.
#[derive(Clone, Copy, Debug, PartialEq, Eq)]
pub struct Warning {
    pub kind: WarningKind,
    /// The number of the rule that the part belongs to.
    pub rule: u32,
    /// The span of the part in the grammar file, in byte offsets.
    pub span: Span,
    /// The span of the earlier alternative or item that is the cause, for `NeverTried`, `SameAlternative`, `Shadowed`,
    /// `NeverStops`, `NeverFollows` and `TakesNothing`.
    pub by: Option<Span>,
}
