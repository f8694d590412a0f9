//! What warnings say, in a sentence for people.
ghost use Rattle.std.specs.Prelude.{◌≡◌};
ghost use Rattle.peg_lint_files.specs.WarningSentences.{cause_sentence, kind_sentence};

use peg_lint::WarningKind;

/// Returns what a warning of this kind says, and how to write the part instead.
pub(crate) fn kind_sentence(kind: WarningKind) -> &'static [u8]
    ensures { result.now ≡ kind_sentence kind }
{
    match kind {
        WarningKind::UnusedRule =>
            b"no parse from the start calls this rule: call it, remove it, or name the start with --start",
        WarningKind::NeverMatches =>
            b"this never matches: look for an item that always fails, or a rule that calls itself on every path",
        WarningKind::NeverTried =>
            b"this alternative is never tried: put the one that never fails last",
        WarningKind::AlwaysFails =>
            b"this predicate always fails: its operator may be one too many",
        WarningKind::NoEffect => b"this operator has no effect: remove it",
        WarningKind::SameAlternative =>
            b"this alternative is an earlier one again: remove it, or change what was copied",
        WarningKind::Shadowed => b"this alternative never matters: put the longer one first",
        WarningKind::NeverStops =>
            b"this item never matches here: a repetition gives nothing back, so exclude the item: (!'x' .)* 'x'",
        WarningKind::NeverFollows =>
            b"this item never matches after the one before it: remove one of the two, or exchange them",
        WarningKind::TakesNothing =>
            b"this item takes nothing after the one before it: remove one of the two",
        WarningKind::ReversedRange =>
            b"this range holds no byte: exchange its ends, or write the dash first in its class",
        WarningKind::EmptyAlternative => b"this alternative is empty: write '' if it is meant",
        WarningKind::AnyAtEnd =>
            b"this dot matches a byte and ends no rule: remove it, or write (.) if it is meant",
        WarningKind::ClassBeginsWithCaret =>
            b"this class holds the caret: for all other bytes write !'x' . in place of [^x]",
        WarningKind::ClassEndsInRange =>
            b"this range goes to a closing bracket: write the dash first, or the bracket as \\]",
        WarningKind::RangeOverSigns =>
            b"this range goes over signs: write [A-Za-z] in place of [A-z], or the dash first",
        WarningKind::HoldsLineEnd => b"this goes over the end of a line: write \\n or \\r",
        WarningKind::HighBytesInClass =>
            b"a class holds bytes, and a letter beyond ASCII has several: write a literal, or a byte as \\xE9",
        WarningKind::BlanksInClass =>
            b"the class holds the spaces at its ends: remove them, or write \\x20",
        WarningKind::RepeatedByte =>
            b"the class holds a byte of this already: a class has no commas and no names",
    }
}

/// Returns what is said of the part that causes a warning of this kind.
pub(crate) fn cause_sentence(kind: WarningKind) -> &'static [u8]
    ensures { result.now ≡ cause_sentence kind }
{
    match kind {
        WarningKind::NeverTried => b"this alternative never fails",
        WarningKind::SameAlternative => b"this alternative is the same",
        WarningKind::Shadowed => b"this alternative matches wherever that one does",
        WarningKind::NeverStops => b"this repetition only ends where that item fails",
        WarningKind::NeverFollows => b"this item only ends where that item fails",
        WarningKind::TakesNothing => b"this item only ends where that item takes no byte",
        _ => b"this is the cause",
    }
}
