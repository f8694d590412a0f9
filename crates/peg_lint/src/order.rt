//! The order of warnings.
ghost use Rattle.std.specs.Prelude.{◌≡◌, OnOk};
ghost use Rattle.peg_lint.specs.Linting.{HaveSameWarnings, key_of};
ghost use Rattle.peg_lint.specs.Warnings.{AreDistinct, IsInWrittenOrder, rank_of};

use crate::{Warning, WarningKind};
use std::alloc::AllocError;

// Returns the place of a kind among all kinds.
fn rank(kind: WarningKind) -> u32
    ensures { result ≡ rank_of kind }
{
    match kind {
        WarningKind::UnusedRule => 0,
        WarningKind::NeverMatches => 1,
        WarningKind::NeverTried => 2,
        WarningKind::AlwaysFails => 3,
        WarningKind::NoEffect => 4,
        WarningKind::SameAlternative => 5,
        WarningKind::Shadowed => 6,
        WarningKind::NeverStops => 7,
        WarningKind::NeverFollows => 8,
        WarningKind::TakesNothing => 9,
        WarningKind::ReversedRange => 10,
        WarningKind::EmptyAlternative => 11,
        WarningKind::AnyAtEnd => 12,
        WarningKind::ClassBeginsWithCaret => 13,
        WarningKind::ClassEndsInRange => 14,
        WarningKind::RangeOverSigns => 15,
        WarningKind::HoldsLineEnd => 16,
        WarningKind::HighBytesInClass => 17,
        WarningKind::BlanksInClass => 18,
        WarningKind::RepeatedByte => 19,
    }
}

// Returns the numbers by which a warning is sorted. No two warnings have the same.
fn key(warning: &Warning) -> [u32; 7]
    ensures { result ≡ key_of warning.now }
{
    let (start, kind, end) = (warning.span.start, rank(warning.kind), warning.span.end);
    match warning.by {
        None => [start, kind, end, warning.rule, 0, 0, 0],
        Some(by) => [start, kind, end, warning.rule, 1, by.start, by.end],
    }
}

/// Sorts warnings by the start of their spans, those with the same start by kind, and those of the same kind by the end
/// of their spans. Removes each warning that is equal to an earlier one.
pub(crate) fn sort_unique(found: &mut Vec<Warning>) -> Result<(), AllocError>
    ensures same { OnOk result (HaveSameWarnings found.old.items found.new.items) }
    ensures in_order { OnOk result (IsInWrittenOrder found.new.items) }
    ensures distinct { OnOk result (AreDistinct found.new.items) }
{
    found.sort_by_key(key)?;
    found.dedup_by_key(
        |warning: &mut Warning| -> [u32; 7]
            ensures key { result ≡ key_of warning.old }
            ensures same { warning.new ≡ warning.old }
        { key(warning) },
    );
    Ok(())
}
