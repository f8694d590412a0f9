//! The selection of warnings.
ghost use Rattle.std.specs.Prelude.{◌≡◌, filter};
ghost use Rattle.peg_lint.specs.FileWarnings.{is_selected};

use crate::{Selection, Warning};

// Returns whether a warning is reported.
fn is_selected(selection: Selection, warning: &Warning) -> bool
    ensures { result ≡ is_selected selection warning.now }
{
    match selection {
        Selection::All => true,
        Selection::Proved => warning.kind.is_proved(),
    }
}

/// Removes the warnings that are not selected.
pub(crate) fn select(selection: Selection, found: &mut Vec<Warning>)
    ensures { found.new.items ≡ filter (is_selected selection) found.old.items }
{
    found.retain(|warning| is_selected(selection, warning));
}
