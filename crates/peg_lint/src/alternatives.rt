//! Alternatives that are never tried.
ghost use Rattle.std.specs.Prelude.{◌≡◌, ◌∷◌, List, length, map, IfNone, IfSome, OnOk};
ghost use Rattle.peg_bytes.specs.Extent.{Extent};
ghost use Rattle.peg_check.specs.Cans.{can_of};
ghost use Rattle.peg_grammar.specs.Written.{form_of};
ghost use Rattle.peg_semantics.specs.Form.{Choice, forms};
ghost use Rattle.peg_semantics.specs.Rules.{Rule};
ghost use Rattle.peg_lint.specs.Linting.{Adds, AllFail, AreFirstCertain, FindsUntried, IsChoiceWith};

use crate::expressions::span_of;
use crate::never::excluded_outcomes_never_happen;
use crate::repeats::alternative_at;
use crate::{Warning, WarningKind};
use peg_check::Can;
use peg_grammar::Expr;
use std::alloc::AllocError;

// Returns the number of the first alternative that never fails by these outcomes.
fn first_certain(can: Can, cans: &[Can]) -> Option<usize>
    ensures some { IfSome result (λ number. AreFirstCertain (can_of can ∷ map can_of cans.now) number) }
    ensures none { IfNone result (AllFail (can_of can ∷ map can_of cans.now)) }
{
    if !can.fails {
        return Some(0);
    }
    'alternatives: for index in 0..cans.len() {
        if !cans[index].fails {
            return Some(index + 1);
        }
    }
    None
}

/// Adds a warning for each alternative of a choice after the first that never fails. The outcomes are those of the
/// alternatives. Takes time linear in their number.
#[inline(never)]
pub(crate) fn add_never_tried(
    rule: u32,
    first: &Expr,
    rest: &[Expr],
    can: Can,
    cans: &[Can],
    found: &mut Vec<Warning>,
) -> Result<(), AllocError>
    requires { length cans.now ≡ length rest.now }
    ensures { OnOk result ((rules : List Rule) (span : Extent)
        → IsChoiceWith rules rule (form_of first.now) (forms (map form_of rest.now)) span (can_of can)
        (map can_of cans.now)
        → Adds rules (FindsUntried rules rule (Choice (form_of first.now) (forms (map form_of rest.now)) span))
        found.old.items found.new.items) }
{
    excluded_outcomes_never_happen();
    let Some(number) = first_certain(can, cans) else {
        return Ok(());
    };
    let by = span_of(alternative_at(first, rest, number));
    'alternatives: for index in number..rest.len() {
        found.push(Warning {
            kind: WarningKind::NeverTried,
            rule,
            span: span_of(&rest[index]),
            by: Some(by),
        })?;
    }
    Ok(())
}
