//! Refusals, as a handle holds them.
ghost use Rattle.std.specs.Prelude.{◌≡◌, ◌≢◌, ◌≤◌, [], IfOk, IfSome, Some, length};
ghost use Rattle.peg_bytes.specs.Place.{max_offset};
ghost use Rattle.peg_explain.specs.RefusalMessages.{IsRefusalMessage, refusal_definitions};
ghost use Rattle.peg_handle.specs.Rejections.{Reports};
ghost use Rattle.peg_parser.specs.Cause.{Cause};
ghost use Rattle.peg_parser.specs.Faults.{IsTrueRefusal, cause_of};

use crate::content::Rejection;
use crate::refusal_info::refusal_info;
use peg_explain::refusal_message;
use peg_json::{Fault, refusal_json};
use peg_parser::Refusal;
use std::alloc::{AllocError, Global};

// Reports a refusal of this file. The refusal must not be `Memory`.
pub(crate) fn rejection_for(
    alloc: Global,
    file: &[u8],
    refusal: &Refusal,
) -> Result<Rejection, AllocError>
    requires short { length file.now ≤ max_offset }
    requires true_refusal { IsTrueRefusal (length file.now) refusal.now }
    requires has_cause { refusal.now ≢ Refusal.Memory }
    ensures reports { IfOk result (λ rejection. IfSome (cause_of refusal.now) (Reports file.now rejection)) }
    ensures message { IfOk result (λ rejection. (cause : Cause) × (cause_of refusal.now ≡ Some cause)
        × IsRefusalMessage [] file.now (refusal_definitions refusal.now) cause rejection.message.items) }
{
    let names = refusal.names(alloc)?;
    let json = refusal_json(alloc, &Fault::Refused(refusal), file, &names)?;
    let message = refusal_message(alloc, &[], file, refusal)?;
    let info = refusal_info(file, refusal);
    Ok(Rejection {
        json,
        message,
        info,
    })
}
