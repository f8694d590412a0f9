//! Laws about the statuses of calls. Each function has an empty body; its contract is the law.
ghost use Rattle.std.specs.Prelude.{◌≡◌};

use crate::status::{
    DONE, FAILED, NO_SUCH_RULE, NO_SUCH_START, OUT_OF_MEMORY, OUT_OF_RANGE, REFUSED, STEP_LIMIT,
    TEXT_TOO_LONG, WRONG_HANDLE,
};

/// The statuses have the numbers that `include/peg.h` gives them.
pub fn the_statuses_are_those_of_the_header()
    ensures done { DONE ≡ 0 }
    ensures failed { FAILED ≡ 1 }
    ensures refused { REFUSED ≡ 2 }
    ensures no_such_start { NO_SUCH_START ≡ 3 }
    ensures wrong_handle { WRONG_HANDLE ≡ 4 }
    ensures out_of_memory { OUT_OF_MEMORY ≡ 5 }
    ensures step_limit { STEP_LIMIT ≡ 6 }
    ensures text_too_long { TEXT_TOO_LONG ≡ 7 }
    ensures out_of_range { OUT_OF_RANGE ≡ 8 }
    ensures no_such_rule { NO_SUCH_RULE ≡ 9 }
{}
