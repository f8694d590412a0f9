//! Names of files, as messages show them.
ghost use Rattle.std.specs.Prelude.{◌≡◌, IfOk, string_bytes};
ghost use Rattle.peg_messages.specs.FileNames.{shown_name};

use crate::shown::{Style, write_shown};
use std::alloc::{AllocError, Global};

/// Returns the name of a file as messages show it: printable ASCII and UTF-8 as they are, and other bytes as escapes of
/// the notation. So a name has no line end and no escape code of a terminal. The only error is a failed allocation.
/// Takes time linear in the name.
///
/// # Example
///
/// ```
/// let shown = shown_name(alloc, b"a\n\x1b\xff.txt")?;
/// assert_eq!(shown.as_str(), "a\\n\\x1B\\xFF.txt");
/// ```
pub fn shown_name(alloc: Global, name: &[u8]) -> Result<String, AllocError>
    ensures { IfOk result (λ shown. string_bytes shown ≡ shown_name name.now) }
{
    let mut bytes = Vec::new(alloc);
    write_shown(Style::Spelling, name, &mut bytes)?;
    match String::from_utf8(bytes) {
        Ok(shown) => Ok(shown),
        // What is shown is UTF-8.
        Err(_) => unreachable!(),
    }
}
