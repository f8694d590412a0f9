//! Names of files in folders.
ghost use Rattle.std.specs.Prelude.{◌≡◌, IfOk, string_bytes};
ghost use Rattle.peg_test_files.specs.TestNames.{path_of};

use std::alloc::{AllocError, Global};

/// Returns the name by which a file in a folder is opened. The only error is a failed allocation.
pub(crate) fn path_of(alloc: Global, folder: &str, name: &str) -> Result<String, AllocError>
    ensures { IfOk result (λ path. string_bytes path ≡ path_of folder.now name.now) }
{
    let mut path = String::from_str(alloc, folder)?;
    if !folder.as_bytes().ends_with(b"/") {
        path.push_str("/")?;
    }
    path.push_str(name)?;
    Ok(path)
}
