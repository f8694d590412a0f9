//! Listing the entries of a folder.
ghost use Rattle.std.specs.Prelude.{◌≡◌, ◌⊎◌, ◌++◌, ◌∷◌, [], IfErr, IfOk, IsSorted, OnOk, Some, map, string_bytes, string_cmp};
ghost use Rattle.std.specs.Iterator.{IsFinite};
ghost use Rattle.peg_io.specs.Listing.{FailsAtFirst, ListsAll, ReadsAll};

use crate::opener::OpenFault;
use std::alloc::{AllocError, Allocator, Global};
use std::fs::{DirEntry, Files};
use std::io;

/// Returns the names of all entries, in the order of their bytes. The first entry that could not be read ends it: with
/// `OpenFault::File` and the kind of its error, or with `Memory` if that error is of memory. It is `Memory` also if an
/// allocation fails.
pub fn list_entries<R: Files + Drop, A: Allocator, I: Iterator<Item = io::Result<DirEntry<R, A>>>>(
    alloc: Global,
    entries: I,
) -> Result<Vec<String>, OpenFault>
    requires can { I.can_next entries }
    requires ends { IsFinite (I.remaining entries) }
    ensures names { IfOk result (λ listed. ListsAll I.next_gives entries listed.items) }
    ensures sorted { IfOk result (λ listed. IsSorted string_cmp listed.items) }
    ensures fault { IfErr result (λ fault. (fault ≡ OpenFault.Memory) ⊎ FailsAtFirst I.next_gives entries fault) }
{
    let mut names = names_of(alloc, entries)?;
    names.sort_unstable();
    Ok(names)
}

// The names of all entries, in their order.
fn names_of<R: Files + Drop, A: Allocator, I: Iterator<Item = io::Result<DirEntry<R, A>>>>(
    alloc: Global,
    entries: I,
) -> Result<Vec<String>, OpenFault>
    requires can { I.can_next entries }
    requires ends { IsFinite (I.remaining entries) }
    ensures names { IfOk result (λ names. ReadsAll I.next_gives entries names.items) }
    ensures fault { IfErr result (λ fault. (fault ≡ OpenFault.Memory) ⊎ FailsAtFirst I.next_gives entries fault) }
{
    let mut names = Vec::new(alloc);
    'entries: for entry in entries {
        push_name(alloc, &mut names, entry?.file_name())?;
    }
    Ok(names)
}

// Appends a name.
fn push_name(alloc: Global, names: &mut Vec<String>, name: &str) -> Result<(), AllocError>
    ensures { OnOk result (map string_bytes names.new.items ≡ map string_bytes names.old.items ++ name.now ∷ []) }
{
    names.push(String::from_str(alloc, name)?)?;
    Ok(())
}
