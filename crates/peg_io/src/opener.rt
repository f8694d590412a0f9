//! Opening files and listing folders by name.
ghost use Rattle.std.specs.Prelude.{◌≡◌, ℕ, List, Some, true, false, IfErr, IfOk, IfSome, IsErr, IsErrAnd, IsSome};
ghost use Rattle.std.specs.Prelude.{IsSorted, map, string_bytes, string_cmp};
ghost use Rattle.peg_io.specs.NamedFile.{NamedFile, IsMissing, IsNoFolder, bytes_of, is_readable, names_in, open_error};
ghost use Rattle.peg_io.specs.OpenFaults.{IsOfFile};

use crate::device::{Device, Source};
use crate::listing::list_entries;
use std::alloc::{AllocError, Global};
use std::fs::Files;
use std::io::ErrorKind;
use std::{fs, io};
use thiserror::Error;

/// Why a file could not be opened.
#[derive(Clone, Copy, Debug, PartialEq, Eq, Error)]
pub enum OpenFault {
    /// The system could not open the file. `kind` is the kind of its error.
    #[error("the file can't be opened")]
    File { kind: ErrorKind },
    /// An allocation failed.
    #[error("out of memory")]
    Memory,
}

impl From<io::Error> for OpenFault {
    ghost use Rattle.std.specs.Prelude.{◌≡◌, ◌≢◌};
    ghost use Rattle.std.specs.IoError.{error_kind};
    ghost use Rattle.std.specs.declared.io.ErrorKind.TheVariants.{OutOfMemory};
    ghost use Rattle.peg_io.specs.declared.opener.OpenFault.TheVariants.{File, Memory};

    ghost from_gives = { λ error fault. (error_kind error ≡ OutOfMemory → fault ≡ Memory)
        × (error_kind error ≢ OutOfMemory → fault ≡ File (error_kind error)) };

    fn from(error: io::Error) -> OpenFault {
        match error.kind() {
            ErrorKind::OutOfMemory => OpenFault::Memory,
            kind => OpenFault::File { kind },
        }
    }
}

impl From<AllocError> for OpenFault {
    ghost use Rattle.std.specs.Prelude.{◌≡◌};
    ghost use Rattle.peg_io.specs.declared.opener.OpenFault.TheVariants.{Memory};

    ghost from_gives = { λ _ fault. fault ≡ Memory };

    fn from(_error: AllocError) -> OpenFault {
        OpenFault::Memory
    }
}

/// Opens files and lists folders by name.
pub trait Opener {
    /// An open file, read from its start.
    type File: Source + Drop;

    // what is specified of the file or folder with the given name
    ghost file_at: { Self → List ℕ → NamedFile };

    /// Opens the file with the given name, to be read from its start. A returned file has no failed read yet. A file
    /// that is specified to give an error is `OpenFault::File` with the kind of that error, and one with specified
    /// bytes isn't.
    fn open(&self, name: &str) -> Result<Self::File, OpenFault>
        ensures missing { IsMissing (file_at self.now name.now) → IsErrAnd result IsOfFile }
        ensures kind { IfSome (open_error (file_at self.now name.now))
            (λ kind. IfErr result (λ fault. fault ≡ OpenFault.File kind)) }
        ensures present { IsSome (bytes_of (file_at self.now name.now)) → ¬ IsErrAnd result IsOfFile }
        ensures bytes { IfOk result (λ file. IfSome (bytes_of (file_at self.now name.now))
            (λ bytes. Self.File.left file ≡ Some bytes)) }
        ensures readable { IfOk result (λ file. is_readable (file_at self.now name.now) ≡ true
            → Self.File.never_fails file ≡ true) }
        ensures works { IfOk result (λ file. Self.File.failed file ≡ false) };

    /// Returns the names of the files in the folder with the given name, in the order of their bytes. What is specified
    /// to be no folder is an error. A folder with specified names isn't `OpenFault::File`.
    fn list(&self, alloc: Global, name: &str) -> Result<Vec<String>, OpenFault>
        ensures missing { IsNoFolder (file_at self.now name.now) → IsErr result }
        ensures present { IsSome (names_in (file_at self.now name.now)) → ¬ IsErrAnd result IsOfFile }
        ensures names { IfOk result (λ listed. IfSome (names_in (file_at self.now name.now))
            (λ names. map string_bytes listed.items ≡ names)) }
        ensures sorted { IfOk result (λ listed. IsSorted string_cmp listed.items) };
}

/// The files of a file system. Nothing is specified of them.
#[derive(Drop)]
pub struct FileSystem<'a, R> {
    files: &'a R,
}

impl<'a, R> FileSystem<'a, R> {
    ghost use Rattle.std.specs.Prelude.{◌≡◌};
    ghost use Rattle.peg_io.specs.FileSystem.{files_of};

    /// Returns the opener of the files that `files` has.
    pub fn new(files: &'a R) -> FileSystem<'a, R>
        ensures { files_of result ≡ files.now }
    {
        FileSystem { files }
    }
}

impl<'a, R: Files + AllocGlobal + Clone + Drop> Opener for FileSystem<'a, R> {
    ghost use Rattle.peg_io.specs.NamedFile.{Unspecified};

    type File = Device<R::File>;

    ghost file_at = { λ _ _. Unspecified };

    fn open(&self, name: &str) -> Result<Device<R::File>, OpenFault> {
        Ok(Device::new(fs::open(self.files, name)?))
    }

    // A name that isn't UTF-8 is an error.
    fn list(&self, alloc: Global, name: &str) -> Result<Vec<String>, OpenFault> {
        list_entries(alloc, fs::read_dir(self.files, name)?)
    }
}
