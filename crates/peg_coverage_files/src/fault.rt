//! Why files aren't covered.
use peg_io::ReadFault;
use std::alloc::AllocError;
use std::io::ErrorKind;
use thiserror::Error;

/// Why it isn't known what texts use.
#[derive(Clone, Copy, Debug, PartialEq, Eq, Error)]
pub enum CoveringFault<'a> {
    /// The text with this name can't be opened or read. `kind` is the kind of the system's error.
    #[error("a text can't be opened or read")]
    File { name: &'a str, kind: ErrorKind },
    /// The input can't be read.
    #[error("the input can't be read")]
    Input,
    /// No rule has the name of the start.
    #[error("no rule has the start's name")]
    NoSuchStart,
    /// A text, or a record of a text, has more than 67,108,864 bytes.
    #[error("a text is too long")]
    TextTooLong,
    /// Out of memory, or there are 2^64 - 1 texts, or as many blocks in a stream.
    #[error("out of memory")]
    Memory,
}

impl<'a> From<AllocError> for CoveringFault<'a> {
    ghost use Rattle.std.specs.Prelude.{◌≡◌};
    ghost use Rattle.peg_coverage_files.specs.declared.fault.CoveringFault.TheVariants.{Memory};

    ghost from_gives = { λ _ fault. fault ≡ Memory };

    fn from(_error: AllocError) -> CoveringFault<'a> {
        CoveringFault::Memory
    }
}

impl<'a> From<ReadFault> for CoveringFault<'a> {
    ghost use Rattle.std.specs.Prelude.{◌≡◌};
    ghost use Rattle.peg_coverage_files.specs.CoveringFaults.{read_fault};

    ghost from_gives = { λ error fault. fault ≡ read_fault error };

    fn from(error: ReadFault) -> CoveringFault<'a> {
        match error {
            ReadFault::Device => CoveringFault::Input,
            ReadFault::Memory => CoveringFault::Memory,
        }
    }
}
