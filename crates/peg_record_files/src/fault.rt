//! Why the records of texts aren't read to their end.
use peg_io::{DeviceFault, ReadFault};
use std::alloc::AllocError;
use std::io::ErrorKind;
use thiserror::Error;

/// Why the records of texts aren't read to their end.
#[derive(Clone, Copy, Debug, PartialEq, Eq, Error)]
pub enum RecordsFault<'a> {
    /// The text with this name can't be opened or read. `kind` is the kind of the system's error.
    #[error("a text can't be opened or read")]
    Text { name: &'a str, kind: ErrorKind },
    /// The input can't be read.
    #[error("the input can't be read")]
    Input,
    /// The output can't be written.
    #[error("the output can't be written")]
    Output,
    /// Out of memory, or there are 2^64 - 1 records, or as many blocks in a stream.
    #[error("out of memory")]
    Memory,
}

impl<'a> From<AllocError> for RecordsFault<'a> {
    ghost use Rattle.std.specs.Prelude.{◌≡◌};
    ghost use Rattle.peg_record_files.specs.declared.fault.RecordsFault.TheVariants.{Memory};

    ghost from_gives = { λ _ fault. fault ≡ Memory };

    fn from(_error: AllocError) -> RecordsFault<'a> {
        RecordsFault::Memory
    }
}

/// Why the records of a stream aren't read to their end.
#[derive(Clone, Copy, Debug, PartialEq, Eq, Error)]
pub(crate) enum StreamFault {
    /// A read failed.
    #[error("a read failed")]
    Read,
    /// A write failed.
    #[error("a write failed")]
    Write,
    /// Out of memory, or there are 2^64 - 1 records, or as many blocks in a stream.
    #[error("out of memory")]
    Memory,
}

impl From<AllocError> for StreamFault {
    ghost use Rattle.std.specs.Prelude.{◌≡◌};
    ghost use Rattle.peg_record_files.specs.declared.fault.StreamFault.TheVariants.{Memory};

    ghost from_gives = { λ _ fault. fault ≡ Memory };

    fn from(_error: AllocError) -> StreamFault {
        StreamFault::Memory
    }
}

impl From<DeviceFault> for StreamFault {
    ghost use Rattle.std.specs.Prelude.{◌≡◌};
    ghost use Rattle.peg_record_files.specs.declared.fault.StreamFault.TheVariants.{Write};

    ghost from_gives = { λ _ fault. fault ≡ Write };

    fn from(_error: DeviceFault) -> StreamFault {
        StreamFault::Write
    }
}

impl From<ReadFault> for StreamFault {
    ghost use Rattle.std.specs.Prelude.{◌≡◌};
    ghost use Rattle.peg_record_files.specs.Faults.{read_fault};

    ghost from_gives = { λ error fault. fault ≡ read_fault error };

    fn from(error: ReadFault) -> StreamFault {
        match error {
            ReadFault::Device => StreamFault::Read,
            ReadFault::Memory => StreamFault::Memory,
        }
    }
}
