//! Why the system could not open, read or write a file, in its own words.
ghost use Rattle.std.specs.Prelude.{◌≡◌};
ghost use Rattle.peg_io.specs.Reasons.{reason_of};

use std::io::ErrorKind;

/// Returns the words that the system's library has for an error of this kind, such as `No such file or directory`. An
/// error of a kind that files don't have is `Unknown error`.
pub fn reason(kind: ErrorKind) -> &'static str
    ensures { result.now ≡ reason_of kind }
{
    match kind {
        ErrorKind::NotFound => "No such file or directory",
        ErrorKind::PermissionDenied => "Permission denied",
        ErrorKind::NotADirectory => "Not a directory",
        ErrorKind::IsADirectory => "Is a directory",
        ErrorKind::FilesystemLoop => "Too many levels of symbolic links",
        ErrorKind::InvalidFilename => "File name too long",
        ErrorKind::InvalidInput => "Invalid argument",
        ErrorKind::StorageFull => "No space left on device",
        ErrorKind::QuotaExceeded => "Disk quota exceeded",
        ErrorKind::FileTooLarge => "File too large",
        ErrorKind::ReadOnlyFilesystem => "Read-only file system",
        ErrorKind::ResourceBusy => "Device or resource busy",
        ErrorKind::WouldBlock => "Resource temporarily unavailable",
        ErrorKind::BrokenPipe => "Broken pipe",
        ErrorKind::Interrupted => "Interrupted system call",
        ErrorKind::WriteZero => "No byte was written",
        _ => "Unknown error",
    }
}
