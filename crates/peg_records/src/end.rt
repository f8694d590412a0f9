//! What ends a record.
ghost use Rattle.std.specs.Prelude.{◌≡◌, ◌≤◌, length, take};
ghost use Rattle.peg_records.specs.Records.{end_byte, record_of};

/// What ends a record of a stream.
#[derive(Clone, Copy, Debug, PartialEq, Eq)]
pub enum RecordEnd {
    /// LF, byte 10.
    Line,
    /// LF. A CR, byte 13, right before it isn't part of the record.
    CrLf,
    /// A zero byte.
    Zero,
}

impl RecordEnd {
    /// Returns the byte at which a record ends.
    pub fn byte(self) -> u8
        ensures { result ≡ end_byte self }
    {
        match self {
            RecordEnd::Line | RecordEnd::CrLf => b'\n',
            RecordEnd::Zero => 0,
        }
    }

    // The length of the record in the bytes before its end.
    pub(crate) fn record_len(self, part: &[u8]) -> usize
        ensures within { result ≤ length part.now }
        ensures record { take result part.now ≡ record_of self part.now }
    {
        match self {
            RecordEnd::CrLf => len_without_carriage_return(part),
            RecordEnd::Line | RecordEnd::Zero => part.len(),
        }
    }
}

// The length of some bytes without a CR at their end.
fn len_without_carriage_return(part: &[u8]) -> usize
    ensures within { result ≤ length part.now }
    ensures record { take result part.now ≡ record_of RecordEnd.CrLf part.now }
{
    match part {
        [before @ .., b'\r'] => before.len(),
        _ => part.len(),
    }
}
