//! Lines and columns of offsets in ascending order.
ghost use Rattle.std.specs.Prelude.{◌≡◌, ◌≤◌, ◌+◌, ◌-◌, ℕ, List, drop};
ghost use Rattle.peg_bytes.specs.EndsLine.{ends_line};
ghost use Rattle.peg_listings.specs.Positions.{IsPositionIn};

/// An offset in a file, its line from 1, and the offset at which that line starts.
#[derive(Clone, Copy)]
pub struct Position {
    pub at: u32,
    pub line: u64,
    pub start: u64,
}

/// Returns the start of a file.
pub fn first_position() -> Position
    ensures at { result.at ≡ 0 }
    ensures position { (file : List ℕ) → IsPositionIn file result }
{
    Position {
        at: 0,
        line: 1,
        start: 0,
    }
}

/// Returns the position of an offset. Linear in the distance from the position passed if that isn't after the offset,
/// and otherwise in the offset. So offsets in ascending order take one pass over the file.
pub fn position_from(file: &[u8], from: Position, at: u32) -> Position
    requires { IsPositionIn file.now from }
    ensures at { result.at ≡ at }
    ensures position { IsPositionIn file.now result }
{
    if from.at <= at {
        advance(file, from, at)
    } else {
        advance(file, first_position(), at)
    }
}

// The position of an offset that isn't before `from`.
fn advance(file: &[u8], from: Position, at: u32) -> Position
    requires from { IsPositionIn file.now from }
    requires ahead { from.at ≤ at }
    ensures at { result.at ≡ at }
    ensures position { IsPositionIn file.now result }
{
    let mut line = from.line;
    let mut start = from.start;
    'bytes: for next in from.at..at {
        if ends_line(rest_from(file, next)) {
            line += 1;
            start = u64::from(next) + 1;
        }
    }
    Position { at, line, start }
}

// The bytes from an offset on; none past the end of the file.
fn rest_from(file: &[u8], at: u32) -> &[u8]
    ensures { result.now ≡ drop at file.now }
{
    if at as usize <= file.len() {
        &file[at as usize..]
    } else {
        &[]
    }
}

// Whether the first byte completes a line end: LF, or CR not followed by LF.
fn ends_line(bytes: &[u8]) -> bool
    ensures { result ≡ ends_line bytes.now }
{
    match bytes {
        [b'\r', b'\n', ..] => false,
        [b'\r' | b'\n', ..] => true,
        _ => false,
    }
}

/// Returns the column of a position in bytes, from 1.
pub fn column(position: Position) -> u64
    requires { position.start ≤ position.at }
    ensures { result ≡ 1 + (position.at - position.start) }
{
    1 + (u64::from(position.at) - position.start)
}
