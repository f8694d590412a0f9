//! Separating a grammar from the text that follows it in the same input.
ghost use Rattle.std.specs.Prelude.{◌≡◌, ◌<◌, length, MatchOption};
ghost use Rattle.peg_io.specs.Split.{is_separator_at, IsFirstSeparator, HasNoSeparator, IsSplit};

/// Splits `input` at its first line that is exactly `%%` and ends in LF. Returns the bytes before and after that line,
/// or the whole input and nothing if there is no such line. Linear in the length of the input; allocates nothing.
pub fn split(input: &[u8]) -> (&[u8], &[u8])
    ensures { IsSplit input.now result.0.now result.1.now }
{
    match find_separator(input) {
        Some(position) => (&input[..position], &input[position + 3..]),
        None => (input, &input[input.len()..]),
    }
}

// Finds the offset of the first separator.
fn find_separator(input: &[u8]) -> Option<usize>
    ensures { MatchOption result (HasNoSeparator input.now) (IsFirstSeparator input.now) }
{
    for position in 0..input.len() {
        if is_separator_at(input, position) {
            return Some(position);
        }
    }
    None
}

// Whether a separator line starts at offset `position`.
fn is_separator_at(input: &[u8], position: usize) -> bool
    requires { position < length input.now }
    ensures { result ≡ is_separator_at input.now position }
{
    if position > 0 && input[position - 1] != b'\n' {
        return false;
    }
    matches!(&input[position..], [b'%', b'%', b'\n', ..])
}
