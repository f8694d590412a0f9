//! Bytes at offsets that may be past the end.
ghost use Rattle.std.specs.Prelude.{◌≡◌, drop, slice_index};

/// Returns the byte at an offset, or 0 past the end.
pub(crate) fn byte_at(bytes: &[u8], at: usize) -> u8
    ensures { result ≡ slice_index bytes.now at }
{
    match bytes.get(at) {
        Some(byte) => *byte,
        None => 0,
    }
}

/// Returns the bytes from an offset on.
pub(crate) fn bytes_after(bytes: &[u8], at: usize) -> &[u8]
    ensures { result.now ≡ drop at bytes.now }
{
    &bytes[at.min(bytes.len())..]
}
