//! The characters of bytes that may not be text.
ghost use Rattle.std.specs.Prelude.{◌≡◌, ◌≤◌, ◌<◌, length, take};
ghost use Rattle.std.specs.Str.{is_utf8};
ghost use Rattle.peg_messages.specs.Characters.{character_len};

/// Returns the length of the first character: of a whole UTF-8 sequence, or 1 for a byte that begins none. Takes
/// constant time.
#[tactic(auto, unfolding(crate::specs::Characters::character_len))]
pub(crate) fn character_len(bytes: &[u8]) -> usize
    ensures value { result ≡ character_len bytes.now }
    ensures some { 1 ≤ result }
    ensures within { 0 < length bytes.now → result ≤ length bytes.now }
{
    if begins_utf8(bytes, 1) {
        1
    } else if begins_utf8(bytes, 2) {
        2
    } else if begins_utf8(bytes, 3) {
        3
    } else if begins_utf8(bytes, 4) {
        4
    } else {
        1
    }
}

// Returns whether the first bytes, or all if there are fewer, are UTF-8.
fn begins_utf8(bytes: &[u8], count: usize) -> bool
    ensures { result ≡ is_utf8 (take count bytes.now) }
{
    str::from_utf8(&bytes[..count.min(bytes.len())]).is_ok()
}
