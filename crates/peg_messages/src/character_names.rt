//! The names of characters that can't be seen, or that look like others.
ghost use Rattle.std.specs.Prelude.{◌≡◌};
ghost use Rattle.peg_messages.specs.CharacterNames.{control_name, first_name, invisible_name, lookalike_name};
ghost use Rattle.peg_messages.specs.CharacterNames.{quotation_name, sign_name, space_name, zero_width_name};

/// Returns the name of a character that can't be seen, or no bytes for other characters. Takes constant time.
pub(crate) fn invisible_name(character: &[u8]) -> &'static [u8]
    ensures { result.now ≡ invisible_name character.now }
{
    let other = first_name(space_name(character), zero_width_name(character));
    first_name(control_name(character), other)
}

/// Returns the name of a character that can be taken for another one, or no bytes for other characters. Takes constant
/// time.
pub(crate) fn lookalike_name(character: &[u8]) -> &'static [u8]
    ensures { result.now ≡ lookalike_name character.now }
{
    first_name(quotation_name(character), sign_name(character))
}

// Returns the first of two names, or the second one if the first one has no bytes.
fn first_name(first: &'static [u8], other: &'static [u8]) -> &'static [u8]
    ensures { result.now ≡ first_name first.now other.now }
{
    match first {
        [] => other,
        [_, ..] => first,
    }
}

// Returns the name of a line end or of another character of ASCII.
fn control_name(character: &[u8]) -> &'static [u8]
    ensures { result.now ≡ control_name character.now }
{
    if character == b"\n".as_slice() {
        b"line end"
    } else if character == b"\r\n".as_slice() {
        b"line end"
    } else if character == b"\r".as_slice() {
        b"carriage return"
    } else if character == b"\t".as_slice() {
        b"tab"
    } else {
        b""
    }
}

// Returns the name of a space beyond ASCII.
fn space_name(character: &[u8]) -> &'static [u8]
    ensures { result.now ≡ space_name character.now }
{
    if character == b"\xC2\xA0".as_slice() {
        b"no-break space"
    } else if character == b"\xE2\x80\xAF".as_slice() {
        b"narrow no-break space"
    } else if character == b"\xE3\x80\x80".as_slice() {
        b"ideographic space"
    } else if character == b"\xE2\x80\xA8".as_slice() {
        b"line separator"
    } else {
        b""
    }
}

// Returns the name of a character without a width.
fn zero_width_name(character: &[u8]) -> &'static [u8]
    ensures { result.now ≡ zero_width_name character.now }
{
    if character == b"\xEF\xBB\xBF".as_slice() {
        b"byte order mark"
    } else if character == b"\xE2\x80\x8B".as_slice() {
        b"zero width space"
    } else if character == b"\xE2\x80\x8C".as_slice() {
        b"zero width non-joiner"
    } else if character == b"\xE2\x80\x8D".as_slice() {
        b"zero width joiner"
    } else if character == b"\xE2\x81\xA0".as_slice() {
        b"word joiner"
    } else if character == b"\xC2\xAD".as_slice() {
        b"soft hyphen"
    } else {
        b""
    }
}

// Returns the name of a quotation mark beyond ASCII.
fn quotation_name(character: &[u8]) -> &'static [u8]
    ensures { result.now ≡ quotation_name character.now }
{
    if character == b"\xE2\x80\x98".as_slice() {
        b"left single quotation mark"
    } else if character == b"\xE2\x80\x99".as_slice() {
        b"right single quotation mark"
    } else if character == b"\xE2\x80\x9C".as_slice() {
        b"left double quotation mark"
    } else if character == b"\xE2\x80\x9D".as_slice() {
        b"right double quotation mark"
    } else {
        b""
    }
}

// Returns the name of a sign that looks like one of ASCII.
fn sign_name(character: &[u8]) -> &'static [u8]
    ensures { result.now ≡ sign_name character.now }
{
    if character == b"\xE2\x80\x93".as_slice() {
        b"en dash"
    } else if character == b"\xE2\x80\x94".as_slice() {
        b"em dash"
    } else if character == b"\xE2\x88\x92".as_slice() {
        b"minus sign"
    } else if character == b"\xC3\x97".as_slice() {
        b"multiplication sign"
    } else if character == b"\xCD\xBE".as_slice() {
        b"greek question mark"
    } else {
        b""
    }
}
