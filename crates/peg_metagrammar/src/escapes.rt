//! The simple escapes.
ghost use Rattle.std.specs.Prelude.{◌≡◌, map, unwrap_or};
ghost use Rattle.peg_bytes.specs.ByteSet.{bytes_of};
ghost use Rattle.peg_metagrammar.specs.EscapesCode.{escape_of};
ghost use Rattle.peg_metagrammar.specs.Ranges.{class_of};
ghost use Rattle.peg_metagrammar.specs.SimpleEscapes.{simple_escapes, byte_escaped, escaped_ranges};

use peg_bytes::ByteSet;

/// A simple escape: a backslash and a byte that together denote a byte.
#[derive(Clone, Copy, Debug)]
pub struct SimpleEscape {
    /// The byte after the backslash.
    pub escaped: u8,
    /// The byte that both denote.
    pub byte: u8,
}

/// The simple escapes (Ford 2004, section 2.1).
pub const SIMPLE_ESCAPES: [SimpleEscape; 8] = [
    SimpleEscape {
        escaped: b'n',
        byte: b'\n',
    },
    SimpleEscape {
        escaped: b'r',
        byte: b'\r',
    },
    SimpleEscape {
        escaped: b't',
        byte: b'\t',
    },
    SimpleEscape {
        escaped: b'\'',
        byte: b'\'',
    },
    SimpleEscape {
        escaped: b'"',
        byte: b'"',
    },
    SimpleEscape {
        escaped: b'[',
        byte: b'[',
    },
    SimpleEscape {
        escaped: b']',
        byte: b']',
    },
    SimpleEscape {
        escaped: b'\\',
        byte: b'\\',
    },
];

/// Returns the byte that a backslash and this byte denote, if that is a simple escape.
pub fn unescape(escaped: u8) -> Option<u8>
    ensures { result ≡ byte_escaped simple_escapes escaped }
{
    find_escape(&SIMPLE_ESCAPES, escaped)
}

// The byte that an escaped byte denotes by a list of escapes.
fn find_escape(escapes: &[SimpleEscape], escaped: u8) -> Option<u8>
    ensures { result ≡ byte_escaped (map escape_of escapes.now) escaped }
{
    for escape in escapes {
        if escaped == escape.escaped {
            return Some(escape.byte);
        }
    }
    None
}

/// Returns the set of the bytes that can be escaped by a backslash alone.
pub(crate) fn escaped_bytes() -> ByteSet
    ensures { bytes_of result ≡ class_of (escaped_ranges simple_escapes) }
{
    bytes_escaped_by(&SIMPLE_ESCAPES)
}

// The set of the bytes that a list of escapes has.
fn bytes_escaped_by(escapes: &[SimpleEscape]) -> ByteSet
    ensures { bytes_of result ≡ class_of (escaped_ranges (map escape_of escapes.now)) }
{
    let mut set = ByteSet::empty();
    for escape in escapes {
        set = set.union(&ByteSet::range(escape.escaped, escape.escaped));
    }
    set
}
