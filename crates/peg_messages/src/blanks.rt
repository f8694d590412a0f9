//! Blanks and comments of a grammar file.
ghost use Rattle.std.specs.Prelude.{◌≡◌};
ghost use Rattle.peg_messages.specs.Blanks.{after_blanks, ends_comment, is_blank};

/// Returns the bytes after blanks and comments. Takes time linear in them.
pub(crate) fn after_blanks(bytes: &[u8]) -> &[u8]
    ensures { result.now ≡ after_blanks bytes.now }
{
    let mut in_comment = false;
    let mut rest = bytes;
    'blanks: while let [byte, others @ ..] = rest {
        if in_comment {
            in_comment = !ends_comment(*byte);
        } else if *byte == b'#' {
            in_comment = true;
        } else if !is_blank(*byte) {
            return rest;
        }
        rest = others;
    }
    rest
}

fn ends_comment(byte: u8) -> bool
    ensures { result ≡ ends_comment byte }
{
    byte == b'\n' || byte == b'\r'
}

/// Returns whether a byte is a space, a tab or a line end.
pub(crate) fn is_blank(byte: u8) -> bool
    ensures { result ≡ is_blank byte }
{
    byte == b' ' || byte == b'\t' || ends_comment(byte)
}
