//! Spacing: blanks, line ends and comments (Ford 2004, section 2.1).
ghost use Rattle.std.specs.Prelude.{◌≡◌, ◌<◌, ◌≤◌, length, IfSome};
ghost use Rattle.peg_lexer.specs.Lexical.{end_of_line, space, comment, in_comment, space_or_comment, spacing};
ghost use Rattle.peg_lexer.specs.Matchers.{match_length, many};

/// Returns the length of the spacing at the start of `rest`. Linear in that length.
#[tactic(auto, unfolding(crate::specs::Lexical::spacing))]
pub(crate) fn spacing(rest: &[u8]) -> usize
    ensures value { result ≡ (spacing rest.now).length }
    ensures fits { result ≤ length rest.now }
{
    let mut at = 0;
    'blanks: while let Some(length) = space_or_comment(&rest[at..]) {
        at += length;
    }
    at
}

// The length of a blank, line end or comment.
fn space_or_comment(rest: &[u8]) -> Option<usize>
    ensures value { result ≡ match_length (space_or_comment rest.now) }
    ensures some { IfSome result (λ n. 0 < n) }
    ensures fits { IfSome result (λ n. n ≤ length rest.now) }
{
    match space(rest) {
        Some(length) => Some(length),
        None => comment(rest),
    }
}

// The length of a comment: from `#` up to and including the next line end.
#[tactic(auto, unfolding(crate::specs::Lexical::comment))]
fn comment(rest: &[u8]) -> Option<usize>
    ensures value { result ≡ match_length (comment rest.now) }
    ensures some { IfSome result (λ n. 0 < n) }
    ensures fits { IfSome result (λ n. n ≤ length rest.now) }
{
    if !rest.starts_with(b"#") {
        return None;
    }
    let text = &rest[1..];
    let length = line_text(text);
    let end = end_of_line(&text[length..])?;
    Some(1 + length + end)
}

// The number of bytes before the next line end.
fn line_text(rest: &[u8]) -> usize
    ensures value { result ≡ (many in_comment rest.now).length }
    ensures fits { result ≤ length rest.now }
{
    let mut at = 0;
    'bytes: while let Some(length) = byte_of_line(&rest[at..]) {
        at += length;
    }
    at
}

// One byte, unless a line end or the end of the file comes next.
fn byte_of_line(rest: &[u8]) -> Option<usize>
    ensures value { result ≡ match_length (in_comment rest.now) }
    ensures some { IfSome result (λ n. 0 < n) }
    ensures fits { IfSome result (λ n. n ≤ length rest.now) }
{
    if end_of_line(rest).is_some() || rest.is_empty() {
        return None;
    }
    Some(1)
}

// The length of a blank or line end.
#[tactic(auto, unfolding(crate::specs::Lexical::space))]
fn space(rest: &[u8]) -> Option<usize>
    ensures value { result ≡ match_length (space rest.now) }
    ensures some { IfSome result (λ n. 0 < n) }
    ensures fits { IfSome result (λ n. n ≤ length rest.now) }
{
    if rest.starts_with(b" ") {
        Some(1)
    } else if rest.starts_with(b"\t") {
        Some(1)
    } else {
        end_of_line(rest)
    }
}

// The length of a line end: CR LF, LF or CR.
#[tactic(auto, unfolding(crate::specs::Lexical::end_of_line))]
fn end_of_line(rest: &[u8]) -> Option<usize>
    ensures value { result ≡ match_length (end_of_line rest.now) }
    ensures some { IfSome result (λ n. 0 < n) }
    ensures fits { IfSome result (λ n. n ≤ length rest.now) }
{
    if rest.starts_with(b"\r\n") {
        Some(2)
    } else if rest.starts_with(b"\n") {
        Some(1)
    } else if rest.starts_with(b"\r") {
        Some(1)
    } else {
        None
    }
}
