//! Texts and grammar files of any length.
ghost use Rattle.std.specs.Prelude.{◌≡◌, ◌++◌, IfOk, codes, replicate};
ghost use Rattle.std.specs.List.{repeat};

use std::alloc::{AllocError, Global};

/// Returns `count` copies of a byte, followed by other bytes.
pub fn repeat_then(alloc: Global, byte: u8, count: usize, end: &[u8]) -> Result<Vec<u8>, AllocError>
    ensures { IfOk result (λ text. text.items ≡ replicate count byte ++ end.now) }
{
    let mut text = vec![in alloc; byte; count]?;
    text.extend_from_slice(end)?;
    Ok(text)
}

/// Returns a text within `count` brackets: as many copies of `opening` before it, and of `closing` after it.
pub fn nest(
    alloc: Global,
    count: usize,
    opening: &str,
    inner: &[u8],
    closing: &str,
) -> Result<Vec<u8>, AllocError>
    ensures { IfOk result (λ text. text.items ≡ repeat count opening.now ++ inner.now ++ repeat count closing.now) }
{
    let mut text = opening.repeat(alloc, count)?.into_bytes();
    text.extend_from_slice(inner)?;
    text.extend_from_slice(closing.repeat(alloc, count)?.as_bytes())?;
    Ok(text)
}

/// Returns a grammar file of one rule, whose body is within `count` parentheses. Each is closed by `closing`, which is `)`
/// or begins with it. There is no line end.
pub fn nest_rule(
    alloc: Global,
    count: usize,
    inner: &[u8],
    closing: &str,
) -> Result<Vec<u8>, AllocError>
    ensures { IfOk result (λ file. file.items
        ≡ codes "A <- " ++ repeat count (codes "(") ++ inner.now ++ repeat count closing.now) }
{
    let mut file = Vec::from_slice(alloc, b"A <- ")?;
    file.extend_from_slice(&nest(alloc, count, "(", inner, closing)?)?;
    Ok(file)
}
