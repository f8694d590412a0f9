//! Digests of expressions, by which equal ones are found.
use peg_bytes::ByteSet;
use peg_grammar::Expr;

// The factor by which each value is mixed in (FNV-1a).
const FACTOR: u64 = 0x100_0000_01b3;

// Mixes a value into a digest.
fn mixed(digest: u64, value: u64) -> u64 {
    (digest ^ value).wrapping_mul(FACTOR)
}

// Mixes bytes and their number into a digest.
fn with_bytes(digest: u64, bytes: &[u8]) -> u64 {
    let mut all = mixed(digest, bytes.len() as u64);
    'bytes: for byte in bytes {
        all = mixed(all, u64::from(*byte));
    }
    all
}

// Mixes the bytes of a set into a digest.
fn with_set(digest: u64, set: &ByteSet) -> u64 {
    let mut all = digest;
    'bytes: for byte in 0..=255u8 {
        if set.contains(byte) {
            all = mixed(all, u64::from(byte));
        }
    }
    all
}

/// Returns a number that is the same for expressions that are the same but for their spans, and seldom for others.
/// Recurses as deep as expressions nest; takes time linear in the expression.
#[cycle(digest)]
pub(crate) fn digest_of(expr: &Expr) -> u64 {
    match expr {
        Expr::Literal { bytes, .. } => with_bytes(1, bytes),
        Expr::Class { set, .. } => with_set(2, set),
        Expr::Any { .. } => 3,
        Expr::Name { name, .. } => with_bytes(4, name.as_bytes()),
        Expr::Seq { items, .. } => digest_of_all(5, items),
        Expr::Choice { first, rest, .. } => digest_of_all(mixed(6, digest_of(first)), rest),
        Expr::Optional { part, .. } => mixed(7, digest_of(part)),
        Expr::Star { part, .. } => mixed(8, digest_of(part)),
        Expr::Plus { part, .. } => mixed(9, digest_of(part)),
        Expr::Counted { part, min, max, .. } => {
            mixed(with_bytes(10, &[*min, *max]), digest_of(part))
        }
        Expr::And { part, .. } => mixed(11, digest_of(part)),
        Expr::Not { part, .. } => mixed(12, digest_of(part)),
    }
}

// Mixes the digests of expressions into a digest.
#[cycle(digest)]
fn digest_of_all(digest: u64, items: &[Expr]) -> u64 {
    let mut all = digest;
    'items: for item in items {
        all = mixed(all, digest_of(item));
    }
    all
}
