//! What an expression shows of the bytes with which its matches begin and end.
ghost use Rattle.std.specs.Prelude.{◌≡◌, ◌&&◌, ℕ, IsTrue, true};
ghost use Rattle.peg_bytes.specs.ByteSet.{bytes_of, has};
ghost use Rattle.peg_lint.specs.Edges.{and_edges, any_edges, byte_edges, choice_edges, count_edges, empty_edges};
ghost use Rattle.peg_lint.specs.Edges.{fail_edges, first_edges, literal_edges, not_edges, optional_edges, plus_edges, seq_edges};
ghost use Rattle.peg_lint.specs.Edges.{star_edges, unknown_edges};
ghost use Rattle.peg_lint.specs.Known.{BeginsWithin, known_of};

use peg_bytes::ByteSet;

/// What is known of an expression, on any text and at any position.
#[derive(Clone, Copy, Debug)]
pub(crate) struct Edges {
    /// Whether it may match the empty string.
    pub nothing: bool,
    /// Whether it may match a byte or more.
    pub something: bool,
    /// Whether it may fail.
    pub fails: bool,
    /// Whether a match of a byte or more may begin with any byte.
    pub any: bool,
    /// The bytes that such a match may begin with, if not with any.
    pub begins: ByteSet,
    /// Bytes before which it doesn't fail.
    pub takes: ByteSet,
    /// Bytes that aren't next where a match ends.
    pub stops: ByteSet,
}

/// Returns what is known of an expression that isn't looked at.
pub(crate) fn unknown() -> Edges
    ensures { known_of result ≡ unknown_edges }
{
    Edges {
        nothing: true,
        something: true,
        fails: true,
        any: true,
        begins: ByteSet::empty(),
        takes: ByteSet::empty(),
        stops: ByteSet::empty(),
    }
}

/// Returns what is known of an expression that always matches the empty string.
pub(crate) fn empty() -> Edges
    ensures { known_of result ≡ empty_edges }
{
    Edges {
        nothing: true,
        something: false,
        fails: false,
        any: false,
        begins: ByteSet::empty(),
        takes: ByteSet::full(),
        stops: ByteSet::empty(),
    }
}

/// Returns what is known of an expression that always fails.
pub(crate) fn fail() -> Edges
    ensures { known_of result ≡ fail_edges }
{
    Edges {
        nothing: false,
        something: false,
        fails: true,
        any: false,
        begins: ByteSet::empty(),
        takes: ByteSet::empty(),
        stops: ByteSet::empty(),
    }
}

/// Returns what is known of a class, or of a literal of one byte.
pub(crate) fn one_of(set: ByteSet) -> Edges
    ensures { known_of result ≡ byte_edges (has (bytes_of set)) }
{
    Edges {
        nothing: false,
        something: true,
        fails: true,
        any: false,
        begins: set,
        takes: set,
        stops: ByteSet::empty(),
    }
}

// Returns what is known of a literal that begins with a byte, and that may have no other one.
fn first_of(byte: u8, is_alone: bool) -> Edges
    ensures { known_of result ≡ first_edges byte is_alone }
{
    let first = ByteSet::single(byte);
    Edges {
        nothing: false,
        something: true,
        fails: true,
        any: false,
        begins: first,
        takes: only_if(is_alone, first),
        stops: ByteSet::empty(),
    }
}

/// Returns what is known of a literal.
pub(crate) fn literal(bytes: &[u8]) -> Edges
    ensures { known_of result ≡ literal_edges bytes.now }
{
    match bytes.first() {
        None => empty(),
        Some(byte) => first_of(*byte, bytes.len() == 1),
    }
}

/// Returns what is known of a dot.
pub(crate) fn dot() -> Edges
    ensures { known_of result ≡ any_edges }
{
    Edges {
        nothing: false,
        something: true,
        fails: true,
        any: true,
        begins: ByteSet::empty(),
        takes: ByteSet::full(),
        stops: ByteSet::empty(),
    }
}

// Returns a set, or no bytes.
fn only_if(holds: bool, set: ByteSet) -> ByteSet
    ensures { (byte : ℕ) → has (bytes_of result) byte ≡ (holds && has (bytes_of set) byte) }
{
    if holds { set } else { ByteSet::empty() }
}

/// Returns what is known of a sequence of two expressions.
pub(crate) fn then(first: &Edges, rest: &Edges) -> Edges
    ensures { known_of result ≡ seq_edges (known_of first.now) (known_of rest.now) }
{
    Edges {
        nothing: first.nothing && rest.nothing,
        something: first.something || rest.something,
        fails: first.fails || rest.fails,
        any: first.any || (first.nothing && rest.any),
        begins: first.begins.union(&only_if(first.nothing, rest.begins)),
        takes: only_if(!rest.fails, first.takes),
        stops: rest.stops.union(&only_if(!rest.something, first.stops)),
    }
}

/// Returns what is known of a choice of two expressions.
pub(crate) fn or_else(first: &Edges, rest: &Edges) -> Edges
    ensures { known_of result ≡ choice_edges (known_of first.now) (known_of rest.now) }
{
    Edges {
        nothing: first.nothing || rest.nothing,
        something: first.something || rest.something,
        fails: first.fails && rest.fails,
        any: first.any || rest.any,
        begins: first.begins.union(&rest.begins),
        takes: first.takes.union(&rest.takes),
        stops: ByteSet::empty(),
    }
}

/// Returns what is known of an optional part.
pub(crate) fn optional(part: &Edges) -> Edges
    ensures { known_of result ≡ optional_edges (known_of part.now) }
{
    Edges {
        nothing: true,
        something: part.something,
        fails: false,
        any: part.any,
        begins: part.begins,
        takes: ByteSet::full(),
        stops: ByteSet::empty(),
    }
}

/// Returns what is known of a star.
pub(crate) fn star(part: &Edges) -> Edges
    ensures { known_of result ≡ star_edges (known_of part.now) }
{
    Edges {
        nothing: true,
        something: part.something,
        fails: false,
        any: part.any,
        begins: part.begins,
        takes: ByteSet::full(),
        stops: part.takes,
    }
}

/// Returns what is known of a plus.
pub(crate) fn plus(part: &Edges) -> Edges
    ensures { known_of result ≡ plus_edges (known_of part.now) }
{
    Edges {
        stops: part.takes,
        ..*part
    }
}

/// Returns what is known of a count.
pub(crate) fn count(part: &Edges, min: u8, max: u8) -> Edges
    ensures { known_of result ≡ count_edges (known_of part.now) min max }
{
    Edges {
        nothing: part.nothing || (min == 0 || max == 0),
        takes: ByteSet::empty(),
        stops: ByteSet::empty(),
        ..*part
    }
}

/// Returns what is known of an and-predicate.
pub(crate) fn and(part: &Edges) -> Edges
    ensures { known_of result ≡ and_edges (known_of part.now) }
{
    Edges {
        nothing: true,
        something: false,
        fails: part.fails,
        any: false,
        begins: ByteSet::empty(),
        takes: part.takes,
        stops: ByteSet::empty(),
    }
}

/// Returns what is known of a not-predicate.
pub(crate) fn not(part: &Edges) -> Edges
    ensures { known_of result ≡ not_edges (known_of part.now) }
{
    Edges {
        nothing: part.fails,
        something: false,
        fails: true,
        any: false,
        begins: ByteSet::empty(),
        takes: ByteSet::empty(),
        stops: part.takes,
    }
}

/// Returns whether an expression may match.
pub(crate) fn may_match(edges: &Edges) -> bool {
    edges.nothing || edges.something
}

// Returns whether all bytes of a set are in another one.
fn is_within(set: &ByteSet, other: &ByteSet) -> bool
    ensures { IsTrue result → (byte : ℕ) → has (bytes_of set.now) byte ≡ true → has (bytes_of other.now) byte ≡ true }
{
    set.union(other) == *other
}

/// Returns whether each match of a byte or more begins with a byte of a set, and one may be there.
pub(crate) fn begins_within(edges: &Edges, set: &ByteSet) -> bool
    ensures { IsTrue result → BeginsWithin (known_of edges.now) (has (bytes_of set.now)) }
{
    !edges.any && !edges.begins.is_empty() && is_within(&edges.begins, set)
}
