//! Spans of a file.
ghost use Rattle.std.specs.Prelude.{◌≡◌, ◌-◌, ◌≤◌, ◌⊎◌, ◌↔◌, min, max, IsSome, IfSome};

/// A span of a file: the bytes from `start` up to, but not including, `end`. Both are byte offsets from 0.
#[derive(Clone, Copy, Debug, PartialEq, Eq)]
pub struct Span {
    pub start: u32,
    pub end: u32,
    pub ghost ordered: { start ≤ end },
}

impl Span {
    /// Returns the span from `start` to `end`.
    pub fn new(start: u32, end: u32) -> Span
        requires { start ≤ end }
        ensures start { result.start ≡ start }
        ensures end { result.end ≡ end }
    {
        Span { start, end }
    }

    /// Returns the length of the span in bytes.
    pub fn len(&self) -> u32
        ensures { result ≡ self.now.end - self.now.start }
    {
        self.end - self.start
    }

    /// Returns the union of two adjacent spans, in either order. Returns `None` if neither span ends where the other
    /// starts.
    pub fn joins(&self, other: &Span) -> Option<Span>
        ensures touching { IsSome result
            ↔ ((self.now.end ≡ other.now.start) ⊎ (other.now.end ≡ self.now.start)) }
        ensures both { IfSome result (λ span. (span.start ≡ min self.now.start other.now.start)
            × (span.end ≡ max self.now.end other.now.end)) }
    {
        if self.end == other.start {
            Some(Span::new(self.start, other.end))
        } else if other.end == self.start {
            Some(Span::new(other.start, self.end))
        } else {
            None
        }
    }
}
