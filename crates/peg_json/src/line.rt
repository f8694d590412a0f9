//! The line of a reply, and its exit status.
use crate::status::Status;
use peg_tree::FlatTreeWriter;

/// The line of a reply, and its exit status. The head, the nodes and the tail are written in this order.
#[derive(Debug, Drop)]
pub struct Line {
    /// One line of JSON, or its part before the nodes if there are `rows`.
    pub head: String,
    /// The nodes of a tree that is printed as the list of them.
    pub rows: Option<FlatTreeWriter>,
    /// The rest of the line, with the line end.
    pub tail: Tail,
    pub status: Status,
}

/// The end of a line.
#[derive(Clone, Copy, Debug, PartialEq, Eq)]
pub enum Tail {
    /// The line end alone, byte 10.
    LineEnd,
    /// The ends of the list of nodes and of the object that contains it, and the line end.
    ListEnd,
}

impl Tail {
    ghost use Rattle.std.specs.Prelude.{◌≡◌};
    ghost use Rattle.peg_json.specs.Lines.{tail_bytes};

    /// Returns the bytes of this end.
    pub fn bytes(self) -> &'static [u8]
        ensures { result.now ≡ tail_bytes self }
    {
        match self {
            Tail::LineEnd => b"\n",
            Tail::ListEnd => b"]}\n",
        }
    }
}

impl Line {
    ghost use Rattle.std.specs.Prelude.{◌≡◌, ◌∷◌, ◌++◌, [], string_bytes};
    ghost use Rattle.peg_json.specs.Lines.{line_bytes, tail_bytes};
    ghost use Rattle.peg_tree.specs.FlatTreeLeft.{text_left};

    // A line without rows.
    pub(crate) fn new(text: String, status: Status) -> Line
        ensures { (line_bytes result ≡ string_bytes text ++ 10 ∷ []) × (result.status ≡ status) }
    {
        Line {
            head: text,
            rows: None,
            tail: Tail::LineEnd,
            status,
        }
    }

    // A line whose last member is a list of nodes; `head` ends with the opening bracket of the list.
    pub(crate) fn with_rows(head: String, rows: FlatTreeWriter, status: Status) -> Line
        ensures { (line_bytes result ≡ string_bytes head ++ (text_left rows ++ tail_bytes Tail.ListEnd))
            × (result.status ≡ status) }
    {
        Line {
            head,
            rows: Some(rows),
            tail: Tail::ListEnd,
            status,
        }
    }
}
