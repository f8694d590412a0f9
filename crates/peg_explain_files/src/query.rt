//! What is asked: a grammar file, texts, how they are parsed, and how messages are written.
use peg_explain::ItemStyle;
use peg_parser::ParseOptions;

/// Which byte ends a name in a list of names.
#[derive(Clone, Copy, Debug, PartialEq, Eq)]
pub enum NameEnd {
    /// A line end, LF.
    LineEnd,
    /// A zero byte.
    ZeroByte,
}

impl NameEnd {
    ghost use Rattle.std.specs.Prelude.{◌≡◌};
    ghost use Rattle.peg_explain_files.specs.Names.{end_byte, name_end};

    /// Returns `ZeroByte` if names end at a zero byte, and `LineEnd` otherwise.
    pub fn from_null(null: bool) -> NameEnd
        ensures { result ≡ name_end null }
    {
        if null {
            NameEnd::ZeroByte
        } else {
            NameEnd::LineEnd
        }
    }

    // The byte that ends a name.
    pub(crate) fn byte(self) -> u8
        ensures { result ≡ end_byte self }
    {
        match self {
            NameEnd::LineEnd => b'\n',
            NameEnd::ZeroByte => 0,
        }
    }
}

/// What is asked of `explain_files`.
#[derive(Clone, Copy, Debug, PartialEq, Eq)]
pub struct Query<'a> {
    /// The name of the grammar file.
    pub grammar: &'a str,
    /// The names of texts.
    pub texts: &'a [String],
    /// The name of a file that lists further names of texts; `-` is the input.
    pub list: Option<&'a str>,
    /// Which byte ends a name in the list.
    pub end: NameEnd,
    /// How the texts are parsed.
    pub options: ParseOptions<'a>,
    /// How messages write the items that are expected.
    pub style: ItemStyle,
}
