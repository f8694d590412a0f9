//! What the name of a text asks for.

/// What the name of a text asks for.
#[derive(Clone, Copy, Debug, PartialEq, Eq)]
pub(crate) enum Wanted {
    /// The text matches as a whole.
    Match,
    /// The text doesn't match as a whole.
    NoMatch,
}

impl Wanted {
    ghost use Rattle.std.specs.Prelude.{◌≡◌};
    ghost use Rattle.peg_test_files.specs.TestNames.{wanted_of};

    /// Returns what the name of a file in a folder asks for; nothing, if it isn't the name of a text.
    pub(crate) fn of_name(name: &[u8]) -> Option<Wanted>
        ensures { result ≡ wanted_of name.now }
    {
        if name.ends_with(b".rows") {
            None
        } else if name.starts_with(b"match") {
            Some(Wanted::Match)
        } else if name.starts_with(b"no_match") {
            Some(Wanted::NoMatch)
        } else {
            None
        }
    }
}
