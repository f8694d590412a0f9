//! How messages write the items that are expected.

/// How a message writes the items that are expected.
#[derive(Clone, Copy, Debug, PartialEq, Eq)]
pub struct ItemStyle {
    /// Whether rules are named that are called at the offset of the mismatch, outside predicates, and fail there at once.
    pub uses_names: bool,
    /// Whether each item that isn't written as a name is followed by its rule.
    pub shows_rules: bool,
}

impl ItemStyle {
    ghost use Rattle.std.specs.Prelude.{◌≡◌};
    ghost use Rattle.peg_explain.specs.Styles.{style_of};

    /// Returns the style with rules or without, in which all terminals are written as in the grammar file, or some as
    /// names of rules.
    pub fn from_flags(rules: bool, terminals: bool) -> ItemStyle
        ensures { result ≡ style_of rules terminals }
    {
        ItemStyle {
            uses_names: !terminals,
            shows_rules: rules,
        }
    }
}
