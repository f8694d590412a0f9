//! The printed form of a tree.
ghost use Rattle.std.specs.Prelude.{◌≡◌};

/// The printed form of a tree.
#[derive(Clone, Copy, Debug, PartialEq, Eq)]
pub enum TreeForm {
    /// Nested objects.
    Nested,
    /// The list of its nodes in preorder, with their levels.
    Rows,
    /// No form: the tree isn't printed.
    NoTree,
}

impl TreeForm {
    ghost use Rattle.peg_json.specs.TreeForms.{form_from_options, form_from_rows};

    /// Returns `Rows` if `rows` is set, otherwise `Nested`.
    pub fn from_rows(rows: bool) -> TreeForm
        ensures { result ≡ form_from_rows rows }
    {
        if rows {
            TreeForm::Rows
        } else {
            TreeForm::Nested
        }
    }

    /// Returns `NoTree` if `no_tree` is set, otherwise `Rows` or `Nested` as `from_rows` does.
    pub fn from_options(rows: bool, no_tree: bool) -> TreeForm
        ensures { result ≡ form_from_options rows no_tree }
    {
        if no_tree {
            return TreeForm::NoTree;
        }
        TreeForm::from_rows(rows)
    }
}
