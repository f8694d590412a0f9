//! The names of rules.
ghost use Rattle.std.specs.Prelude.{◌≡◌, ◌<◌, ℕ, List, length};
ghost use Rattle.peg_tree.specs.Names.{name_at};

/// Maps rule numbers, from 0, to names.
pub trait Names {
    ghost names: { Self → List (List ℕ) };

    /// Returns the number of rules.
    fn count(&self) -> u32
        ensures { result ≡ length (names self.now) };

    /// Returns the name of rule number `rule`.
    fn name(&self, rule: u32) -> &str
        requires { rule < length (names self.now) }
        ensures { result.now ≡ name_at (names self.now) rule };
}
