//! Laws of the definitions, for all trees. Each function does nothing; the contract of the function is the law.
ghost use Rattle.std.specs.Prelude.{◌≡◌, ◌&&◌, ℕ, Bool, true};
ghost use Rattle.peg_tree.specs.Nodes.{RulesBelow};
ghost use Rattle.peg_tree.specs.Selected.{selected};
ghost use Rattle.peg_tree.specs.Trees.{Trees};

/// Selecting all rules changes nothing.
pub fn selecting_all_rules_changes_nothing()
    ensures { (trees : Trees) → selected (λ _. true) trees ≡ trees }
{}

/// Selecting twice is selecting the rules of both sets.
pub fn selecting_twice_selects_the_rules_of_both_sets()
    ensures { (first second : ℕ → Bool) (trees : Trees)
        → selected second (selected first trees) ≡ selected (λ rule. first rule && second rule) trees }
{}

/// A selected tree has no other rules than the tree.
pub fn a_selected_tree_has_no_other_rules()
    ensures { (shown : ℕ → Bool) (bound : ℕ) (trees : Trees)
        → RulesBelow bound trees → RulesBelow bound (selected shown trees) }
{}
