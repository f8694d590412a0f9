//! Laws of the stack as it is represented in memory. Each function has an empty body; its contract is the law.
ghost use Rattle.std.specs.Prelude.{◌≡◌, ◌≤◌, ◌++◌, ◌∷◌, [], length, set, take, List, ℕ};
ghost use Rattle.peg_machine.specs.Entries.{nodes_below, push_entry, stack_of, CountsAscend, Entry};
ghost use Rattle.peg_tree.specs.Rows.{Row};

/// Appending an entry to the list pushes it on the stack.
pub fn an_entry_is_pushed()
    ensures { (rows : List Row) (entries : List Entry) (entry : Entry)
        → stack_of rows (entries ++ entry ∷ []) ≡ push_entry rows entry (stack_of rows entries) }
{}

/// Ascending node counts stay ascending after a push, after a pop, and under a greater upper bound.
pub fn node_counts_ascend()
    ensures push { (low high : ℕ) (entries : List Entry) (entry : Entry) → CountsAscend low (nodes_below entry) entries
        → nodes_below entry ≤ high → CountsAscend low high (entries ++ entry ∷ []) }
    ensures pop { (low high : ℕ) (entries : List Entry) (entry : Entry) → CountsAscend low high (entries ++ entry ∷ [])
        → CountsAscend low (nodes_below entry) entries × (nodes_below entry ≤ high) }
    ensures wider { (low high higher : ℕ) (entries : List Entry) → high ≤ higher → CountsAscend low high entries
        → CountsAscend low higher entries }
{}

/// Entries denote the same stack when nodes at or after their counts are appended, removed or changed.
pub fn later_nodes_change_no_stack()
    ensures more { (rows more : List Row) (entries : List Entry) → CountsAscend 0 (length rows) entries
        → stack_of (rows ++ more) entries ≡ stack_of rows entries }
    ensures fewer { (rows : List Row) (count : ℕ) (entries : List Entry) → CountsAscend 0 count entries
        → stack_of (take count rows) entries ≡ stack_of rows entries }
    ensures changed { (rows : List Row) (at : ℕ) (row : Row) (entries : List Entry) → CountsAscend 0 at entries
        → stack_of (set rows at row) entries ≡ stack_of rows entries }
{}
