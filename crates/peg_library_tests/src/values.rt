//! A tree as a JSON value, which the program doesn't build.
ghost use Rattle.std.specs.Prelude.{◌∷◌, [], codes};

use peg_fixtures::node;
use peg_tree::{Names, Tree, TreeNode, nested_json, one_tree, rows_json};
use std::alloc::Global;
use std::test::Fail;

// Rule 0 is `list`, and rule 1 is `word`.
struct Grammar;

impl Names for Grammar {
    ghost names = { λ _. codes "list" ∷ codes "word" ∷ [] };

    fn count(&self) -> u32 {
        2
    }

    fn name(&self, rule: u32) -> &str {
        if rule == 0 { "list" } else { "word" }
    }
}

// A root with one child.
fn rows_of(alloc: Global) -> Result<Vec<TreeNode>, Fail> {
    Ok([node(0, 0, 9, 2), node(1, 4, 9, 1)].to_vec(alloc)?)
}

#[test]
fn a_tree_is_a_list_of_nodes_or_a_nested_object(rt: HostRuntime) -> Result<(), Fail> {
    let alloc = rt.alloc();
    let rows = rows_of(alloc)?;
    assert!(rt; one_tree(&rows));
    let tree = Tree::from_rows(rows);
    assert!(rt; tree.fits(Grammar.count()));
    let rows = rows_json(alloc, &tree, &Grammar)?.to_string(alloc)?;
    assert!(rt; rows.as_str() == "[[1,\"list\",0,9],[2,\"word\",4,9]]");
    let nested = nested_json(alloc, &tree, &Grammar)
        .ok()
        .ok_or("memory")?
        .to_string(alloc)?;
    let wanted =
        "{\"children\":[{\"children\":[],\"end\":9,\"rule\":\"word\",\"start\":4}],\"end\":9,\"rule\":\"list\",\"start\":0}";
    assert!(rt; nested.as_str() == wanted);
    Ok(())
}
