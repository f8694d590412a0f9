//! The definitions that a metagrammar tree denotes.
ghost use Rattle.std.specs.Prelude.{◌≡◌, ◌<◌, ◌≤◌, [], codes, IfOk, IfErr, OnOk, IsErrOf};
ghost use Rattle.peg_metagrammar.specs.Nesting.{nesting, max_open};
ghost use Rattle.peg_metagrammar.specs.Denotation.{bad_counts, rules_spelled};
ghost use Rattle.peg_grammar.specs.Written.{rules_of};
ghost use Rattle.peg_bootstrap.specs.FigureNodes.{IsNode, HasBadCount};
ghost use Rattle.peg_bootstrap.specs.FigureTrees.{IsTreeOf, HasNestingOrBadCount};
ghost use Rattle.peg_tree.specs.Branches.{tree_of_branch};

use crate::ast_builder::{AstBuilder, token_end};
use crate::fault::DefinitionsFault;
use crate::nesting::nests_within;
use peg_grammar::Definition;
use peg_metagrammar::MAX_OPEN;
use peg_metagrammar::rule_numbers::DEFINITION;
use peg_tree::{Branch, Tree};
use std::alloc::Global;

/// Returns the definitions that a metagrammar tree of a file denotes, in order and with their spans. The tree must be
/// the one that the metagrammar gives for the file from its first rule (Ford 2004, section 2.1). Takes time linear in
/// the tree.
///
/// The error is `TooNested` if more than `MAX_OPEN` parentheses are open at once. Otherwise it is `BadCount` at the
/// first count that is out of range. It is `Memory` if an allocation fails.
pub fn definitions_of(
    alloc: Global,
    tree: &Tree,
    file: &[u8],
) -> Result<Vec<Definition>, DefinitionsFault>
    requires { IsTreeOf file.now tree.now }
    ensures spells { IfOk result (λ definitions. rules_of definitions.items ≡ rules_spelled file.now tree.now) }
    ensures within { OnOk result (nesting tree.now ≤ max_open) }
    ensures fine { OnOk result (bad_counts file.now tree.now ≡ []) }
    ensures deep { IsErrOf result DefinitionsFault.TooNested → max_open < nesting tree.now }
    ensures bad { IfErr result (HasNestingOrBadCount file.now tree.now) }
{
    match definitions_before_count(alloc, tree, file) {
        Err(DefinitionsFault::BadCount { .. }) if !nests_within(&tree.forest(), MAX_OPEN) => {
            Err(DefinitionsFault::TooNested)
        }
        definitions => definitions,
    }
}

// The same, but a count that is out of range is reported even if the parentheses after it nest too deep.
fn definitions_before_count(
    alloc: Global,
    tree: &Tree,
    file: &[u8],
) -> Result<Vec<Definition>, DefinitionsFault>
    requires { IsTreeOf file.now tree.now }
    ensures spells { IfOk result (λ definitions. rules_of definitions.items ≡ rules_spelled file.now tree.now) }
    ensures within { OnOk result (nesting tree.now ≤ max_open) }
    ensures fine { OnOk result (bad_counts file.now tree.now ≡ []) }
    ensures deep { IsErrOf result DefinitionsFault.TooNested → max_open < nesting tree.now }
    ensures bad { IfErr result (HasBadCount file.now tree.now) }
{
    let builder = AstBuilder { alloc, file };
    let spacing = tree.forest().first().children.first();
    let mut definitions = Vec::new(alloc);
    let mut node = spacing.rest.first();
    'definitions: while node.rule == DEFINITION {
        let definition = builder.definition(&node)?;
        definitions.push(definition)?;
        node = node.rest.first();
    }
    Ok(definitions)
}

impl<'a> AstBuilder<'a> {
    ghost use Rattle.peg_bootstrap.specs.AstBuilderCode.{file_in, BuildsRule};

    // Definition: a name, an arrow and an expression.
    fn definition(&self, node: &Branch<'_>) -> Result<Definition, DefinitionsFault>
        requires { IsNode (file_in self.now) (codes "Definition") node.now }
        ensures spells { IfOk result (BuildsRule (file_in self.now) (tree_of_branch node.now)) }
        ensures within { OnOk result (nesting (tree_of_branch node.now) ≤ max_open) }
        ensures fine { OnOk result (bad_counts (file_in self.now) (tree_of_branch node.now) ≡ []) }
        ensures deep { IsErrOf result DefinitionsFault.TooNested → max_open < nesting (tree_of_branch node.now) }
        ensures bad { IfErr result (HasBadCount (file_in self.now) (tree_of_branch node.now)) }
    {
        let name = node.children.first();
        let arrow = name.rest.first();
        let rule_name = self.rule_name(&name)?;
        let body = self.expression(token_end(&arrow), &arrow.rest.first(), MAX_OPEN)?;
        Ok(Definition {
            name: rule_name.name,
            span: rule_name.span,
            body: body.expression,
        })
    }
}
