//! Counts cut to at most one iteration.
ghost use Rattle.std.specs.Prelude.{◌≡◌, map};
ghost use Rattle.peg_semantics.specs.CutCounts.{cut_counts, cut_rule, cut_rules};
ghost use Rattle.peg_grammar.specs.Written.{form_of, rule_of, rules_of};

use crate::{Definition, Expr};

// Cuts the counts of definitions.
pub(crate) fn cut_definitions(mut definitions: Vec<Definition>) -> Vec<Definition>
    ensures { rules_of result.items ≡ cut_rules (rules_of definitions.items) }
{
    cut_all_definitions(&mut definitions);
    definitions
}

fn cut_all_definitions(definitions: &mut [Definition])
    ensures { rules_of definitions.new ≡ cut_rules (rules_of definitions.old) }
{
    for definition in definitions.iter_mut() {
        cut_definition(definition);
    }
}

fn cut_definition(definition: &mut Definition)
    ensures { rule_of definition.new ≡ cut_rule (rule_of definition.old) }
{
    cut(&mut definition.body);
}

// Cuts the counts of an expression where it is. Moving it would take a copy in each frame of the recursion, which is as
// deep as expressions nest.
#[cycle(cut)]
fn cut(expression: &mut Expr)
    ensures { form_of expression.new ≡ cut_counts (form_of expression.old) }
{
    match expression {
        Expr::Literal { .. } | Expr::Class { .. } | Expr::Any { .. } | Expr::Name { .. } => {}
        Expr::Seq { items, span: _span } => cut_all(items),
        Expr::Choice {
            first,
            rest,
            span: _span,
        } => {
            cut(first);
            cut_all(rest);
        }
        Expr::Counted {
            part,
            min,
            max,
            span: _span,
        } => {
            cut(part);
            *min = (*min).min(1);
            *max = (*max).min(1);
        }
        Expr::Optional { part, span: _span } => cut(part),
        Expr::Star { part, span: _span } => cut(part),
        Expr::Plus { part, span: _span } => cut(part),
        Expr::And { part, span: _span } => cut(part),
        Expr::Not { part, span: _span } => cut(part),
    }
}

#[cycle(cut)]
fn cut_all(items: &mut [Expr])
    ensures { map form_of items.new ≡ map (λ item. cut_counts (form_of item)) items.old }
{
    for item in items.iter_mut() {
        cut(item);
    }
}
