//! The rules that a start rule reaches by the names in expressions.
ghost use Rattle.std.specs.Prelude.{◌≡◌, ◌<◌, length, map, slice_index_or, true, false, All, IfOk, OnOk};
ghost use Rattle.peg_grammar.specs.GrammarRules.{rules_in};
ghost use Rattle.peg_grammar.specs.Written.{form_of};
ghost use Rattle.peg_semantics.specs.Form.{forms, names_used, names_used_by_all};
ghost use Rattle.peg_semantics.specs.Rules.{name_of};
ghost use Rattle.peg_lint.specs.Reaching.{AreClosed, AreNamesMarked, AreReached, IsMarked, IsNameMarked, ReachesMore};

use peg_grammar::{Expr, Grammar};
use std::alloc::{AllocError, Global};

// The rules that are reached are marked, by number. Those whose expressions are still to be read are pending.
#[derive(Drop)]
struct Reach {
    marks: Vec<bool>,
    pending: Vec<u32>,
}

impl Reach {
    ghost use Rattle.std.specs.Prelude.{◌≡◌, ◌⊎◌, ◌<◌, ℕ, length, map, OnOk};
    ghost use Rattle.peg_grammar.specs.GrammarRules.{rules_in};
    ghost use Rattle.peg_grammar.specs.Written.{form_of};
    ghost use Rattle.peg_semantics.specs.Form.{forms, names_used, names_used_by_all};
    ghost use Rattle.peg_lint.specs.Reaches.{RefersTo};
    ghost use Rattle.peg_lint.specs.Reaching.{AreNamesMarked, IsMarked, IsNameMarked, MarksOnly, ReachesMore};

    // Marks a rule, which is pending from then on, unless it is marked already.
    fn add(&mut self, number: u32) -> Result<(), AllocError>
        requires { number < length self.old.marks.items }
        ensures marked { OnOk result (IsMarked self.new.marks.items number) }
        ensures only { OnOk result ((other : ℕ) → IsMarked self.new.marks.items other
            → IsMarked self.old.marks.items other ⊎ (other ≡ number)) }
        ensures more { OnOk result (ReachesMore self.old self.new) }
    {
        if self.marks[number as usize] {
            return Ok(());
        }
        self.pending.push(number)?;
        self.marks[number as usize] = true;
        Ok(())
    }

    // Marks the rule of a name, if there is one.
    fn add_name(&mut self, grammar: &Grammar, name: &str) -> Result<(), AllocError>
        requires { length self.old.marks.items ≡ length (rules_in grammar.now) }
        ensures marked { OnOk result (IsNameMarked (rules_in grammar.now) self.new.marks.items name.now) }
        ensures only { OnOk result ((other : ℕ) → IsMarked self.new.marks.items other
            → IsMarked self.old.marks.items other ⊎ RefersTo (rules_in grammar.now) name.now other) }
        ensures more { OnOk result (ReachesMore self.old self.new) }
    {
        match grammar.rule_number(name) {
            Some(rule) => self.add(rule),
            None => Ok(()),
        }
    }

    // Marks the rules that an expression refers to. Recurses as deep as expressions nest.
    #[cycle(names)]
    fn add_names(&mut self, grammar: &Grammar, expr: &Expr) -> Result<(), AllocError>
        requires { length self.old.marks.items ≡ length (rules_in grammar.now) }
        ensures marked { OnOk result
            (AreNamesMarked (rules_in grammar.now) self.new.marks.items (names_used (form_of expr.now))) }
        ensures only { OnOk result (MarksOnly (rules_in grammar.now) (names_used (form_of expr.now))
            self.old.marks.items self.new.marks.items) }
        ensures more { OnOk result (ReachesMore self.old self.new) }
    {
        match expr {
            Expr::Literal { .. } | Expr::Class { .. } | Expr::Any { .. } => Ok(()),
            Expr::Name { name, .. } => self.add_name(grammar, name.as_str()),
            Expr::Seq { items, .. } => self.add_all_names(grammar, items),
            Expr::Choice { first, rest, .. } => {
                self.add_names(grammar, first)?;
                self.add_all_names(grammar, rest)
            }
            Expr::Optional { part, .. }
            | Expr::Star { part, .. }
            | Expr::Plus { part, .. }
            | Expr::Counted { part, .. }
            | Expr::And { part, .. }
            | Expr::Not { part, .. } => self.add_names(grammar, part),
        }
    }

    // Marks the rules that expressions refer to.
    #[cycle(names)]
    fn add_all_names(&mut self, grammar: &Grammar, items: &[Expr]) -> Result<(), AllocError>
        requires { length self.old.marks.items ≡ length (rules_in grammar.now) }
        ensures marked { OnOk result (AreNamesMarked (rules_in grammar.now) self.new.marks.items
            (names_used_by_all (forms (map form_of items.now)))) }
        ensures only { OnOk result (MarksOnly (rules_in grammar.now) (names_used_by_all (forms (map form_of items.now)))
            self.old.marks.items self.new.marks.items) }
        ensures more { OnOk result (ReachesMore self.old self.new) }
    {
        for item in items {
            self.add_names(grammar, item)?;
        }
        Ok(())
    }
}

/// Returns for each rule whether the start rule reaches it: whether it is the start rule, or its name is in the
/// expression of a rule that is reached. Takes time and memory linear in the grammar, apart from hashing.
pub(crate) fn reached_from(
    alloc: Global,
    grammar: &Grammar,
    start: u32,
) -> Result<Vec<bool>, AllocError>
    requires { start < length (rules_in grammar.now) }
    ensures count { IfOk result (λ marks. length marks.items ≡ length (rules_in grammar.now)) }
    ensures start { IfOk result (λ marks.
        IsNameMarked (rules_in grammar.now) marks.items (name_of (rules_in grammar.now) start)) }
    ensures closed { IfOk result (λ marks. AreClosed (rules_in grammar.now) marks.items) }
    ensures reached { IfOk result (λ marks. AreReached (rules_in grammar.now) start marks.items) }
{
    let mut reach = Reach {
        marks: vec![in alloc; false; grammar.rules() as usize]?,
        pending: Vec::new(alloc),
    };
    reach.add_name(grammar, grammar.rule_name(start))?;
    'rules: while let Some(rule) = reach.pending.pop() {
        reach.add_names(grammar, grammar.body(rule))?;
    }
    let Reach { marks, .. } = reach;
    Ok(marks)
}
