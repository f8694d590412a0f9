//! The metagrammar as definitions, rule by rule.
ghost use Rattle.std.specs.Prelude.{◌≡◌, IfOk};
ghost use Rattle.peg_grammar.specs.Written.{form_of, rules_of};
ghost use Rattle.peg_metagrammar.specs.Figure.{figure, grammar_body, definition_body, expression_body, sequence_body};
ghost use Rattle.peg_metagrammar.specs.Figure.{prefix_body, suffix_body, primary_body, identifier_body};
ghost use Rattle.peg_metagrammar.specs.Figure.{ident_start_body, ident_cont_body, literal_body, class_body};
ghost use Rattle.peg_metagrammar.specs.Figure.{range_body, char_body, count_body, number_body, spacing_body};
ghost use Rattle.peg_metagrammar.specs.Figure.{comment_body, space_body, end_of_line_body, end_of_file_body};
ghost use Rattle.peg_metagrammar.specs.FigureParts.{grammar_to_identifier, ident_start_to_slash, and_to_star};
ghost use Rattle.peg_metagrammar.specs.FigureParts.{plus_to_open, close_and_dot, spacing_to_end_of_file};

use crate::builders::{add_definition, add_operator};
use crate::line::Line;
use crate::rule_lines::{
    char_on, class_on, comment_on, count_on, definition_on, end_of_file_on, end_of_line_on,
    expression_on, grammar_on, ident_cont_on, ident_start_on, identifier_on, literal_on, number_on,
    prefix_on, primary_on, range_on, sequence_on, space_on, spacing_on, suffix_on,
};
use crate::rule_numbers::{
    AND, CHAR, CLASS, CLOSE, COMMENT, COUNT, DEFINITION, DOT, END_OF_FILE, END_OF_LINE, EXPRESSION,
    GRAMMAR, IDENT_CONT, IDENT_START, IDENTIFIER, LEFTARROW, LITERAL, NOT, NUMBER, OPEN, PLUS,
    PREFIX, PRIMARY, QUESTION, RANGE, SEQUENCE, SLASH, SPACE, SPACING, STAR, SUFFIX,
};
use peg_grammar::{Definition, Expr};
use std::alloc::{AllocError, Global};

/// Returns the definitions of the metagrammar: Ford's figure 1 (Ford 2004, section 2.1), with counts in rule Suffix and
/// hexadecimal escapes in rule Char. The spans are those of `figure_text`.
#[tactic(auto, unfolding(crate::specs::Figure::figure))]
pub fn figure(alloc: Global) -> Result<Vec<Definition>, AllocError>
    ensures { IfOk result (λ definitions. rules_of definitions.items ≡ figure) }
{
    let mut rules = grammar_to_identifier(alloc)?;
    rules.append(&mut ident_start_to_slash(alloc)?)?;
    rules.append(&mut and_to_star(alloc)?)?;
    rules.append(&mut plus_to_open(alloc)?)?;
    rules.append(&mut close_and_dot(alloc)?)?;
    rules.append(&mut spacing_to_end_of_file(alloc)?)?;
    Ok(rules)
}

// The eight rules from Grammar to Identifier.
#[tactic(auto, unfolding(crate::specs::Figure::figure))]
fn grammar_to_identifier(alloc: Global) -> Result<Vec<Definition>, AllocError>
    ensures { IfOk result (λ definitions. rules_of definitions.items ≡ grammar_to_identifier) }
{
    let mut rules = Vec::with_capacity(alloc, 8)?;
    add_definition(alloc, &mut rules, GRAMMAR, "Grammar", grammar_body(alloc)?)?;
    add_definition(
        alloc,
        &mut rules,
        DEFINITION,
        "Definition",
        definition_body(alloc)?,
    )?;
    add_definition(
        alloc,
        &mut rules,
        EXPRESSION,
        "Expression",
        expression_body(alloc)?,
    )?;
    add_definition(
        alloc,
        &mut rules,
        SEQUENCE,
        "Sequence",
        sequence_body(alloc)?,
    )?;
    add_definition(alloc, &mut rules, PREFIX, "Prefix", prefix_body(alloc)?)?;
    add_definition(alloc, &mut rules, SUFFIX, "Suffix", suffix_body(alloc)?)?;
    add_definition(alloc, &mut rules, PRIMARY, "Primary", primary_body(alloc)?)?;
    add_definition(
        alloc,
        &mut rules,
        IDENTIFIER,
        "Identifier",
        identifier_body(alloc)?,
    )?;
    Ok(rules)
}

// The eight rules from IdentStart to SLASH.
#[tactic(auto, unfolding(crate::specs::Figure::figure))]
fn ident_start_to_slash(alloc: Global) -> Result<Vec<Definition>, AllocError>
    ensures { IfOk result (λ definitions. rules_of definitions.items ≡ ident_start_to_slash) }
{
    let mut rules = Vec::with_capacity(alloc, 8)?;
    add_definition(
        alloc,
        &mut rules,
        IDENT_START,
        "IdentStart",
        ident_start_body(alloc)?,
    )?;
    add_definition(
        alloc,
        &mut rules,
        IDENT_CONT,
        "IdentCont",
        ident_cont_body(alloc)?,
    )?;
    add_definition(alloc, &mut rules, LITERAL, "Literal", literal_body(alloc)?)?;
    add_definition(alloc, &mut rules, CLASS, "Class", class_body(alloc)?)?;
    add_definition(alloc, &mut rules, RANGE, "Range", range_body(alloc)?)?;
    add_definition(alloc, &mut rules, CHAR, "Char", char_body(alloc)?)?;
    add_operator(alloc, &mut rules, LEFTARROW, "LEFTARROW", b"<-", 13, 17)?;
    add_operator(alloc, &mut rules, SLASH, "SLASH", b"/", 9, 12)?;
    Ok(rules)
}

// The four rules from AND to STAR.
#[tactic(auto, unfolding(crate::specs::Figure::figure))]
fn and_to_star(alloc: Global) -> Result<Vec<Definition>, AllocError>
    ensures { IfOk result (λ definitions. rules_of definitions.items ≡ and_to_star) }
{
    let mut rules = Vec::with_capacity(alloc, 4)?;
    add_operator(alloc, &mut rules, AND, "AND", b"&", 7, 10)?;
    add_operator(alloc, &mut rules, NOT, "NOT", b"!", 7, 10)?;
    add_operator(alloc, &mut rules, QUESTION, "QUESTION", b"?", 12, 15)?;
    add_operator(alloc, &mut rules, STAR, "STAR", b"*", 8, 11)?;
    Ok(rules)
}

// The four rules from PLUS to OPEN.
#[tactic(auto, unfolding(crate::specs::Figure::figure))]
fn plus_to_open(alloc: Global) -> Result<Vec<Definition>, AllocError>
    ensures { IfOk result (λ definitions. rules_of definitions.items ≡ plus_to_open) }
{
    let mut rules = Vec::with_capacity(alloc, 4)?;
    add_operator(alloc, &mut rules, PLUS, "PLUS", b"+", 8, 11)?;
    add_definition(alloc, &mut rules, COUNT, "COUNT", count_body(alloc)?)?;
    add_definition(alloc, &mut rules, NUMBER, "Number", number_body(alloc)?)?;
    add_operator(alloc, &mut rules, OPEN, "OPEN", b"(", 8, 11)?;
    Ok(rules)
}

// CLOSE and DOT.
#[tactic(auto, unfolding(crate::specs::Figure::figure))]
fn close_and_dot(alloc: Global) -> Result<Vec<Definition>, AllocError>
    ensures { IfOk result (λ definitions. rules_of definitions.items ≡ close_and_dot) }
{
    let mut rules = Vec::with_capacity(alloc, 2)?;
    add_operator(alloc, &mut rules, CLOSE, "CLOSE", b")", 9, 12)?;
    add_operator(alloc, &mut rules, DOT, "DOT", b".", 7, 10)?;
    Ok(rules)
}

// The five rules from Spacing to EndOfFile.
#[tactic(auto, unfolding(crate::specs::Figure::figure))]
fn spacing_to_end_of_file(alloc: Global) -> Result<Vec<Definition>, AllocError>
    ensures { IfOk result (λ definitions. rules_of definitions.items ≡ spacing_to_end_of_file) }
{
    let mut rules = Vec::with_capacity(alloc, 5)?;
    add_definition(alloc, &mut rules, SPACING, "Spacing", spacing_body(alloc)?)?;
    add_definition(alloc, &mut rules, COMMENT, "Comment", comment_body(alloc)?)?;
    add_definition(alloc, &mut rules, SPACE, "Space", space_body(alloc)?)?;
    add_definition(
        alloc,
        &mut rules,
        END_OF_LINE,
        "EndOfLine",
        end_of_line_body(alloc)?,
    )?;
    add_definition(
        alloc,
        &mut rules,
        END_OF_FILE,
        "EndOfFile",
        end_of_file_body(alloc)?,
    )?;
    Ok(rules)
}

// Grammar <- Spacing Definition+ EndOfFile
#[tactic(auto, unfolding(crate::specs::Figure::grammar_body))]
fn grammar_body(alloc: Global) -> Result<Expr, AllocError>
    ensures { IfOk result (λ body. form_of body ≡ grammar_body) }
{
    grammar_on(alloc, Line::of_rule(GRAMMAR))
}

// Definition <- Identifier LEFTARROW Expression
#[tactic(auto, unfolding(crate::specs::Figure::definition_body))]
fn definition_body(alloc: Global) -> Result<Expr, AllocError>
    ensures { IfOk result (λ body. form_of body ≡ definition_body) }
{
    definition_on(alloc, Line::of_rule(DEFINITION))
}

// Expression <- Sequence (SLASH Sequence)*
#[tactic(auto, unfolding(crate::specs::Figure::expression_body))]
fn expression_body(alloc: Global) -> Result<Expr, AllocError>
    ensures { IfOk result (λ body. form_of body ≡ expression_body) }
{
    expression_on(alloc, Line::of_rule(EXPRESSION))
}

// Sequence <- Prefix*
#[tactic(auto, unfolding(crate::specs::Figure::sequence_body))]
fn sequence_body(alloc: Global) -> Result<Expr, AllocError>
    ensures { IfOk result (λ body. form_of body ≡ sequence_body) }
{
    sequence_on(alloc, Line::of_rule(SEQUENCE))
}

// Prefix <- (AND / NOT)? Suffix
#[tactic(auto, unfolding(crate::specs::Figure::prefix_body))]
fn prefix_body(alloc: Global) -> Result<Expr, AllocError>
    ensures { IfOk result (λ body. form_of body ≡ prefix_body) }
{
    prefix_on(alloc, Line::of_rule(PREFIX))
}

// Suffix <- Primary (QUESTION / STAR / PLUS / COUNT)?
#[tactic(auto, unfolding(crate::specs::Figure::suffix_body))]
fn suffix_body(alloc: Global) -> Result<Expr, AllocError>
    ensures { IfOk result (λ body. form_of body ≡ suffix_body) }
{
    suffix_on(alloc, Line::of_rule(SUFFIX))
}

// Primary <- Identifier !LEFTARROW / OPEN Expression CLOSE / Literal / Class / DOT
#[tactic(auto, unfolding(crate::specs::Figure::primary_body))]
fn primary_body(alloc: Global) -> Result<Expr, AllocError>
    ensures { IfOk result (λ body. form_of body ≡ primary_body) }
{
    primary_on(alloc, Line::of_rule(PRIMARY))
}

// Identifier <- IdentStart IdentCont* Spacing
#[tactic(auto, unfolding(crate::specs::Figure::identifier_body))]
fn identifier_body(alloc: Global) -> Result<Expr, AllocError>
    ensures { IfOk result (λ body. form_of body ≡ identifier_body) }
{
    identifier_on(alloc, Line::of_rule(IDENTIFIER))
}

// IdentStart <- [a-zA-Z_]
#[tactic(auto, unfolding(crate::specs::Figure::ident_start_body))]
fn ident_start_body(alloc: Global) -> Result<Expr, AllocError>
    ensures { IfOk result (λ body. form_of body ≡ ident_start_body) }
{
    ident_start_on(alloc, Line::of_rule(IDENT_START))
}

// IdentCont <- IdentStart / [0-9]
#[tactic(auto, unfolding(crate::specs::Figure::ident_cont_body))]
fn ident_cont_body(alloc: Global) -> Result<Expr, AllocError>
    ensures { IfOk result (λ body. form_of body ≡ ident_cont_body) }
{
    ident_cont_on(alloc, Line::of_rule(IDENT_CONT))
}

// Literal <- ['] (!['] Char)* ['] Spacing / ["] (!["] Char)* ["] Spacing
#[tactic(auto, unfolding(crate::specs::Figure::literal_body))]
fn literal_body(alloc: Global) -> Result<Expr, AllocError>
    ensures { IfOk result (λ body. form_of body ≡ literal_body) }
{
    literal_on(alloc, Line::of_rule(LITERAL))
}

// Class <- '[' (!']' Range)* ']' Spacing
#[tactic(auto, unfolding(crate::specs::Figure::class_body))]
fn class_body(alloc: Global) -> Result<Expr, AllocError>
    ensures { IfOk result (λ body. form_of body ≡ class_body) }
{
    class_on(alloc, Line::of_rule(CLASS))
}

// Range <- Char '-' Char / Char
#[tactic(auto, unfolding(crate::specs::Figure::range_body))]
fn range_body(alloc: Global) -> Result<Expr, AllocError>
    ensures { IfOk result (λ body. form_of body ≡ range_body) }
{
    range_on(alloc, Line::of_rule(RANGE))
}

// Char <- '\\x' [0-9a-fA-F][0-9a-fA-F] / '\\' [nrt'"\[\]\\] / '\\' [0-2][0-7][0-7] / '\\' [0-7][0-7]? / !'\\' .
#[tactic(auto, unfolding(crate::specs::Figure::char_body))]
fn char_body(alloc: Global) -> Result<Expr, AllocError>
    ensures { IfOk result (λ body. form_of body ≡ char_body) }
{
    char_on(alloc, Line::of_rule(CHAR))
}

// COUNT <- '{' Number (',' Number)? '}' Spacing
#[tactic(auto, unfolding(crate::specs::Figure::count_body))]
fn count_body(alloc: Global) -> Result<Expr, AllocError>
    ensures { IfOk result (λ body. form_of body ≡ count_body) }
{
    count_on(alloc, Line::of_rule(COUNT))
}

// Number <- [0-9]+
#[tactic(auto, unfolding(crate::specs::Figure::number_body))]
fn number_body(alloc: Global) -> Result<Expr, AllocError>
    ensures { IfOk result (λ body. form_of body ≡ number_body) }
{
    number_on(alloc, Line::of_rule(NUMBER))
}

// Spacing <- (Space / Comment)*
#[tactic(auto, unfolding(crate::specs::Figure::spacing_body))]
fn spacing_body(alloc: Global) -> Result<Expr, AllocError>
    ensures { IfOk result (λ body. form_of body ≡ spacing_body) }
{
    spacing_on(alloc, Line::of_rule(SPACING))
}

// Comment <- '#' (!EndOfLine .)* EndOfLine
#[tactic(auto, unfolding(crate::specs::Figure::comment_body))]
fn comment_body(alloc: Global) -> Result<Expr, AllocError>
    ensures { IfOk result (λ body. form_of body ≡ comment_body) }
{
    comment_on(alloc, Line::of_rule(COMMENT))
}

// Space <- ' ' / '\t' / EndOfLine
#[tactic(auto, unfolding(crate::specs::Figure::space_body))]
fn space_body(alloc: Global) -> Result<Expr, AllocError>
    ensures { IfOk result (λ body. form_of body ≡ space_body) }
{
    space_on(alloc, Line::of_rule(SPACE))
}

// EndOfLine <- '\r\n' / '\n' / '\r'
#[tactic(auto, unfolding(crate::specs::Figure::end_of_line_body))]
fn end_of_line_body(alloc: Global) -> Result<Expr, AllocError>
    ensures { IfOk result (λ body. form_of body ≡ end_of_line_body) }
{
    end_of_line_on(alloc, Line::of_rule(END_OF_LINE))
}

// EndOfFile <- !.
#[tactic(auto, unfolding(crate::specs::Figure::end_of_file_body))]
fn end_of_file_body(alloc: Global) -> Result<Expr, AllocError>
    ensures { IfOk result (λ body. form_of body ≡ end_of_file_body) }
{
    end_of_file_on(alloc, Line::of_rule(END_OF_FILE))
}
