//! The expressions of the metagrammar's rules, each on a given line.
ghost use Rattle.std.specs.Prelude.{◌≡◌, ◌≤◌, IfOk};
ghost use Rattle.peg_grammar.specs.Written.{form_of};
ghost use Rattle.peg_metagrammar.specs.Figure.{primary_name, primary_parentheses, literal_single, literal_double};
ghost use Rattle.peg_metagrammar.specs.Figure.{char_hexadecimal, char_sign, char_three_digits, char_two_digits};
ghost use Rattle.peg_metagrammar.specs.Figure.{char_alone, hexadecimal_class, grammar_on, definition_on};
ghost use Rattle.peg_metagrammar.specs.Figure.{expression_on, sequence_on, prefix_on, suffix_on, primary_on};
ghost use Rattle.peg_metagrammar.specs.Figure.{identifier_on, ident_start_on, ident_cont_on, literal_on, class_on};
ghost use Rattle.peg_metagrammar.specs.Figure.{range_on, char_on, count_on, number_on, spacing_on, comment_on};
ghost use Rattle.peg_metagrammar.specs.Figure.{space_on, end_of_line_on, end_of_file_on, expression_rest, prefix_sign};
ghost use Rattle.peg_metagrammar.specs.Figure.{suffix_sign, single_chars, double_chars, class_ranges, range_ends};
ghost use Rattle.peg_metagrammar.specs.Figure.{count_maximum, comment_bytes};

use crate::builders::{
    add, add_literal, add_name, any, choice, class, class_from_set, literal, name, not, optional,
    plus, seq, star,
};
use crate::escapes::escaped_bytes;
use crate::line::Line;
use crate::ranges::range;
use peg_grammar::Expr;
use std::alloc::{AllocError, Global};

// Grammar <- Spacing Definition+ EndOfFile
pub(crate) fn grammar_on(alloc: Global, line: Line) -> Result<Expr, AllocError>
    ensures { IfOk result (λ body. form_of body ≡ grammar_on line.start) }
{
    let definitions = plus(
        alloc,
        name(alloc, "Definition", line.span(19, 29))?,
        line.span(19, 30),
    )?;
    let mut items = Vec::with_capacity(alloc, 3)?;
    add_name(alloc, &mut items, "Spacing", line, 11, 18)?;
    add(&mut items, definitions)?;
    add_name(alloc, &mut items, "EndOfFile", line, 31, 40)?;
    Ok(seq(items, line.span(11, 40)))
}

// Definition <- Identifier LEFTARROW Expression
pub(crate) fn definition_on(alloc: Global, line: Line) -> Result<Expr, AllocError>
    ensures { IfOk result (λ body. form_of body ≡ definition_on line.start) }
{
    let mut items = Vec::with_capacity(alloc, 3)?;
    add_name(alloc, &mut items, "Identifier", line, 14, 24)?;
    add_name(alloc, &mut items, "LEFTARROW", line, 25, 34)?;
    add_name(alloc, &mut items, "Expression", line, 35, 45)?;
    Ok(seq(items, line.span(14, 45)))
}

// Expression <- Sequence (SLASH Sequence)*
pub(crate) fn expression_on(alloc: Global, line: Line) -> Result<Expr, AllocError>
    ensures { IfOk result (λ body. form_of body ≡ expression_on line.start) }
{
    let mut items = Vec::with_capacity(alloc, 2)?;
    add_name(alloc, &mut items, "Sequence", line, 14, 22)?;
    add(&mut items, expression_rest(alloc, line)?)?;
    Ok(seq(items, line.span(14, 40)))
}

// (SLASH Sequence)*
fn expression_rest(alloc: Global, line: Line) -> Result<Expr, AllocError>
    ensures { IfOk result (λ part. form_of part ≡ expression_rest line.start) }
{
    let mut items = Vec::with_capacity(alloc, 2)?;
    add_name(alloc, &mut items, "SLASH", line, 24, 29)?;
    add_name(alloc, &mut items, "Sequence", line, 30, 38)?;
    star(alloc, seq(items, line.span(24, 38)), line.span(23, 40))
}

// Sequence <- Prefix*
pub(crate) fn sequence_on(alloc: Global, line: Line) -> Result<Expr, AllocError>
    ensures { IfOk result (λ body. form_of body ≡ sequence_on line.start) }
{
    star(
        alloc,
        name(alloc, "Prefix", line.span(12, 18))?,
        line.span(12, 19),
    )
}

// Prefix <- (AND / NOT)? Suffix
pub(crate) fn prefix_on(alloc: Global, line: Line) -> Result<Expr, AllocError>
    ensures { IfOk result (λ body. form_of body ≡ prefix_on line.start) }
{
    let mut items = Vec::with_capacity(alloc, 2)?;
    add(&mut items, prefix_sign(alloc, line)?)?;
    add_name(alloc, &mut items, "Suffix", line, 23, 29)?;
    Ok(seq(items, line.span(10, 29)))
}

// (AND / NOT)?
fn prefix_sign(alloc: Global, line: Line) -> Result<Expr, AllocError>
    ensures { IfOk result (λ part. form_of part ≡ prefix_sign line.start) }
{
    let mut rest = Vec::with_capacity(alloc, 1)?;
    add_name(alloc, &mut rest, "NOT", line, 17, 20)?;
    let first = name(alloc, "AND", line.span(11, 14))?;
    let sign = choice(alloc, first, rest, line.span(11, 20))?;
    optional(alloc, sign, line.span(10, 22))
}

// Suffix <- Primary (QUESTION / STAR / PLUS / COUNT)?
pub(crate) fn suffix_on(alloc: Global, line: Line) -> Result<Expr, AllocError>
    ensures { IfOk result (λ body. form_of body ≡ suffix_on line.start) }
{
    let mut items = Vec::with_capacity(alloc, 2)?;
    add_name(alloc, &mut items, "Primary", line, 10, 17)?;
    add(&mut items, suffix_sign(alloc, line)?)?;
    Ok(seq(items, line.span(10, 51)))
}

// (QUESTION / STAR / PLUS / COUNT)?
fn suffix_sign(alloc: Global, line: Line) -> Result<Expr, AllocError>
    ensures { IfOk result (λ part. form_of part ≡ suffix_sign line.start) }
{
    let mut rest = Vec::with_capacity(alloc, 3)?;
    add_name(alloc, &mut rest, "STAR", line, 30, 34)?;
    add_name(alloc, &mut rest, "PLUS", line, 37, 41)?;
    add_name(alloc, &mut rest, "COUNT", line, 44, 49)?;
    let first = name(alloc, "QUESTION", line.span(19, 27))?;
    let sign = choice(alloc, first, rest, line.span(19, 49))?;
    optional(alloc, sign, line.span(18, 51))
}

// Primary <- Identifier !LEFTARROW / OPEN Expression CLOSE / Literal / Class / DOT
pub(crate) fn primary_on(alloc: Global, line: Line) -> Result<Expr, AllocError>
    ensures { IfOk result (λ body. form_of body ≡ primary_on line.start) }
{
    let mut rest = Vec::with_capacity(alloc, 4)?;
    add(&mut rest, primary_parentheses(alloc, line)?)?;
    add_name(alloc, &mut rest, "Literal", line, 59, 66)?;
    add_name(alloc, &mut rest, "Class", line, 69, 74)?;
    add_name(alloc, &mut rest, "DOT", line, 77, 80)?;
    let first = primary_name(alloc, line)?;
    choice(alloc, first, rest, line.span(11, 80))
}

// Identifier !LEFTARROW
fn primary_name(alloc: Global, line: Line) -> Result<Expr, AllocError>
    ensures { IfOk result (λ part. form_of part ≡ primary_name line.start) }
{
    let no_arrow = not(
        alloc,
        name(alloc, "LEFTARROW", line.span(23, 32))?,
        line.span(22, 32),
    )?;
    let mut items = Vec::with_capacity(alloc, 2)?;
    add_name(alloc, &mut items, "Identifier", line, 11, 21)?;
    add(&mut items, no_arrow)?;
    Ok(seq(items, line.span(11, 32)))
}

// OPEN Expression CLOSE
fn primary_parentheses(alloc: Global, line: Line) -> Result<Expr, AllocError>
    ensures { IfOk result (λ part. form_of part ≡ primary_parentheses line.start) }
{
    let mut items = Vec::with_capacity(alloc, 3)?;
    add_name(alloc, &mut items, "OPEN", line, 35, 39)?;
    add_name(alloc, &mut items, "Expression", line, 40, 50)?;
    add_name(alloc, &mut items, "CLOSE", line, 51, 56)?;
    Ok(seq(items, line.span(35, 56)))
}

// Identifier <- IdentStart IdentCont* Spacing
pub(crate) fn identifier_on(alloc: Global, line: Line) -> Result<Expr, AllocError>
    ensures { IfOk result (λ body. form_of body ≡ identifier_on line.start) }
{
    let more = star(
        alloc,
        name(alloc, "IdentCont", line.span(25, 34))?,
        line.span(25, 35),
    )?;
    let mut items = Vec::with_capacity(alloc, 3)?;
    add_name(alloc, &mut items, "IdentStart", line, 14, 24)?;
    add(&mut items, more)?;
    add_name(alloc, &mut items, "Spacing", line, 36, 43)?;
    Ok(seq(items, line.span(14, 43)))
}

// IdentStart <- [a-zA-Z_]
pub(crate) fn ident_start_on(alloc: Global, line: Line) -> Result<Expr, AllocError>
    ensures { IfOk result (λ body. form_of body ≡ ident_start_on line.start) }
{
    Ok(class(
        &[range(b'a', b'z'), range(b'A', b'Z'), range(b'_', b'_')],
        line.span(14, 23),
    ))
}

// IdentCont <- IdentStart / [0-9]
pub(crate) fn ident_cont_on(alloc: Global, line: Line) -> Result<Expr, AllocError>
    ensures { IfOk result (λ body. form_of body ≡ ident_cont_on line.start) }
{
    let mut rest = Vec::with_capacity(alloc, 1)?;
    add(&mut rest, class(&[range(b'0', b'9')], line.span(26, 31)))?;
    let first = name(alloc, "IdentStart", line.span(13, 23))?;
    choice(alloc, first, rest, line.span(13, 31))
}

// Literal <- ['] (!['] Char)* ['] Spacing / ["] (!["] Char)* ["] Spacing
pub(crate) fn literal_on(alloc: Global, line: Line) -> Result<Expr, AllocError>
    ensures { IfOk result (λ body. form_of body ≡ literal_on line.start) }
{
    let mut rest = Vec::with_capacity(alloc, 1)?;
    add(&mut rest, literal_double(alloc, line)?)?;
    let first = literal_single(alloc, line)?;
    choice(alloc, first, rest, line.span(11, 70))
}

// ['] (!['] Char)* ['] Spacing
fn literal_single(alloc: Global, line: Line) -> Result<Expr, AllocError>
    ensures { IfOk result (λ part. form_of part ≡ literal_single line.start) }
{
    let mut items = Vec::with_capacity(alloc, 4)?;
    add(&mut items, class(&[range(b'\'', b'\'')], line.span(11, 14)))?;
    add(&mut items, single_chars(alloc, line)?)?;
    add(&mut items, class(&[range(b'\'', b'\'')], line.span(28, 31)))?;
    add_name(alloc, &mut items, "Spacing", line, 32, 39)?;
    Ok(seq(items, line.span(11, 39)))
}

// (!['] Char)*
fn single_chars(alloc: Global, line: Line) -> Result<Expr, AllocError>
    ensures { IfOk result (λ part. form_of part ≡ single_chars line.start) }
{
    let no_quote = not(
        alloc,
        class(&[range(b'\'', b'\'')], line.span(17, 20)),
        line.span(16, 20),
    )?;
    let mut items = Vec::with_capacity(alloc, 2)?;
    add(&mut items, no_quote)?;
    add_name(alloc, &mut items, "Char", line, 21, 25)?;
    star(alloc, seq(items, line.span(16, 25)), line.span(15, 27))
}

// ["] (!["] Char)* ["] Spacing
fn literal_double(alloc: Global, line: Line) -> Result<Expr, AllocError>
    ensures { IfOk result (λ part. form_of part ≡ literal_double line.start) }
{
    let mut items = Vec::with_capacity(alloc, 4)?;
    add(&mut items, class(&[range(b'"', b'"')], line.span(42, 45)))?;
    add(&mut items, double_chars(alloc, line)?)?;
    add(&mut items, class(&[range(b'"', b'"')], line.span(59, 62)))?;
    add_name(alloc, &mut items, "Spacing", line, 63, 70)?;
    Ok(seq(items, line.span(42, 70)))
}

// (!["] Char)*
fn double_chars(alloc: Global, line: Line) -> Result<Expr, AllocError>
    ensures { IfOk result (λ part. form_of part ≡ double_chars line.start) }
{
    let no_quote = not(
        alloc,
        class(&[range(b'"', b'"')], line.span(48, 51)),
        line.span(47, 51),
    )?;
    let mut items = Vec::with_capacity(alloc, 2)?;
    add(&mut items, no_quote)?;
    add_name(alloc, &mut items, "Char", line, 52, 56)?;
    star(alloc, seq(items, line.span(47, 56)), line.span(46, 58))
}

// Class <- '[' (!']' Range)* ']' Spacing
pub(crate) fn class_on(alloc: Global, line: Line) -> Result<Expr, AllocError>
    ensures { IfOk result (λ body. form_of body ≡ class_on line.start) }
{
    let mut items = Vec::with_capacity(alloc, 4)?;
    add_literal(alloc, &mut items, b"[", line, 9, 12)?;
    add(&mut items, class_ranges(alloc, line)?)?;
    add_literal(alloc, &mut items, b"]", line, 27, 30)?;
    add_name(alloc, &mut items, "Spacing", line, 31, 38)?;
    Ok(seq(items, line.span(9, 38)))
}

// (!']' Range)*
fn class_ranges(alloc: Global, line: Line) -> Result<Expr, AllocError>
    ensures { IfOk result (λ part. form_of part ≡ class_ranges line.start) }
{
    let no_end = not(
        alloc,
        literal(alloc, b"]", line.span(15, 18))?,
        line.span(14, 18),
    )?;
    let mut items = Vec::with_capacity(alloc, 2)?;
    add(&mut items, no_end)?;
    add_name(alloc, &mut items, "Range", line, 19, 24)?;
    star(alloc, seq(items, line.span(14, 24)), line.span(13, 26))
}

// Range <- Char '-' Char / Char
pub(crate) fn range_on(alloc: Global, line: Line) -> Result<Expr, AllocError>
    ensures { IfOk result (λ body. form_of body ≡ range_on line.start) }
{
    let mut rest = Vec::with_capacity(alloc, 1)?;
    add_name(alloc, &mut rest, "Char", line, 25, 29)?;
    let first = range_ends(alloc, line)?;
    choice(alloc, first, rest, line.span(9, 29))
}

// Char '-' Char
fn range_ends(alloc: Global, line: Line) -> Result<Expr, AllocError>
    ensures { IfOk result (λ part. form_of part ≡ range_ends line.start) }
{
    let mut items = Vec::with_capacity(alloc, 3)?;
    add_name(alloc, &mut items, "Char", line, 9, 13)?;
    add_literal(alloc, &mut items, b"-", line, 14, 17)?;
    add_name(alloc, &mut items, "Char", line, 18, 22)?;
    Ok(seq(items, line.span(9, 22)))
}

// Char <- '\\x' [0-9a-fA-F][0-9a-fA-F] / '\\' [nrt'"\[\]\\] / '\\' [0-2][0-7][0-7] / '\\' [0-7][0-7]? / !'\\' .
pub(crate) fn char_on(alloc: Global, line: Line) -> Result<Expr, AllocError>
    ensures { IfOk result (λ body. form_of body ≡ char_on line.start) }
{
    let mut rest = Vec::with_capacity(alloc, 4)?;
    add(&mut rest, char_sign(alloc, line)?)?;
    add(&mut rest, char_three_digits(alloc, line)?)?;
    add(&mut rest, char_two_digits(alloc, line)?)?;
    add(&mut rest, char_alone(alloc, line)?)?;
    let first = char_hexadecimal(alloc, line)?;
    choice(alloc, first, rest, line.span(8, 109))
}

// '\\x' [0-9a-fA-F][0-9a-fA-F]
fn char_hexadecimal(alloc: Global, line: Line) -> Result<Expr, AllocError>
    ensures { IfOk result (λ part. form_of part ≡ char_hexadecimal line.start) }
{
    let mut items = Vec::with_capacity(alloc, 3)?;
    add_literal(alloc, &mut items, b"\\x", line, 8, 13)?;
    add(&mut items, hexadecimal_class(line, 14, 25))?;
    add(&mut items, hexadecimal_class(line, 25, 36))?;
    Ok(seq(items, line.span(8, 36)))
}

// [0-9a-fA-F]
fn hexadecimal_class(line: Line, start: u8, end: u8) -> Expr
    requires { start ≤ end }
    ensures { form_of result ≡ hexadecimal_class line.start start end }
{
    class(
        &[range(b'0', b'9'), range(b'a', b'f'), range(b'A', b'F')],
        line.span(start, end),
    )
}

// '\\' [nrt'"\[\]\\]
fn char_sign(alloc: Global, line: Line) -> Result<Expr, AllocError>
    ensures { IfOk result (λ part. form_of part ≡ char_sign line.start) }
{
    let mut items = Vec::with_capacity(alloc, 2)?;
    add_literal(alloc, &mut items, b"\\", line, 39, 43)?;
    add(
        &mut items,
        class_from_set(escaped_bytes(), line.span(44, 57)),
    )?;
    Ok(seq(items, line.span(39, 57)))
}

// '\\' [0-2][0-7][0-7]
fn char_three_digits(alloc: Global, line: Line) -> Result<Expr, AllocError>
    ensures { IfOk result (λ part. form_of part ≡ char_three_digits line.start) }
{
    let mut items = Vec::with_capacity(alloc, 4)?;
    add_literal(alloc, &mut items, b"\\", line, 60, 64)?;
    add(&mut items, class(&[range(b'0', b'2')], line.span(65, 70)))?;
    add(&mut items, class(&[range(b'0', b'7')], line.span(70, 75)))?;
    add(&mut items, class(&[range(b'0', b'7')], line.span(75, 80)))?;
    Ok(seq(items, line.span(60, 80)))
}

// '\\' [0-7][0-7]?
fn char_two_digits(alloc: Global, line: Line) -> Result<Expr, AllocError>
    ensures { IfOk result (λ part. form_of part ≡ char_two_digits line.start) }
{
    let second = optional(
        alloc,
        class(&[range(b'0', b'7')], line.span(93, 98)),
        line.span(93, 99),
    )?;
    let mut items = Vec::with_capacity(alloc, 3)?;
    add_literal(alloc, &mut items, b"\\", line, 83, 87)?;
    add(&mut items, class(&[range(b'0', b'7')], line.span(88, 93)))?;
    add(&mut items, second)?;
    Ok(seq(items, line.span(83, 99)))
}

// !'\\' .
fn char_alone(alloc: Global, line: Line) -> Result<Expr, AllocError>
    ensures { IfOk result (λ part. form_of part ≡ char_alone line.start) }
{
    let no_escape = not(
        alloc,
        literal(alloc, b"\\", line.span(103, 107))?,
        line.span(102, 107),
    )?;
    let mut items = Vec::with_capacity(alloc, 2)?;
    add(&mut items, no_escape)?;
    add(&mut items, any(line.span(108, 109)))?;
    Ok(seq(items, line.span(102, 109)))
}

// COUNT <- '{' Number (',' Number)? '}' Spacing
pub(crate) fn count_on(alloc: Global, line: Line) -> Result<Expr, AllocError>
    ensures { IfOk result (λ body. form_of body ≡ count_on line.start) }
{
    let mut items = Vec::with_capacity(alloc, 5)?;
    add_literal(alloc, &mut items, b"{", line, 9, 12)?;
    add_name(alloc, &mut items, "Number", line, 13, 19)?;
    add(&mut items, count_maximum(alloc, line)?)?;
    add_literal(alloc, &mut items, b"}", line, 34, 37)?;
    add_name(alloc, &mut items, "Spacing", line, 38, 45)?;
    Ok(seq(items, line.span(9, 45)))
}

// (',' Number)?
fn count_maximum(alloc: Global, line: Line) -> Result<Expr, AllocError>
    ensures { IfOk result (λ part. form_of part ≡ count_maximum line.start) }
{
    let mut items = Vec::with_capacity(alloc, 2)?;
    add_literal(alloc, &mut items, b",", line, 21, 24)?;
    add_name(alloc, &mut items, "Number", line, 25, 31)?;
    optional(alloc, seq(items, line.span(21, 31)), line.span(20, 33))
}

// Number <- [0-9]+
pub(crate) fn number_on(alloc: Global, line: Line) -> Result<Expr, AllocError>
    ensures { IfOk result (λ body. form_of body ≡ number_on line.start) }
{
    plus(
        alloc,
        class(&[range(b'0', b'9')], line.span(10, 15)),
        line.span(10, 16),
    )
}

// Spacing <- (Space / Comment)*
pub(crate) fn spacing_on(alloc: Global, line: Line) -> Result<Expr, AllocError>
    ensures { IfOk result (λ body. form_of body ≡ spacing_on line.start) }
{
    let mut rest = Vec::with_capacity(alloc, 1)?;
    add_name(alloc, &mut rest, "Comment", line, 20, 27)?;
    let first = name(alloc, "Space", line.span(12, 17))?;
    let blank = choice(alloc, first, rest, line.span(12, 27))?;
    star(alloc, blank, line.span(11, 29))
}

// Comment <- '#' (!EndOfLine .)* EndOfLine
pub(crate) fn comment_on(alloc: Global, line: Line) -> Result<Expr, AllocError>
    ensures { IfOk result (λ body. form_of body ≡ comment_on line.start) }
{
    let mut items = Vec::with_capacity(alloc, 3)?;
    add_literal(alloc, &mut items, b"#", line, 11, 14)?;
    add(&mut items, comment_bytes(alloc, line)?)?;
    add_name(alloc, &mut items, "EndOfLine", line, 31, 40)?;
    Ok(seq(items, line.span(11, 40)))
}

// (!EndOfLine .)*
fn comment_bytes(alloc: Global, line: Line) -> Result<Expr, AllocError>
    ensures { IfOk result (λ part. form_of part ≡ comment_bytes line.start) }
{
    let no_end = not(
        alloc,
        name(alloc, "EndOfLine", line.span(17, 26))?,
        line.span(16, 26),
    )?;
    let mut items = Vec::with_capacity(alloc, 2)?;
    add(&mut items, no_end)?;
    add(&mut items, any(line.span(27, 28)))?;
    star(alloc, seq(items, line.span(16, 28)), line.span(15, 30))
}

// Space <- ' ' / '\t' / EndOfLine
pub(crate) fn space_on(alloc: Global, line: Line) -> Result<Expr, AllocError>
    ensures { IfOk result (λ body. form_of body ≡ space_on line.start) }
{
    let mut rest = Vec::with_capacity(alloc, 2)?;
    add_literal(alloc, &mut rest, b"\t", line, 15, 19)?;
    add_name(alloc, &mut rest, "EndOfLine", line, 22, 31)?;
    let first = literal(alloc, b" ", line.span(9, 12))?;
    choice(alloc, first, rest, line.span(9, 31))
}

// EndOfLine <- '\r\n' / '\n' / '\r'
pub(crate) fn end_of_line_on(alloc: Global, line: Line) -> Result<Expr, AllocError>
    ensures { IfOk result (λ body. form_of body ≡ end_of_line_on line.start) }
{
    let mut rest = Vec::with_capacity(alloc, 2)?;
    add_literal(alloc, &mut rest, b"\n", line, 22, 26)?;
    add_literal(alloc, &mut rest, b"\r", line, 29, 33)?;
    let first = literal(alloc, b"\r\n", line.span(13, 19))?;
    choice(alloc, first, rest, line.span(13, 33))
}

// EndOfFile <- !.
pub(crate) fn end_of_file_on(alloc: Global, line: Line) -> Result<Expr, AllocError>
    ensures { IfOk result (λ body. form_of body ≡ end_of_file_on line.start) }
{
    not(alloc, any(line.span(14, 15)), line.span(13, 15))
}
