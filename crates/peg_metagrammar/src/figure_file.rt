//! The text of the metagrammar.
ghost use Rattle.std.specs.Prelude.{◌≡◌};
ghost use Rattle.peg_metagrammar.specs.FigureText.{text_of_figure};

// The 31 lines of the metagrammar.
const FIGURE_TEXT: &[u8] = br#"Grammar <- Spacing Definition+ EndOfFile
Definition <- Identifier LEFTARROW Expression
Expression <- Sequence (SLASH Sequence)*
Sequence <- Prefix*
Prefix <- (AND / NOT)? Suffix
Suffix <- Primary (QUESTION / STAR / PLUS / COUNT)?
Primary <- Identifier !LEFTARROW / OPEN Expression CLOSE / Literal / Class / DOT
Identifier <- IdentStart IdentCont* Spacing
IdentStart <- [a-zA-Z_]
IdentCont <- IdentStart / [0-9]
Literal <- ['] (!['] Char)* ['] Spacing / ["] (!["] Char)* ["] Spacing
Class <- '[' (!']' Range)* ']' Spacing
Range <- Char '-' Char / Char
Char <- '\\x' [0-9a-fA-F][0-9a-fA-F] / '\\' [nrt'"\[\]\\] / '\\' [0-2][0-7][0-7] / '\\' [0-7][0-7]? / !'\\' .
LEFTARROW <- '<-' Spacing
SLASH <- '/' Spacing
AND <- '&' Spacing
NOT <- '!' Spacing
QUESTION <- '?' Spacing
STAR <- '*' Spacing
PLUS <- '+' Spacing
COUNT <- '{' Number (',' Number)? '}' Spacing
Number <- [0-9]+
OPEN <- '(' Spacing
CLOSE <- ')' Spacing
DOT <- '.' Spacing
Spacing <- (Space / Comment)*
Comment <- '#' (!EndOfLine .)* EndOfLine
Space <- ' ' / '\t' / EndOfLine
EndOfLine <- '\r\n' / '\n' / '\r'
EndOfFile <- !.
"#;

/// Returns the text of the metagrammar: Ford's figure 1 (Ford 2004, section 2.1), with counts in rule Suffix and
/// hexadecimal escapes in rule Char. The text is a grammar file of 31 rules that defines the notation.
pub fn figure_text() -> &'static [u8]
    ensures { result.now ≡ text_of_figure }
{
    FIGURE_TEXT
}
