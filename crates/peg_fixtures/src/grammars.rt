//! Grammar files that several test crates use.

/// Sums and products of whole numbers.
pub const ARITHMETIC: &[u8] = b"\
    # Sums and products of whole numbers, with parentheses.\n\
    Calculation  <- Spacing Sum !.\n\
    Sum          <- Product (AddSign Product)*\n\
    Product      <- Value (MultiplySign Value)*\n\
    Value        <- Number / '(' Spacing Sum ')' Spacing\n\
    Number       <- [0-9]+ Spacing\n\
    AddSign      <- [-+] Spacing    # a dash comes first in a class, or follows a range\n\
    MultiplySign <- [*/] Spacing\n\
    Spacing      <- ' '*\n";

/// Comma-separated values, after RFC 4180.
pub const CSV: &[u8] = b"\
    # Comma-separated values, after RFC 4180: a field in double quotes may hold commas, line ends and, doubled, quotes.\n\
    File    <- Record (LineEnd Record)* !.\n\
    Record  <- Field (',' Field)*\n\
    Field   <- '\"' Quoted* '\"' / Plain*\n\
    Quoted  <- '\"\"' / !'\"' .\n\
    Plain   <- ![,\"\\r\\n] .\n\
    LineEnd <- '\\r\\n' / '\\n'\n";

/// Settings in sections.
pub const INI: &[u8] = b"\
    # Settings in sections: names in brackets, keys and values, comments that begin with ; or #.\n\
    File        <- Line (LineEnd Line)* !.\n\
    Line        <- Space* (Section / Comment / Property)?\n\
    Section     <- '[' SectionName ']' Space*\n\
    SectionName <- (![\\]\\r\\n] .)+\n\
    Comment     <- [;#] (!LineEnd .)*\n\
    Property    <- Key Space* '=' Space* Value\n\
    Key         <- [a-zA-Z_] [-a-zA-Z0-9_.]*\n\
    Value       <- (!LineEnd .)*\n\
    LineEnd     <- '\\r\\n' / '\\n' / '\\r'\n\
    Space       <- [ \\t]\n";

/// JSON texts, after RFC 8259.
pub const JSON: &[u8] = b"\
    # JSON texts, after RFC 8259. Bytes above 127 stand in strings as they are.\n\
    JSON    <- Spacing Value !.\n\
    Value   <- (Object / Array / String / Number / 'true' / 'false' / 'null') Spacing\n\
    Object  <- '{' Spacing (Member (',' Spacing Member)*)? '}'\n\
    Member  <- String Spacing ':' Spacing Value\n\
    Array   <- '[' Spacing (Value (',' Spacing Value)*)? ']'\n\
    String  <- '\"' Char* '\"'\n\
    Char    <- '\\\\' ([\"\\\\/bfnrt] / 'u' Hex Hex Hex Hex) / ![\\0-\\37\"\\\\] .\n\
    Number  <- '-'? ('0' / [1-9] [0-9]*) ('.' [0-9]+)? ([eE] [-+]? [0-9]+)?\n\
    Hex     <- [0-9a-fA-F]\n\
    Spacing <- [ \\t\\r\\n]*\n";

/// The metagrammar (Ford 2004, figure 1, with hexadecimal escapes in rule Char and counts in rule Suffix).
pub const NOTATION: &[u8] = b"\
    Grammar <- Spacing Definition+ EndOfFile\n\
    Definition <- Identifier LEFTARROW Expression\n\
    Expression <- Sequence (SLASH Sequence)*\n\
    Sequence <- Prefix*\n\
    Prefix <- (AND / NOT)? Suffix\n\
    Suffix <- Primary (QUESTION / STAR / PLUS / COUNT)?\n\
    Primary <- Identifier !LEFTARROW / OPEN Expression CLOSE / Literal / Class / DOT\n\
    Identifier <- IdentStart IdentCont* Spacing\n\
    IdentStart <- [a-zA-Z_]\n\
    IdentCont <- IdentStart / [0-9]\n\
    Literal <- ['] (!['] Char)* ['] Spacing / [\"] (![\"] Char)* [\"] Spacing\n\
    Class <- '[' (!']' Range)* ']' Spacing\n\
    Range <- Char '-' Char / Char\n\
    Char <- '\\\\x' [0-9a-fA-F][0-9a-fA-F] / '\\\\' [nrt'\"\\[\\]\\\\] / '\\\\' [0-2][0-7][0-7] \
    / '\\\\' [0-7][0-7]? / !'\\\\' .\n\
    LEFTARROW <- '<-' Spacing\n\
    SLASH <- '/' Spacing\n\
    AND <- '&' Spacing\n\
    NOT <- '!' Spacing\n\
    QUESTION <- '?' Spacing\n\
    STAR <- '*' Spacing\n\
    PLUS <- '+' Spacing\n\
    COUNT <- '{' Number (',' Number)? '}' Spacing\n\
    Number <- [0-9]+\n\
    OPEN <- '(' Spacing\n\
    CLOSE <- ')' Spacing\n\
    DOT <- '.' Spacing\n\
    Spacing <- (Space / Comment)*\n\
    Comment <- '#' (!EndOfLine .)* EndOfLine\n\
    Space <- ' ' / '\\t' / EndOfLine\n\
    EndOfLine <- '\\r\\n' / '\\n' / '\\r'\n\
    EndOfFile <- !.\n";

/// Uniform resource identifiers, after RFC 3986.
pub const URI: &[u8] = b"\
    # Uniform resource identifiers, after RFC 3986; what is put in brackets as a host is not looked at closely.\n\
    URI        <- Scheme ':' Hierarchy ('?' Query)? ('#' Fragment)? !.\n\
    Scheme     <- [a-zA-Z] [-+a-zA-Z0-9.]*\n\
    Hierarchy  <- '//' Authority ('/' Segment)*\n\
    \x20           / '/' (Character Segment ('/' Segment)*)?\n\
    \x20           / Character Segment ('/' Segment)*\n\
    \x20           / ''\n\
    Authority  <- (UserInfo '@')? Host (':' Port)?\n\
    UserInfo   <- (Unreserved / Escape / Delimiter / ':')*\n\
    Host       <- '[' [0-9a-fA-F:.]+ ']' / (Unreserved / Escape / Delimiter)*\n\
    Port       <- [0-9]*\n\
    Segment    <- Character*\n\
    Query      <- (Character / [/?])*\n\
    Fragment   <- (Character / [/?])*\n\
    Character  <- Unreserved / Escape / Delimiter / [:@]\n\
    Unreserved <- [-a-zA-Z0-9._~]\n\
    Escape     <- '%' Hex Hex\n\
    Hex        <- [0-9a-fA-F]\n\
    Delimiter  <- [!$&'()*+,;=]\n";

/// One rule that calls itself on the right.
pub const RIGHT: &[u8] = b"S <- 'a' S / 'b'";

/// Two alternatives with the same prefix. Without a memo each level of parentheses doubles the steps.
pub const TWICE: &[u8] = b"A <- '(' A ')' 'x' / '(' A ')' 'y' / 'a'";

/// The language a^n b^n c^n, which isn't context-free (Ford 2004, section 3.4).
pub const COUNTS: &[u8] = b"\
    D <- &(A !'b') 'a'* B !.\n\
    A <- 'a' A 'b' / ''\n\
    B <- 'b' B 'c' / ''\n";
