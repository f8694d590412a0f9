//! The limit of nested parentheses.

/// The maximum number of parentheses that may be open at once.
pub const MAX_OPEN: usize = 200;
