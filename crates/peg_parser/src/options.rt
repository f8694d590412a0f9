//! Options of a parse.

/// The default capacity of the memo.
pub const DEFAULT_MEMO: u32 = 4096;

/// The options of a parse: start rule, memo capacity and step limit.
#[derive(Clone, Copy, Debug, PartialEq, Eq)]
pub struct ParseOptions<'a> {
    /// The name of the start rule; `None` for the grammar's first rule.
    pub start: Option<&'a str>,
    /// The capacity of the memo, in entries; 0 for no memo. It changes no result.
    pub memo: u32,
    /// The most steps that a run may take, one for each instruction executed; `None` for no limit. With a memo a parse may
    /// run twice, first without it, so that both runs together may take twice this number.
    pub steps: Option<u64>,
}
