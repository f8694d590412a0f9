//! The JSON text of a tree's node list, produced in pieces.
ghost use Rattle.std.specs.Prelude.{◌≡◌, ℕ, ◌≤◌, ◌==◌, ◌||◌, ◌∷◌, ◌++◌, [], IfOk, drop, false, length, map, reverse, take, vec_len};
ghost use Rattle.std.specs.Coded.{le_prop};
ghost use Rattle.std.specs.Vec.{vec_capacity};
ghost use Rattle.serde_json.specs.View.{items_of};
ghost use Rattle.serde_json.specs.Written.{items_text};
ghost use Rattle.peg_tree.specs.Json.{rows_data};
ghost use Rattle.peg_tree.specs.Nodes.{RulesBelow};
ghost use Rattle.peg_tree.specs.RowText.{EachAtMost, EachAtMost-prop, HasRoom, HasRoom-prop, levels_from, printed_levels, printed_rows, shown_rules, text_from};
ghost use Rattle.peg_tree.specs.Rows.{IsOneTree, row_of, rows_of};
ghost use Rattle.peg_tree.specs.Selected.{has_rule, selected};
ghost use Rattle.peg_tree.specs.Sending.{RulesBelow-prop};
ghost use Rattle.peg_tree.specs.TreesOfRows.{trees_of};

use crate::levels::close_ended;
use crate::name_json::json_names;
use crate::row_text::{MAX_ROW_TEXT, write_comma, write_row};
use crate::shows::{AllRules, Shows};
use crate::{Names, RuleSet, Tree, TreeNode};
use std::alloc::{AllocError, Global};

// The minimum size of a piece in bytes, except for the last piece and for pieces of shorter texts.
const PIECE: usize = 65_536;

/// The JSON text of a tree's node list without the enclosing brackets, produced in pieces. All memory is allocated by
/// `new` or `of_shown`.
#[derive(Debug, Drop)]
pub struct FlatTreeWriter {
    tree: Tree,
    names: Vec<Vec<u8>>,
    // The rules whose nodes are written beside the root. If there is no set, all nodes are.
    shown: Option<RuleSet>,
    at: usize,
    ends: Vec<usize>,
    // The minimum size of a piece in bytes, except for the last one.
    piece: usize,
    buffer: Vec<u8>,
    filled: usize,
    ghost below: { RulesBelow (length names.items) tree } by { RulesBelow-prop (length names.items) tree },
    ghost room: { HasRoom piece (vec_len buffer) names.items } by { HasRoom-prop piece (vec_len buffer) names.items },
    ghost levels: { EachAtMost (vec_capacity ends) (printed_levels (printed_rows (shown_rules shown)
        (reverse ends.items) at (drop at (rows_of tree)))) } by { EachAtMost-prop (vec_capacity ends)
            (printed_levels (printed_rows (shown_rules shown) (reverse ends.items) at (drop at (rows_of tree)))) },
    ghost within: { filled ≤ vec_len buffer },
}

impl FlatTreeWriter {
    ghost use Rattle.peg_tree.specs.FlatTreeLeft.{piece_of, text_left};

    /// Returns the text of `tree`, with the names of its rules, before the first piece. Returns an error if an
    /// allocation fails, or if the required buffer would be too long.
    pub fn new<N: Names>(alloc: Global, tree: Tree, names: &N) -> Result<FlatTreeWriter, AllocError>
        requires { RulesBelow (length (N.names names.now)) tree }
        ensures { IfOk result (λ text. text_left text ++ 93 ∷ []
            ≡ items_text false (items_of (rows_data (N.names names.now) 1 tree))) }
    {
        FlatTreeWriter::start(alloc, tree, names, None)
    }

    /// Returns the text of the tree that `Tree::select` returns for `tree` and `shown`, before the first piece. That
    /// tree isn't built: a node that is not shown is skipped when it is reached. Returns an error if an allocation
    /// fails, or if the required buffer would be too long.
    ///
    /// # Example
    ///
    /// ```
    /// let mut shown = RuleSet::none(alloc, grammar.rules())?;
    /// shown.insert(2);
    /// let mut text = FlatTreeWriter::of_shown(alloc, tree, grammar, shown)?;
    /// ```
    pub fn of_shown<N: Names>(
        alloc: Global,
        tree: Tree,
        names: &N,
        shown: RuleSet,
    ) -> Result<FlatTreeWriter, AllocError>
        requires { RulesBelow (length (N.names names.now)) tree }
        ensures { IfOk result (λ text. text_left text ++ 93 ∷ []
            ≡ items_text false (items_of (rows_data (N.names names.now) 1 (selected (has_rule shown) tree)))) }
    {
        FlatTreeWriter::start(alloc, tree, names, Some(shown))
    }

    // Returns the text of the nodes of these rules and of the root, before the first piece.
    fn start<N: Names>(
        alloc: Global,
        tree: Tree,
        names: &N,
        shown: Option<RuleSet>,
    ) -> Result<FlatTreeWriter, AllocError>
        requires { RulesBelow (length (N.names names.now)) tree }
        ensures { IfOk result (λ text. text_left text ++ 93 ∷ []
            ≡ items_text false (items_of (rows_data (N.names names.now) 1 (selected (shown_rules shown) tree)))) }
    {
        let names = json_names(alloc, names)?;
        let longest = longest_of(&names);
        if longest > usize::MAX - PIECE - MAX_ROW_TEXT {
            return Err(AllocError);
        }
        let piece = piece_for(tree.rows().len(), MAX_ROW_TEXT + longest);
        let buffer = zeros(alloc, piece + MAX_ROW_TEXT + longest)?;
        let ends = Vec::with_capacity(alloc, tree.depth())?;
        Ok(FlatTreeWriter {
            tree,
            names,
            shown,
            at: 0,
            ends,
            piece,
            buffer,
            filled: 0,
        })
    }

    /// Advances to the next piece. An empty piece means that the text is complete.
    pub fn fill(&mut self)
        ensures text { text_left self.old ≡ piece_of self.new ++ text_left self.new }
        ensures some { piece_of self.new ≡ [] → text_left self.old ≡ [] }
    {
        let filled = fill_shown(
            self.tree.rows(),
            &self.names,
            &self.shown,
            self.at,
            &mut self.ends,
            self.piece,
            &mut self.buffer,
        );
        self.at = filled.at;
        self.filled = filled.end;
    }

    /// Returns the current piece.
    pub fn piece(&self) -> &[u8]
        ensures { result.now ≡ piece_of self.now }
    {
        &self.buffer[..self.filled]
    }
}

// Where a piece ends: the number of the next node, and the length of the piece in bytes.
#[derive(Clone, Copy)]
struct Filled {
    at: usize,
    end: usize,
}

// Does what `fill_piece` does for a set of rules, or for all if there is none. The choice is made once for a piece.
fn fill_shown(
    rows: &[TreeNode],
    names: &[Vec<u8>],
    shown: &Option<RuleSet>,
    from: usize,
    ends: &mut Vec<usize>,
    piece: usize,
    buffer: &mut [u8],
) -> Filled
    requires tree { IsOneTree (map row_of rows.now) }
    requires below { RulesBelow (length names.now) (trees_of (map row_of rows.now)) }
    requires room { HasRoom piece (length buffer.old) names.now }
    requires levels { EachAtMost (vec_capacity ends.old)
        (levels_from (shown_rules shown.now) rows.now from ends.old.items) }
    ensures text { text_from (shown_rules shown.now) names.now rows.now from ends.old.items
        ≡ take result.end buffer.new
        ++ text_from (shown_rules shown.now) names.now rows.now result.at ends.new.items }
    ensures some { result.end ≡ 0
        → text_from (shown_rules shown.now) names.now rows.now from ends.old.items ≡ [] }
    ensures levels { EachAtMost (vec_capacity ends.new)
        (levels_from (shown_rules shown.now) rows.now result.at ends.new.items) }
    ensures same { length buffer.new ≡ length buffer.old }
    ensures within { result.end ≤ length buffer.new }
{
    match shown {
        None => fill_piece(rows, names, &AllRules, from, ends, piece, buffer),
        Some(set) => fill_piece(rows, names, set, from, ends, piece, buffer),
    }
}

// Writes the shown nodes from number `from` on into the buffer, until it holds at least `piece` bytes or no node is
// left. The root is always shown.
fn fill_piece<S: Shows>(
    rows: &[TreeNode],
    names: &[Vec<u8>],
    shown: &S,
    from: usize,
    ends: &mut Vec<usize>,
    piece: usize,
    buffer: &mut [u8],
) -> Filled
    requires tree { IsOneTree (map row_of rows.now) }
    requires below { RulesBelow (length names.now) (trees_of (map row_of rows.now)) }
    requires room { HasRoom piece (length buffer.old) names.now }
    requires levels { EachAtMost (vec_capacity ends.old)
        (levels_from (S.shown shown.now) rows.now from ends.old.items) }
    ensures text { text_from (S.shown shown.now) names.now rows.now from ends.old.items
        ≡ take result.end buffer.new ++ text_from (S.shown shown.now) names.now rows.now result.at ends.new.items }
    ensures some { result.end ≡ 0 → text_from (S.shown shown.now) names.now rows.now from ends.old.items ≡ [] }
    ensures levels { EachAtMost (vec_capacity ends.new)
        (levels_from (S.shown shown.now) rows.now result.at ends.new.items) }
    ensures same { length buffer.new ≡ length buffer.old }
    ensures within { result.end ≤ length buffer.new }
{
    let mut at = from;
    let mut end = 0;
    while at < rows.len() && end < piece {
        let row = rows[at];
        if is_written(at, row, shown) {
            close_ended(ends, at);
            end = write_comma(at > 0, buffer, end);
            end = write_row(1 + ends.len(), &names[row.rule as usize], row, buffer, end);
            ends.push_reserved(at + row.size as usize);
        }
        at += 1;
    }
    Filled { at, end }
}

// Whether the node with number `at` is the root or shown.
#[inline(always)]
fn is_written<S: Shows>(at: usize, row: TreeNode, shown: &S) -> bool
    ensures { result ≡ ((at == 0) || S.shown shown.now row.rule) }
{
    at == 0 || shown.shows(row.rule)
}

// The minimum size of a piece for so many nodes, each of whose texts has at most `row` bytes: the size of the whole text
// if that is less than `PIECE`. So the buffer for a small tree is small.
fn piece_for(rows: usize, row: usize) -> usize
    ensures some { 1 ≤ result }
    ensures limit { result ≤ 65536 }
{
    rows.saturating_mul(row).min(PIECE).max(1)
}

fn longest_of(names: &[Vec<u8>]) -> usize
    ensures { EachAtMost result (map (λ name. vec_len name) names.now) }
{
    let mut longest = 0;
    for at in 0..names.len() {
        longest = longest.max(names[at].len());
    }
    longest
}

// Allocates `count` zero bytes.
fn zeros(alloc: Global, count: usize) -> Result<Vec<u8>, AllocError>
    ensures { IfOk result (λ bytes. vec_len bytes ≡ count) }
{
    vec![in alloc; 0u8; count]
}
