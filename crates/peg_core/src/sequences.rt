//! Sequences and choices of several core forms. They nest to the right, so the last pair is added first.
ghost use Rattle.std.specs.Prelude.{◌≡◌, ℕ, ◌+◌, ◌*◌, ◌<◌, ◌≤◌, All, [], ◌∷◌, ◌++◌, length, map, IfOk};
ghost use Rattle.peg_bytes.specs.Extent.{extent};
ghost use Rattle.peg_core.specs.CoreForm.{all_in_order, one_of, tests_of};
ghost use Rattle.peg_core.specs.CoreParts.{sequences_of, choices_of};
ghost use Rattle.peg_core.specs.Appending.{Appends, AppendsAll};
ghost use Rattle.peg_core.specs.Layout.{form_at, max_forms};
ghost use Rattle.peg_semantics.specs.Grammar.{max_parts};

use crate::Node;
use crate::builder::CoreBuilder;
use peg_bytes::{ByteSet, Span};
use std::alloc::{AllocError, Global};

/// Adds the sequence of these forms, which is the empty form if there are none, and returns its number.
#[inline(never)]
pub(crate) fn add_sequence(builder: &mut CoreBuilder, numbers: &[u32]) -> Result<u32, AllocError>
    requires room { length builder.old.forms + length numbers.now + 1 ≤ max_forms }
    requires within { All (λ number. number < length builder.old.forms) numbers.now }
    ensures { IfOk result (λ number. Appends builder.old (sequences_of (map (form_at builder.old.forms) numbers.now)) []
        (all_in_order (map (form_at builder.old.forms) numbers.now)) number builder.new) }
{
    let mut at = numbers.len();
    if at == 0 {
        return builder.push(Node::Empty, Span::new(0, 0));
    }
    at -= 1;
    let mut rest = numbers[at];
    while at > 0 {
        at -= 1;
        rest = builder.push(Node::Seq(numbers[at], rest), Span::new(0, 0))?;
    }
    Ok(rest)
}

/// Adds the prioritized choice of a first form and others, and returns its number.
#[inline(never)]
pub(crate) fn add_choices(
    builder: &mut CoreBuilder,
    first: u32,
    others: &[u32],
) -> Result<u32, AllocError>
    requires room { length builder.old.forms + length others.now ≤ max_forms }
    requires first { first < length builder.old.forms }
    requires within { All (λ number. number < length builder.old.forms) others.now }
    ensures { IfOk result (λ number. Appends builder.old
        (choices_of (form_at builder.old.forms first) (map (form_at builder.old.forms) others.now)) []
        (one_of (form_at builder.old.forms first) (map (form_at builder.old.forms) others.now)) number builder.new) }
{
    let mut at = others.len();
    if at == 0 {
        return Ok(first);
    }
    at -= 1;
    let mut rest = others[at];
    while at > 0 {
        at -= 1;
        rest = builder.push(Node::Choice(others[at], rest), Span::new(0, 0))?;
    }
    builder.push(Node::Choice(first, rest), Span::new(0, 0))
}

/// Adds a literal, the sequence of its bytes' tests, and returns its number. All its tests are of one terminal.
#[inline(never)]
pub(crate) fn add_literal(
    alloc: Global,
    builder: &mut CoreBuilder,
    bytes: &[u8],
    span: Span,
) -> Result<u32, AllocError>
    requires room { length builder.old.forms + 2 * length bytes.now + 1 ≤ max_forms }
    requires few { length builder.old.spans + 1 ≤ max_parts }
    ensures { IfOk result (λ number. Appends builder.old
        (tests_of (length builder.old.spans) bytes.now ++ sequences_of (tests_of (length builder.old.spans) bytes.now))
        (extent span ∷ []) (all_in_order (tests_of (length builder.old.spans) bytes.now)) number builder.new) }
{
    let terminal = builder.terminal(span)?;
    let tests = add_tests(alloc, builder, bytes, terminal)?;
    add_sequence(builder, &tests)
}

// Adds the tests of a literal's bytes.
fn add_tests(
    alloc: Global,
    builder: &mut CoreBuilder,
    bytes: &[u8],
    terminal: u32,
) -> Result<Vec<u32>, AllocError>
    requires room { length builder.old.forms + length bytes.now ≤ max_forms }
    requires terminal { terminal < length builder.old.spans }
    ensures { IfOk result (λ numbers. AppendsAll builder.old (tests_of terminal bytes.now) []
        (tests_of terminal bytes.now) numbers.items builder.new) }
{
    let mut numbers = Vec::new(alloc);
    for byte in bytes {
        let set = ByteSet::single(*byte);
        let number = builder.push(Node::Test { set, terminal }, Span::new(0, 0))?;
        numbers.push(number)?;
    }
    Ok(numbers)
}
