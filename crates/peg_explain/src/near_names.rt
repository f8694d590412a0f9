//! The rule that may be meant by a name that no rule has.
ghost use Rattle.std.specs.Prelude.{◌≡◌, ◌≤◌, drop, length, option_map};
ghost use Rattle.peg_grammar.specs.Written.{rules_of};
ghost use Rattle.peg_semantics.specs.Rules.{names};
ghost use Rattle.peg_explain.specs.NearNames.{differ_at_start, exchanged_at_start, is_near, may_be_meant, meant_by, near_at_start};

use peg_grammar::Definition;

// The least length of a name for which a rule is looked for that differs in one place.
const MIN_LEN: usize = 3;

/// Returns the name of the first definition that may be meant by a name that none of them has. Takes time linear in the
/// names.
pub(crate) fn meant_by<'a>(definitions: &'a [Definition], name: &str) -> Option<&'a str>
    ensures { option_map (λ rule. rule.now) result ≡ meant_by (names (rules_of definitions.now)) name.now }
{
    'definitions: for definition in definitions {
        if may_be_meant(name, &definition.name) {
            return Some(&definition.name);
        }
    }
    None
}

// Whether a rule may be meant by a name.
fn may_be_meant(name: &str, rule: &str) -> bool
    ensures { result ≡ may_be_meant name.now rule.now }
{
    name.eq_ignore_ascii_case(rule)
        || (name.len() >= MIN_LEN && is_near(name.as_bytes(), rule.as_bytes()))
}

// Whether two texts are the same but for one place.
fn is_near(one: &[u8], other: &[u8]) -> bool
    ensures { result ≡ is_near one.now other.now }
{
    let len = common_len(one, other);
    let (one, other) = (&one[len..], &other[len..]);
    differ_at_start(one, other) || exchanged_at_start(one, other)
}

// The length of what two texts begin with.
fn common_len(one: &[u8], other: &[u8]) -> usize
    ensures in_one { result ≤ length one.now }
    ensures in_other { result ≤ length other.now }
    ensures near { is_near one.now other.now ≡ near_at_start (drop result one.now) (drop result other.now) }
{
    let len = one.len().min(other.len());
    let mut at = 0;
    'bytes: while at < len && one[at] == other[at] {
        at += 1;
    }
    at
}

// Whether two texts are the same but for a byte at their start.
fn differ_at_start(one: &[u8], other: &[u8]) -> bool
    ensures { result ≡ differ_at_start one.now other.now }
{
    let (rest, other_rest) = (after_first(one), after_first(other));
    rest == other_rest || one == other_rest || rest == other
}

// The bytes after the first one.
fn after_first(text: &[u8]) -> &[u8]
    ensures { result.now ≡ drop 1 text.now }
{
    match text {
        [] => text,
        [_, rest @ ..] => rest,
    }
}

// Whether two texts are the same but for their first two bytes, which are exchanged.
fn exchanged_at_start(one: &[u8], other: &[u8]) -> bool
    ensures { result ≡ exchanged_at_start one.now other.now }
{
    match (one, other) {
        ([a, b, one @ ..], [c, d, other @ ..]) => a == d && b == c && one == other,
        _ => false,
    }
}
