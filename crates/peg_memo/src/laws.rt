//! Laws of memo entries. Each function does nothing; its contract is the law.
ghost use Rattle.std.specs.Prelude.{◌≡◌, ◌≢◌, ◌<◌, ◌*◌, ◌⊎◌, ℕ, None, Some};
ghost use Rattle.std.specs.FinMap as map;
ghost use Rattle.peg_memo.specs.MemoMap.{MemoMap};
ghost use Rattle.peg_memo.specs.StoredResult.{StoredResult};
ghost use Rattle.peg_memo.specs.MemoKey.{MemoKey};

/// A stored result is found. The entries of all other calls stay as they were, and no entry appears besides.
pub fn a_stored_result_is_found()
    ensures there { (stored : MemoMap) (asked : MemoKey) (kept : StoredResult)
        → map.get (map.insert stored asked kept) asked ≡ Some kept }
    ensures elsewhere { (stored : MemoMap) (asked other : MemoKey) (kept : StoredResult) → other ≢ asked
        → map.get (map.insert stored asked kept) other ≡ map.get stored other }
    ensures nothing_else { (stored : MemoMap) (asked other : MemoKey) (kept found : StoredResult)
        → map.get (map.insert stored asked kept) other ≡ Some found
        → ((other ≡ asked) × (found ≡ kept)) ⊎ (map.get stored other ≡ Some found) }
{}

/// If a call of one of the rules at one of the positions has no entry, there are fewer entries than such calls.
pub fn entries_are_no_more_than_pairs()
    ensures { (stored : MemoMap) (rules places : ℕ) (asked : MemoKey)
        → ((other : MemoKey) (kept : StoredResult) → map.get stored other ≡ Some kept → (other.0 < rules)
        × (other.1 < places))
        → asked.0 < rules → asked.1 < places → map.get stored asked ≡ None → map.len stored < rules * places }
{}
