//! Copies to the caller's memory.
ghost use Rattle.std.specs.Prelude.{◌≡◌, ℕ, ◌+◌, ◌-◌, ◌≤◌, ◌<◌, length, min, slice_get};

/// Copies items from number `from` on to the start of `out`, as many as there are and fit. Returns their number.
pub fn copy_items<T: Copy>(items: &[T], from: usize, out: &mut [T]) -> usize
    ensures count { result ≡ min (length out.old) (length items.now - from) }
    ensures copied { (place : ℕ) → place < result → slice_get out.new place ≡ slice_get items.now (from + place) }
    ensures rest { (place : ℕ) → result ≤ place → slice_get out.new place ≡ slice_get out.old place }
{
    if from >= items.len() {
        return 0;
    }
    let count = (items.len() - from).min(out.len());
    'items: for i in 0..count {
        out[i] = items[from + i];
    }
    count
}

/// Copies the start of a text to `out`, as much as fits. Returns the length of the whole text.
pub fn copy_text(text: &[u8], out: &mut [u8]) -> usize
    ensures length { result ≡ length text.now }
    ensures copied { (place : ℕ) → place < min (length out.old) result
        → slice_get out.new place ≡ slice_get text.now place }
    ensures rest { (place : ℕ) → min (length out.old) result ≤ place
        → slice_get out.new place ≡ slice_get out.old place }
{
    let _copied = copy_items(text, 0, out);
    text.len()
}
