//! Sets of bytes.
ghost use Rattle.std.specs.Prelude.{◌≡◌, ℕ, ◌==◌, ◌||◌, ◌&&◌, ◌↔◌, IsTrue, false, nat_le, nat_lt};

/// A set of bytes, stored as a bitmap of four 64-bit words, lowest bytes first.
#[derive(Clone, Copy, Debug, PartialEq, Eq)]
pub struct ByteSet {
    words: [u64; 4],
}

impl ByteSet {
    ghost use Rattle.peg_bytes.specs.AllFlags.{all_flags};
    ghost use Rattle.peg_bytes.specs.ByteSet.{bytes_of, has};

    /// Returns the empty set.
    pub fn empty() -> ByteSet
        ensures { (other : ℕ) → has (bytes_of result) other ≡ false }
    {
        ByteSet { words: [0; 4] }
    }

    /// Returns the set of all 256 bytes.
    pub fn full() -> ByteSet
        ensures { (other : ℕ) → has (bytes_of result) other ≡ nat_lt other 256 }
    {
        ByteSet {
            words: [u64::MAX; 4],
        }
    }

    /// Returns the set that contains only `byte`.
    pub fn single(byte: u8) -> ByteSet
        ensures { (other : ℕ) → has (bytes_of result) other ≡ (other == byte) }
    {
        let mut only = ByteSet::empty();
        only.insert(byte);
        only
    }

    /// Returns the set of the bytes from `low` to `high`, both included. The set is empty if `low` is greater than
    /// `high`. Linear in the number of bytes in the range.
    pub fn range(low: u8, high: u8) -> ByteSet
        ensures { (other : ℕ) → has (bytes_of result) other ≡ (nat_le low other && nat_le other high) }
    {
        let mut set = ByteSet::empty();
        for byte in low..=high {
            set.insert(byte);
        }
        set
    }

    /// Adds `byte` to the set. Constant time.
    pub fn insert(&mut self, byte: u8)
        ensures { (other : ℕ) → has (bytes_of self.new) other
            ≡ ((other == byte) || has (bytes_of self.old) other) }
    {
        self.words[usize::from(byte / 64)] |= 1 << (byte % 64);
    }

    /// Returns the union of the two sets.
    pub fn union(&self, other: &ByteSet) -> ByteSet
        ensures { (byte : ℕ) → has (bytes_of result) byte
            ≡ (has (bytes_of self.now) byte || has (bytes_of other.now) byte) }
    {
        ByteSet {
            words: [
                self.words[0] | other.words[0],
                self.words[1] | other.words[1],
                self.words[2] | other.words[2],
                self.words[3] | other.words[3],
            ],
        }
    }

    /// Returns whether `byte` is in the set. Constant time.
    pub fn contains(&self, byte: u8) -> bool
        ensures { result ≡ has (bytes_of self.now) byte }
    {
        (self.words[usize::from(byte / 64)] >> (byte % 64)) & 1 == 1
    }

    /// Returns whether the set is empty.
    pub fn is_empty(&self) -> bool
        ensures { IsTrue result ↔ ((byte : ℕ) → has (bytes_of self.now) byte ≡ false) }
    {
        self.all_flags() == 0
    }

    // The four words combined by bitwise or: zero exactly if the set is empty.
    fn all_flags(&self) -> u64
        ensures { result ≡ all_flags self.now.words }
    {
        self.words[0] | self.words[1] | self.words[2] | self.words[3]
    }
}
