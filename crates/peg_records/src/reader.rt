//! A reader of the records of a stream.
ghost use Rattle.std.specs.Prelude.{◌≡◌, ℕ, ◌<◌, ◌≤◌, false, true, IfOk, IfSome, IsErrOf, List, OnOk, Some, [], length, vec_len};
ghost use Rattle.std.specs.Prelude.{◌↔◌, ◌+◌, slice_range};
ghost use Rattle.std.specs.List.{copy_within};
ghost use Rattle.peg_records.specs.Records.{line_feeds_found, record_of, records};

use crate::end::RecordEnd;
use crate::line_feeds::{line_feeds_found, more_lost};
use memchr::memchr;
use peg_io::{ReadFault, Source};
use std::alloc::{AllocError, Global};

// The size of the blocks in which a stream is read, in bytes.
const BLOCK_BYTES: usize = 65_536;

/// Reads the records of a stream in blocks. It holds the start of a record that isn't read to its end, and one block.
///
/// A record that is longer than a limit is given in part: as some of its bytes, which are longer than the limit, too.
/// So a caller that refuses such records needs no more memory for them.
/// The line feeds of all bytes are counted, so that a caller knows the line of each record.
///
/// # Example
///
/// ```
/// let mut reader = RecordReader::new(alloc, RecordEnd::Line, MAX_TEXT_BYTES)?;
/// while reader.read_block(&mut input)? {
///     while reader.next() {
///         handle(reader.record());
///     }
/// }
/// if reader.last() {
///     handle(reader.record());
/// }
/// ```
#[derive(Drop)]
pub struct RecordReader {
    end: RecordEnd,
    limit: usize,
    block: Vec<u8>,
    // The bytes in memory. Those from `start` on belong to no record yet, and those before `searched` have no end among
    // them.
    held: Vec<u8>,
    start: usize,
    searched: usize,
    // The number of line feeds in the bytes before `start` that belong to no record yet and aren't kept.
    lost: u64,
    // The record that `record` returns is at these offsets of `held`. It has this number of line feeds, with its end.
    from: usize,
    to: usize,
    line_feeds: u64,
    ghost few: { lost ≤ 4611686018427387904 },
    ghost small: { limit ≤ 9223372036854775807 },
    ghost has_block: { vec_len block ≡ 65536 },
    ghost in_order: { start ≤ searched },
    ghost in_memory: { searched ≤ vec_len held },
    ghost record_in_order: { from ≤ to },
    ghost record_in_memory: { to ≤ vec_len held },
}

impl RecordReader {
    ghost use Rattle.peg_records.specs.Readers.{EndsWith, HasNext, IsAheadOf, record_at, rest_of, settings_of};

    /// Returns a reader of records that end so. A record with more than `limit` bytes may be given in part.
    pub fn new(alloc: Global, end: RecordEnd, limit: usize) -> Result<RecordReader, AllocError>
        requires { limit ≤ 9223372036854775807 }
        ensures ahead { IfOk result (λ reader. (left : List ℕ) → IsAheadOf reader left (records end left)) }
        ensures settings { IfOk result (λ reader. settings_of reader ≡ (end, limit)) }
        ensures nothing { IfOk result (λ reader. rest_of reader ≡ []) }
    {
        Ok(RecordReader {
            end,
            limit,
            block: vec![in alloc; 0u8; BLOCK_BYTES]?,
            held: Vec::new(alloc),
            start: 0,
            searched: 0,
            lost: 0,
            from: 0,
            to: 0,
            line_feeds: 0,
        })
    }

    /// Returns the record that `next` or `last` found.
    pub fn record(&self) -> &[u8]
        ensures { result.now ≡ record_at self.now }
    {
        &self.held[self.from..self.to]
    }

    /// Returns the number of line feeds of the record that `next` or `last` found. The end of a record counts, too.
    pub fn line_feeds(&self) -> u64
        ensures { result ≡ self.now.line_feeds }
    {
        self.line_feeds
    }

    /// Finds the next record in memory, for `record`. Returns `false` if there is none that is read to its end. Linear
    /// in the bytes that weren't searched before.
    pub fn next(&mut self) -> bool
        ensures next { (left : List ℕ) (ahead : List (List ℕ)) → IsAheadOf self.old left ahead
            → HasNext result self.new left ahead }
        ensures settings { settings_of self.new ≡ settings_of self.old }
        ensures shorter { result ≡ true → length (rest_of self.new) < length (rest_of self.old) }
        ensures nothing { result ≡ false → rest_of self.new ≡ [] }
    {
        match memchr(self.end.byte(), &self.held[self.searched..]) {
            Some(offset) => {
                self.find(self.searched + offset);
                true
            }
            None => {
                self.searched = self.held.len();
                false
            }
        }
    }

    // Finds the record that ends at this offset.
    fn find(&mut self, at: usize)
        requires after { self.old.searched ≤ at }
        requires within { at < vec_len self.old.held }
        ensures record { record_at self.new
            ≡ record_of self.old.end (slice_range self.old.held.items self.old.start at) }
        ensures settings { settings_of self.new ≡ settings_of self.old }
        ensures held { self.new.held ≡ self.old.held }
        ensures start { self.new.start ≡ at + 1 }
        ensures searched { self.new.searched ≡ at + 1 }
        ensures lost { self.new.lost ≡ 0 }
        ensures line_feeds { self.new.line_feeds ≡ line_feeds_found self.old.end self.old.lost
            (slice_range self.old.held.items self.old.start at) }
    {
        let part = &self.held[self.start..at];
        let len = self.end.record_len(part);
        self.line_feeds = line_feeds_found(self.end, self.lost, part);
        self.lost = 0;
        self.from = self.start;
        self.to = self.start + len;
        self.start = at + 1;
        self.searched = at + 1;
    }

    /// Finds the last record, which has no end, for `record`. Returns `false` if there is none. The source must be at
    /// its end, and `next` has found no other record. Then the reader is ready for another stream. Constant time.
    pub fn last(&mut self) -> bool
        requires { rest_of self.old ≡ [] }
        ensures last { (ahead : List (List ℕ)) → IsAheadOf self.old [] ahead → EndsWith result self.new ahead }
        ensures settings { settings_of self.new ≡ settings_of self.old }
        ensures ahead { (left : List ℕ) → IsAheadOf self.new left (records self.new.end left) }
        ensures nothing { rest_of self.new ≡ [] }
    {
        let found = self.start < self.held.len();
        self.line_feeds = line_feeds_found(self.end, self.lost, &self.held[self.start..]);
        self.lost = 0;
        self.from = self.start;
        self.to = self.held.len();
        self.start = self.held.len();
        self.searched = self.held.len();
        found
    }

    /// Reads a block of a byte or more. Returns `false` if the source is at its end. `next` has found all records in
    /// memory before. Returns `Device` if the read fails, and `Memory` if an allocation fails. Linear in the bytes that
    /// are held.
    pub fn read_block<S: Source>(&mut self, input: &mut S) -> Result<bool, ReadFault>
        requires works { S.failed input.old ≡ false }
        requires nothing { rest_of self.old ≡ [] }
        ensures ahead { IfSome (S.left input.old) (λ left. (ahead : List (List ℕ)) → IsAheadOf self.old left ahead
            → OnOk result ((later : List ℕ) × (S.left input.new ≡ Some later) × IsAheadOf self.new later ahead)) }
        ensures some { IfOk result (λ more. more ≡ true → 0 < length (rest_of self.new)) }
        ensures end { IfOk result (λ more. more ≡ false → (rest_of self.new ≡ [])
            × IfSome (S.left input.new) (λ later. later ≡ [])) }
        ensures settings { settings_of self.new ≡ settings_of self.old }
        ensures device { IsErrOf result ReadFault.Device ↔ (S.failed input.new ≡ true) }
        ensures never { S.never_fails input.old ≡ true
            → (S.failed input.new ≡ false) × (S.never_fails input.new ≡ true) }
    {
        self.keep_start()?;
        let count = match input.read(self.block.as_mut_slice()) {
            Ok(0) => return Ok(false),
            Ok(count) => count,
            Err(_) => return Err(ReadFault::Device),
        };
        self.held.extend_from_slice(&self.block[..count])?;
        Ok(true)
    }

    // Moves the start of a record to the front, and cuts it if it is too long. The only error is that there are too many
    // line feeds in what is cut.
    fn keep_start(&mut self) -> Result<(), AllocError>
        requires { rest_of self.old ≡ [] }
        ensures ahead { (left : List ℕ) (ahead : List (List ℕ)) → IsAheadOf self.old left ahead
            → OnOk result (IsAheadOf self.new left ahead) }
        ensures settings { settings_of self.new ≡ settings_of self.old }
        ensures nothing { OnOk result (rest_of self.new ≡ []) }
    {
        self.from = 0;
        self.to = 0;
        let len = self.held.len() - self.start;
        let kept = len.min(self.limit + 2);
        self.lost = more_lost(self.lost, &self.held[self.start + kept..])?;
        move_to_front(&mut self.held, self.start);
        self.held.truncate(kept);
        self.start = 0;
        self.searched = self.held.len();
        Ok(())
    }
}

// Moves the bytes from an offset on to the front. Constant time if they are there, as those of a record of many blocks.
fn move_to_front(bytes: &mut Vec<u8>, from: usize)
    requires { from ≤ vec_len bytes.old }
    ensures items { bytes.new.items ≡ copy_within bytes.old.items from (vec_len bytes.old) 0 }
    ensures len { vec_len bytes.new ≡ vec_len bytes.old }
{
    if from > 0 {
        bytes.copy_within(from.., 0);
    }
}
