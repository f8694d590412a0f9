//! The message for a text that doesn't match.
ghost use Rattle.std.specs.Prelude.{◌≡◌, ◌≤◌, ◌<◌, ◌^◌, ◌+◌, ◌++◌, [], ℕ, List, IfOk, OnErr, OnOk, length};
ghost use Rattle.peg_bytes.specs.Place.{max_offset};
ghost use Rattle.peg_messages.specs.Ends.{end_texts};
ghost use Rattle.peg_messages.specs.Listings.{IsListing, bytes_of_each};

use crate::found::{longest_literal, write_found};
use crate::items::{Item, ItemGroup, is_in_group, item_text};
use crate::lines::TextLines;
use crate::listing::Listing;
use crate::numbers::write_place;
use crate::source::write_source;
use std::alloc::{AllocError, Global};

/// Where a text doesn't match, and what is expected there.
#[derive(Clone, Copy, Debug)]
pub struct Failure<'a> {
    /// The name of the text, which begins the message.
    pub name: &'a [u8],
    pub text: &'a [u8],
    /// The lines of the text, which the place and the shown line are in.
    pub lines: TextLines,
    /// The grammar file, which the spans of the items refer to.
    pub grammar: &'a [u8],
    /// The position of the failure: an offset of the text.
    pub at: u32,
    /// What is expected at the position, in the order of the grammar file.
    pub expected: &'a [Item<'a>],
    /// Whether the end of the text is expected, too.
    pub is_end_expected: bool,
}

impl Failure<'_> {
    ghost use Rattle.peg_messages.specs.Failures.{expected_texts, failure_message, found_bytes, group_texts};
    ghost use Rattle.peg_messages.specs.Listing.{listed};
    ghost use Rattle.peg_messages.specs.Listings.{IsListed};

    /// Appends the message for a failure: `NAME:LINE:COLUMN: expected A, B or C, found 'D'`, then the line of the
    /// position and a caret below the position. Each line ends with LF. The line and the column are those of the text's
    /// file.
    ///
    /// An item that isn't left out is written as in the grammar file. A dot is written `any byte`. The predicate `!e` is written `something
    /// other than e`, after all others. `!.` is `the end`, like the end of the text if it is expected. The end is
    /// written first, so that no number of other items hides it. Equal items are written once, and at most eight are
    /// written; then `N more` counts the others. An item is compared only with the first 64 different ones. Further
    /// items are counted each.
    ///
    /// If literals are expected that begin with the same letter as the text, in either case, the text is shown up to
    /// the length of the longest one, or up to a blank. Literals that are left out count, too. Otherwise one character
    /// is shown. A character that can't be seen, or that looks like one of ASCII, has its name, as in
    /// `'\xC2\xA0' (no-break space)`.
    ///
    /// Bytes that are neither printable ASCII nor UTF-8 are written as escapes of the notation. At most 120 bytes of
    /// the line are shown, the first of them 80 before the position. A tab of the line stays a tab, and so does the blank
    /// below it. A UTF-8 sequence that the position splits is shown as escapes.
    ///
    /// The only error is a failed allocation, which leaves `out` as it was. Takes time linear in the text up to the end
    /// of the line, in the spans of the items, and in what is written.
    ///
    /// # Example
    ///
    /// ```
    /// let span = Span::new(5, 8);
    /// let expected = [Item { span, rule: None, name: None, is_left_out: false }];
    /// let failure = Failure {
    ///     name: b"ab.txt",
    ///     text: b"xb",
    ///     lines: TextLines::File,
    ///     grammar: b"S <- 'a' 'b'",
    ///     at: 0,
    ///     expected: &expected,
    ///     is_end_expected: false,
    /// };
    /// failure.write(alloc, &mut out)?;
    /// assert_eq!(out.as_slice(), b"ab.txt:1:1: expected 'a', found 'x'\nxb\n^\n");
    /// ```
    pub fn write(&self, alloc: Global, out: &mut Vec<u8>) -> Result<(), AllocError>
        requires in_text { self.now.at ≤ length self.now.text.now }
        requires small { self.now.at ≤ max_offset }
        requires few { length self.now.expected.now < 2 ^ 32 }
        ensures message { OnOk result (out.new.items ≡ out.old.items ++ failure_message self.now) }
        ensures unchanged { OnErr result (out.new.items ≡ out.old.items) }
    {
        let message = self.message(alloc)?;
        out.extend_from_slice(&message)
    }

    // Returns the message.
    fn message(&self, alloc: Global) -> Result<Vec<u8>, AllocError>
        requires in_text { self.now.at ≤ length self.now.text.now }
        requires small { self.now.at ≤ max_offset }
        requires few { length self.now.expected.now < 2 ^ 32 }
        ensures { IfOk result (λ message. message.items ≡ failure_message self.now) }
    {
        let mut message = Vec::new(alloc);
        write_place(self.name, self.lines, self.text, self.at, &mut message)?;
        message.extend_from_slice(b"expected ")?;
        self.write_expected(alloc, &mut message)?;
        message.extend_from_slice(b", found ")?;
        write_found(self.text, self.at, self.found_bytes(), &mut message)?;
        message.extend_from_slice(b"\n")?;
        write_source(self.lines, self.text, self.at, &mut message)?;
        Ok(message)
    }

    // Returns how many bytes of a word are shown as found.
    fn found_bytes(&self) -> usize
        ensures { result ≡ found_bytes self.now }
    {
        match self.text.get(self.at as usize) {
            Some(first) => longest_literal(self.grammar, *first, self.expected),
            None => 0,
        }
    }

    // Writes the list of what is expected.
    fn write_expected(&self, alloc: Global, out: &mut Vec<u8>) -> Result<(), AllocError>
        requires { length self.now.expected.now < 2 ^ 32 }
        ensures { OnOk result (out.new.items ≡ out.old.items ++ listed (expected_texts self.now)) }
    {
        self.listing(alloc)?.write(alloc, out)
    }

    // Returns the list of what is expected.
    fn listing(&self, alloc: Global) -> Result<Listing, AllocError>
        requires { length self.now.expected.now < 2 ^ 32 }
        ensures { IfOk result (λ listing. IsListed (expected_texts self.now) listing) }
    {
        let mut listing = Listing::new(alloc);
        add_end(alloc, self.is_end_expected, &mut listing)?;
        self.add_group(alloc, ItemGroup::End, &mut listing)?;
        self.add_group(alloc, ItemGroup::Plain, &mut listing)?;
        self.add_group(alloc, ItemGroup::Other, &mut listing)?;
        Ok(listing)
    }

    // Adds the items of a group to the list, in order.
    fn add_group(
        &self,
        alloc: Global,
        group: ItemGroup,
        listing: &mut Listing,
    ) -> Result<(), AllocError>
        requires { listing.old.others + length self.now.expected.now ≤ 2 ^ 34 }
        ensures listing { OnOk result ((rest all : List (List ℕ))
            → IsListing (bytes_of_each listing.old.kept.items) listing.old.others
            (group_texts group self.now.grammar.now self.now.expected.now ++ rest) all
            → IsListing (bytes_of_each listing.new.kept.items) listing.new.others rest all) }
        ensures others { listing.new.others ≤ listing.old.others + length self.now.expected.now }
    {
        'items: for item in self.expected {
            if is_in_group(self.grammar, item, group) {
                listing.add(item_text(alloc, self.grammar, item)?)?;
            }
        }
        Ok(())
    }
}

// Adds the end of the text, if it is expected.
fn add_end(alloc: Global, is_expected: bool, listing: &mut Listing) -> Result<(), AllocError>
    requires { listing.old.others < 2 ^ 34 }
    ensures listing { OnOk result ((rest all : List (List ℕ))
        → IsListing (bytes_of_each listing.old.kept.items) listing.old.others (end_texts is_expected ++ rest) all
        → IsListing (bytes_of_each listing.new.kept.items) listing.new.others rest all) }
    ensures others { listing.new.others ≤ listing.old.others + 1 }
{
    if is_expected {
        listing.add(Vec::from_slice(alloc, b"the end")?)?;
    }
    Ok(())
}
