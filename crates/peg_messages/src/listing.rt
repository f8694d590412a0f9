//! Lists of what is expected.
ghost use Rattle.std.specs.Prelude.{◌≡◌, ◌≤◌, ◌<◌, ◌+◌, ◌^◌, ◌∷◌, ◌++◌, [], List, ℕ, IfOk, OnOk, codes, length};
ghost use Rattle.std.specs.Prelude.{if◌then◌else◌};
ghost use Rattle.std.specs.Fmt.{decimal};
ghost use Rattle.peg_messages.specs.Listing.{alternatives, is_among, joined, joined_rest};
ghost use Rattle.peg_messages.specs.Listings.{bytes_of_each};

use crate::numbers::write_number;
use std::alloc::{AllocError, Global};

// The number of different texts that later texts are compared with, and of those that are written.
const MAX_KEPT: usize = 64;

const MAX_WRITTEN: u64 = 8;

/// The first different texts of a list, and the number of other texts.
#[derive(Drop)]
pub(crate) struct Listing {
    kept: Vec<Vec<u8>>,
    others: u64,
}

impl Listing {
    ghost use Rattle.peg_messages.specs.Listings.{IsListing};

    /// Returns a list without texts.
    pub(crate) fn new(alloc: Global) -> Listing
        ensures listing { (all : List (List ℕ)) → IsListing (bytes_of_each result.kept.items) result.others all all }
        ensures none { result.others ≡ 0 }
    {
        Listing {
            kept: Vec::new(alloc),
            others: 0,
        }
    }

    /// Adds a text. Takes time linear in the text and in the first 64 different texts.
    pub(crate) fn add(&mut self, text: Vec<u8>) -> Result<(), AllocError>
        requires { self.old.others < 2 ^ 34 }
        ensures listing { OnOk result ((rest all : List (List ℕ))
            → IsListing (bytes_of_each self.old.kept.items) self.old.others (text.items ∷ rest) all
            → IsListing (bytes_of_each self.new.kept.items) self.new.others rest all) }
        ensures others { self.new.others ≤ self.old.others + 1 }
    {
        if is_among(&self.kept, &text) {
            return Ok(());
        }
        if self.kept.len() < MAX_KEPT {
            self.kept.push(text)?;
        } else {
            self.others += 1;
        }
        Ok(())
    }

    /// Writes the list. Takes time linear in what is written.
    pub(crate) fn write(self, alloc: Global, out: &mut Vec<u8>) -> Result<(), AllocError>
        requires kept { length self.kept.items ≤ 64 }
        requires others { self.others ≤ 2 ^ 34 }
        ensures { OnOk result (out.new.items
            ≡ out.old.items ++ joined (alternatives (bytes_of_each self.kept.items) self.others)) }
    {
        let Listing { mut kept, others } = self;
        let count = kept.len() as u64 + others;
        if count > MAX_WRITTEN {
            kept.truncate(MAX_WRITTEN as usize);
            kept.push(more_text(alloc, count - MAX_WRITTEN)?)?;
        }
        write_joined(&kept, out)
    }
}

// Returns whether a text is among others.
fn is_among(texts: &[Vec<u8>], text: &[u8]) -> bool
    ensures { result ≡ is_among (bytes_of_each texts.now) text.now }
{
    'texts: for other in texts {
        if other.as_slice() == text {
            return true;
        }
    }
    false
}

// Returns the text for a number of texts that are left out.
fn more_text(alloc: Global, count: u64) -> Result<Vec<u8>, AllocError>
    ensures { IfOk result (λ text. text.items ≡ decimal count ++ codes " more") }
{
    let mut text = Vec::new(alloc);
    write_number(u128::from(count), &mut text)?;
    text.extend_from_slice(b" more")?;
    Ok(text)
}

// Writes texts as a list.
fn write_joined(texts: &[Vec<u8>], out: &mut Vec<u8>) -> Result<(), AllocError>
    ensures { OnOk result (out.new.items ≡ out.old.items ++ joined (bytes_of_each texts.now)) }
{
    match texts {
        [] => out.extend_from_slice(b"something else"),
        [first, rest @ ..] => {
            out.extend_from_slice(first)?;
            write_rest(rest, out)
        }
    }
}

// Writes the texts of a list after the first one.
fn write_rest(texts: &[Vec<u8>], out: &mut Vec<u8>) -> Result<(), AllocError>
    ensures { OnOk result (out.new.items ≡ out.old.items ++ joined_rest (bytes_of_each texts.now)) }
{
    let mut rest = texts;
    'texts: while let [text, others @ ..] = rest {
        write_separator(others.is_empty(), out)?;
        out.extend_from_slice(text)?;
        rest = others;
    }
    Ok(())
}

// Writes what separates a text of a list from the one before it.
fn write_separator(is_last: bool, out: &mut Vec<u8>) -> Result<(), AllocError>
    ensures { OnOk result (out.new.items ≡ out.old.items ++ (if is_last then codes " or " else codes ", ")) }
{
    if is_last {
        out.extend_from_slice(b" or ")
    } else {
        out.extend_from_slice(b", ")
    }
}
