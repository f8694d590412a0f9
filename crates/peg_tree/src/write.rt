//! Writing bytes and numbers into a buffer. Each function returns the end of the written bytes.
ghost use Rattle.std.specs.Prelude.{◌≡◌, ◌+◌, ◌<◌, ◌≤◌, ◌∷◌, [], length};
ghost use Rattle.std.specs.Fmt.{decimal};
ghost use Rattle.peg_tree.specs.Write.{Writes};

use itoa::write_digits;

// Writes one byte at `at`.
#[inline(always)]
pub(crate) fn write_byte(byte: u8, buffer: &mut [u8], at: usize) -> usize
    requires { at < length buffer.old }
    ensures { Writes buffer.old at (byte ∷ []) buffer.new result }
{
    buffer[at] = byte;
    at + 1
}

// Writes bytes at `at`.
#[inline(always)]
pub(crate) fn write_bytes(bytes: &[u8], buffer: &mut [u8], at: usize) -> usize
    requires { at + length bytes.now ≤ length buffer.old }
    ensures { Writes buffer.old at bytes.now buffer.new result }
{
    let end = at + bytes.len();
    buffer[at..end].copy_from_slice(bytes);
    end
}

// Writes a number in decimal at `at`. The buffer must have space for 20 digits, enough for any `u64`.
#[inline(always)]
pub(crate) fn write_number(number: u64, buffer: &mut [u8], at: usize) -> usize
    requires { at + 20 ≤ length buffer.old }
    ensures puts { Writes buffer.old at (decimal number) buffer.new result }
    ensures limit { result ≤ at + 20 }
{
    let end = at + digits_of(number);
    let _ = write_digits(number, buffer, end);
    end
}

// Counts the decimal digits of a number, four digits per division.
#[inline(always)]
fn digits_of(number: u64) -> usize
    ensures count { result ≡ length (decimal number) }
    ensures limit { result ≤ 20 }
{
    let mut left = number;
    let mut count = 0;
    while left >= 10_000 {
        left /= 10_000;
        count += 4;
    }
    count + few_digits_of(left)
}

// Counts the decimal digits of a number below 10,000.
#[inline(always)]
fn few_digits_of(number: u64) -> usize
    requires { number < 10000 }
    ensures { result ≡ length (decimal number) }
{
    if number < 10 {
        1
    } else if number < 100 {
        2
    } else if number < 1_000 {
        3
    } else {
        4
    }
}
