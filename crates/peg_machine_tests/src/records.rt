//! The records of streams that are read in pieces.
use peg_io::{Device, ReadFault};
use peg_records::{RecordEnd, RecordReader};
use std::alloc::{AllocError, Global};
use std::io;
use std::io::Read;

// A source of these bytes, which gives at most a number of them in each call. A broken one fails in place of its end.
#[derive(Drop)]
struct Pieces {
    left: &'static [u8],
    size: usize,
    broken: bool,
}

impl Read for Pieces {
    fn read(&mut self, buf: &mut [u8]) -> io::Result<usize> {
        let count = self.size.min(buf.len()).min(self.left.len());
        if count == 0 && self.broken {
            return Err(io::Error::other("broken"));
        }
        buf[..count].copy_from_slice(&self.left[..count]);
        self.left = &self.left[count..];
        Ok(count)
    }
}

// Appends the record that was found, and a bar.
fn push_record(reader: &RecordReader, joined: &mut Vec<u8>) -> Result<(), AllocError> {
    joined.extend_from_slice(reader.record())?;
    joined.extend_from_slice(b"|")
}

// Returns the records of a stream with a bar after each, and the fault that ended it.
fn joined_records(
    alloc: Global,
    pieces: Pieces,
    end: RecordEnd,
    joined: &mut Vec<u8>,
) -> Result<(), ReadFault> {
    let mut input = Device::new(pieces);
    let mut reader = RecordReader::new(alloc, end, 1000)?;
    'reads: for _block in 0..u64::MAX {
        if !reader.read_block(&mut input)? {
            if reader.last() {
                push_record(&reader, joined)?;
            }
            return Ok(());
        }
        'records: while reader.next() {
            push_record(&reader, joined)?;
        }
    }
    Ok(())
}

// A record is what is before its end. The last one needs no end, and there is none after the last end. A CR belongs to
// the end before LF alone, and only where that is asked for.
#[test]
fn records_are_between_ends(rt: HostRuntime) {
    let cases: [(&'static [u8], RecordEnd, &[u8]); 9] = [
        (b"", RecordEnd::Line, b""),
        (b"\n", RecordEnd::Line, b"|"),
        (b"ab\nc", RecordEnd::Line, b"ab|c|"),
        (b"ab\n\nc\n", RecordEnd::Line, b"ab||c|"),
        (b"ab\r\nc", RecordEnd::Line, b"ab\r|c|"),
        (b"ab\r\n\r\nc\r", RecordEnd::CrLf, b"ab||c\r|"),
        (b"a\rb\n\r\r\n", RecordEnd::CrLf, b"a\rb|\r|"),
        (b"a\nb\0c\0", RecordEnd::Zero, b"a\nb|c|"),
        (b"\0\r\n", RecordEnd::Zero, b"|\r\n|"),
    ];
    for (left, end, wanted) in cases {
        for size in 1..4 {
            let mut joined = Vec::new(rt.alloc());
            let broken = false;
            let pieces = Pieces { left, size, broken };
            assert_eq!(rt;
                joined_records(rt.alloc(), pieces, end, &mut joined),
                Ok(())
            );
            assert_eq!(rt; joined.as_slice(), wanted, "in pieces of {size} bytes");
        }
    }
}

// A read that fails after a block leaves the records that end before.
#[test]
fn a_failed_read_leaves_the_first_records(rt: HostRuntime) {
    let (left, size, broken) = (b"ab\nc\nde".as_slice(), 2, true);
    let mut joined = Vec::new(rt.alloc());
    let fault = joined_records(
        rt.alloc(),
        Pieces { left, size, broken },
        RecordEnd::Line,
        &mut joined,
    );
    assert_eq!(rt; fault, Err(ReadFault::Device));
    assert_eq!(rt; joined.as_slice(), b"ab|c|".as_slice());
}
