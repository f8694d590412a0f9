//! Runs of the program for its arguments, whose files or input can't be read.
ghost use Rattle.std.specs.Prelude.{◌≡◌, None, Some, true, false};

use crate::devices::ShortReader;
use peg_tool::{
    Device, DeviceFault, Exit, OpenFault, Opener, Source, Words, WordsFault, read_args, run_program,
};
use std::alloc::{AllocError, Global};
use std::io::{Error, ErrorKind};
use std::process::Abort;
use std::test::Fail;

// A file in memory. Reads of it don't fail.
#[derive(Drop)]
struct Held {
    bytes: &'static [u8],
}

impl Source for Held {
    ghost left = { λ file. Some file.bytes.now };

    ghost failed = { λ _. false };

    ghost fault_kind = { λ _. None };

    ghost never_fails = { λ _. true };

    fn read(&mut self, piece: &mut [u8]) -> Result<usize, DeviceFault> {
        let count = piece.len().min(self.bytes.len());
        piece[..count].copy_from_slice(&self.bytes[..count]);
        self.bytes = &self.bytes[count..];
        Ok(count)
    }

    fn failed(&self) -> bool {
        false
    }

    fn fault_kind(&self) -> Option<ErrorKind> {
        None
    }
}

// A few files by name; opening the vast one runs out of memory.
#[derive(Drop)]
struct Shelf {
    line: &'static [u8],
    bcd: &'static [u8],
    vast: &'static [u8],
}

const SHELF: Shelf = Shelf {
    line: b"S <- 'a' S / 'b'\n",
    bcd: b"bcd",
    vast: b"",
};

impl Opener for Shelf {
    ghost use Rattle.peg_tool_tests.specs.Shelf.{shelf_file};

    type File = Held;

    ghost file_at = { λ shelf. shelf_file shelf.line.now shelf.bcd.now shelf.vast.now };

    fn open(&self, name: &str) -> Result<Held, OpenFault> {
        let bytes = match name {
            "line" => self.line,
            "bcd" => self.bcd,
            "vast" => return Err(OpenFault::Memory),
            _ => {
                return Err(OpenFault::File {
                    kind: ErrorKind::NotFound,
                })
            }
        };
        Ok(Held { bytes })
    }

    fn list(&self, _alloc: Global, _name: &str) -> Result<Vec<String>, OpenFault> {
        Err(OpenFault::Memory)
    }
}

// The line of a first record that begins with b.
const RECORD: &str =
    "{\"record\":1,\"consumed\":1,\"expected\":[[5,8]],\"far\":0,\"result\":\"matched\"}\n";

// The arguments in a command line without quotes.
fn args_of(alloc: Global, text: &str) -> Result<Vec<String>, AllocError> {
    let mut args = Vec::new(alloc);
    'words: for word in text.split(' ') {
        args.push(String::from_str(alloc, word)?)?;
    }
    Ok(args)
}

// Runs the program over the shelf.
fn exit_of(
    alloc: Global,
    words: Result<Words, WordsFault>,
    input: &mut ShortReader,
    output: &mut Vec<u8>,
) -> Exit
    requires { input.old.fault ≡ None }
{
    run_program(alloc, &SHELF, input, &mut Device::new(output), words)
}

// Checks how the program ends for a command line, and what it prints.
fn assert_exit(
    rt: &impl Abort,
    alloc: Global,
    (text, input): (&str, &'static [u8]),
    (status, message, printed): (u8, &str, &str),
) -> Result<(), AllocError> {
    let args = args_of(alloc, text)?;
    let words = read_args(alloc, Ok(args.into_iter()));
    let mut output = Vec::new(alloc);
    let exit = exit_of(
        alloc,
        words,
        &mut ShortReader::new(input, input.len()),
        &mut output,
    );
    assert_eq!(rt; output.as_slice(), printed.as_bytes(), "{text}");
    assert_eq!(rt; exit.status(), status, "{text}");
    assert_eq!(rt; exit.message(), message, "{text}");
    Ok(())
}

// Files are opened in the order of the arguments, and the first fault is reported. The message of an earlier text, and
// the lines of its records, are written before the next text is opened.
#[test]
fn a_file_that_is_opened_without_memory_is_reported(rt: HostRuntime) -> Result<(), Fail> {
    let file = "pegtool: file fault\nnowhere: No such file or directory\n";
    let memory = "pegtool: out of memory\n";
    let first = "bcd:1:2: expected the end, found 'c'\nbcd\n ^\n";
    let cases = [
        ("pegtool check vast", (5, memory, "")),
        ("pegtool lint vast --start S", (5, memory, "")),
        ("pegtool parse line vast", (5, memory, "")),
        ("pegtool parse vast nowhere", (5, memory, "")),
        ("pegtool parse nowhere vast", (4, file, "")),
        ("pegtool profile line --coverage bcd vast", (5, memory, "")),
        ("pegtool explain vast bcd", (5, memory, "")),
        ("pegtool explain line bcd vast", (5, memory, first)),
        ("pegtool explain line vast bcd", (5, memory, "")),
        (
            "pegtool parse line --lines --no-tree bcd vast",
            (5, memory, RECORD),
        ),
        ("pegtool parse vast --lines bcd", (5, memory, "")),
    ];
    for (text, wanted) in cases {
        assert_exit(&rt, rt.alloc(), (text, b""), wanted)?;
    }
    Ok(())
}

// The list fails after the line end of the first name and two bytes of the second one. So one text is explained, and
// the list is reported.
#[test]
fn names_that_end_before_a_failed_read_are_explained(rt: HostRuntime) -> Result<(), Fail> {
    let line = ("pegtool explain line --files-from -", b"bcd\nbc".as_slice());
    let printed = "bcd:1:2: expected the end, found 'c'\nbcd\n ^\n";
    let wanted = (4, "pegtool: -: can't be read\n", printed);
    Ok(assert_exit(&rt, rt.alloc(), line, wanted)?)
}

// The input fails after the end of the first record and a byte of the second one.
#[test]
fn records_that_end_before_a_failed_read_are_parsed(rt: HostRuntime) -> Result<(), Fail> {
    let line = ("pegtool parse line --lines --no-tree", b"b\na".as_slice());
    let message = "pegtool: file fault\nstandard input: Unknown error\n";
    Ok(assert_exit(&rt, rt.alloc(), line, (4, message, RECORD))?)
}

#[test]
fn arguments_that_are_read_without_memory_are_reported(rt: HostRuntime) {
    let words = read_args(rt.alloc(), Err(Error::from(ErrorKind::OutOfMemory)));
    let mut output = Vec::new(rt.alloc());
    let exit = exit_of(
        rt.alloc(),
        words,
        &mut ShortReader::new(b"", 0),
        &mut output,
    );
    assert!(rt; output.is_empty());
    assert_eq!(rt;
        (exit.status(), exit.message()),
        (5, "pegtool: out of memory\n")
    );
}
