//! Runs whose input or output fails in mid-stream.
ghost use Rattle.std.specs.Prelude.{◌≡◌, None, is_some};

use peg_fixtures::grammars::COUNTS;
use peg_tool::{
    Command, DeviceFault, Nodes, ParseOptions, Sink, Source, ToolFault, run_joined, run_tool,
};
use std::alloc::Global;
use std::io::ErrorKind;
use std::process::Abort;
use std::test::Fail;

// A source that returns one byte per read, and fails after a number of bytes.
#[derive(Drop)]
pub(crate) struct ShortReader {
    bytes: &'static [u8],
    at: usize,
    breaks_at: usize,
    fault: Option<ErrorKind>,
}

impl ShortReader {
    pub(crate) fn new(bytes: &'static [u8], breaks_at: usize) -> ShortReader
        ensures { result.fault ≡ None }
    {
        ShortReader {
            bytes,
            at: 0,
            breaks_at,
            fault: None,
        }
    }
}

impl Source for ShortReader {
    ghost left = { λ _. None };

    ghost failed = { λ source. is_some source.fault };

    ghost fault_kind = { λ source. source.fault };

    fn read(&mut self, piece: &mut [u8]) -> Result<usize, DeviceFault> {
        if self.at >= self.breaks_at {
            self.fault = Some(ErrorKind::UnexpectedEof);
            return Err(DeviceFault);
        }
        if self.at >= self.bytes.len() {
            return Ok(0);
        }
        piece[0] = self.bytes[self.at];
        self.at += 1;
        Ok(1)
    }

    fn failed(&self) -> bool {
        self.fault.is_some()
    }

    fn fault_kind(&self) -> Option<ErrorKind> {
        self.fault
    }
}

// A sink that accepts one byte per write, and fails after a number of bytes.
#[derive(Drop)]
struct FailingWriter {
    taken: Vec<u8>,
    breaks_at: usize,
    fault: Option<ErrorKind>,
}

impl FailingWriter {
    fn new(alloc: Global, breaks_at: usize) -> FailingWriter
        ensures { result.fault ≡ None }
    {
        FailingWriter {
            taken: Vec::new(alloc),
            breaks_at,
            fault: None,
        }
    }
}

impl Sink for FailingWriter {
    ghost written = { λ _. None };

    ghost failed = { λ sink. is_some sink.fault };

    ghost fault_kind = { λ sink. sink.fault };

    fn write(&mut self, piece: &[u8]) -> Result<usize, DeviceFault> {
        if self.taken.len() >= self.breaks_at || self.taken.push(piece[0]).is_err() {
            self.fault = Some(ErrorKind::BrokenPipe);
            return Err(DeviceFault);
        }
        Ok(1)
    }

    fn failed(&self) -> bool {
        self.fault.is_some()
    }

    fn fault_kind(&self) -> Option<ErrorKind> {
        self.fault
    }
}

// A number of bytes after which no device of these tests fails.
const NEVER: usize = 1000;

const INPUT: &[u8] = b"S <- 'a' S / 'b'\n%%\naab";

const FILE: &[u8] = b"S <- 'a' S / 'b'\n";

const TEXT: &[u8] = b"aab";

const LINE: &[u8] =
    b"{\"consumed\":3,\"expected\":[[5,8]],\"far\":2,\"result\":\"matched\",\"tree\":{\"children\":[{\"children\":[{\"children\":[],\"end\":3,\"rule\":\"S\",\"start\":2}],\"end\":3,\"rule\":\"S\",\"start\":1}],\"end\":3,\"rule\":\"S\",\"start\":0}}\n";

const ROWS: &[u8] =
    b"{\"consumed\":3,\"expected\":[[5,8]],\"far\":2,\"result\":\"matched\",\"rows\":[[1,\"S\",0,3],[2,\"S\",1,3],[3,\"S\",2,3]]}\n";

const COUNTED: &[u8] =
    b"{\"consumed\":6,\"expected\":[[23,24]],\"far\":6,\"result\":\"matched\",\"rows\":[[1,\"D\",0,6],[2,\"B\",2,6],[3,\"B\",3,5],[4,\"B\",4,4]]}\n";

const CYCLE: &[u8] = b"A <- B 'x'\nB <- 'y'? A\n";

const PAIRS: &[u8] = b"Pairs <- Pair*\nPair <- Key '=' Value\nKey <- [a-z]+\nValue <- .\n";

// A parse from the first rule. Without a tree it is a parse with bytes, which the command line can't make.
fn parse(rows: bool, no_tree: bool) -> Command<'static> {
    let (start, memo, steps) = (None, 4096, None);
    Command::Parse {
        options: ParseOptions { start, memo, steps },
        all: false,
        rows,
        no_tree,
        text: no_tree,
        nodes: Nodes::All,
    }
}

// A grammar file and a text.
type Input = (&'static [u8], &'static [u8]);

// The numbers of bytes after which the devices of a run fail.
#[derive(Clone, Copy)]
struct Breaks {
    file: usize,
    text: usize,
    output: usize,
}

// Which devices of a run failed: the file, the text, and the output.
type Failed = (bool, bool, bool);

// How a run ended, and what it wrote.
#[derive(Drop)]
struct Ended {
    result: Result<u8, ToolFault>,
    failed: Failed,
    written: Vec<u8>,
}

// Runs a command on a grammar file and a text.
fn end_of(alloc: Global, command: &Command<'_>, (grammar, text): Input, breaks: Breaks) -> Ended {
    let mut file = ShortReader::new(grammar, breaks.file);
    let mut parsed = ShortReader::new(text, breaks.text);
    let mut output = FailingWriter::new(alloc, breaks.output);
    let result = run_tool(alloc, &mut file, &mut parsed, &mut output, command);
    let failed = (file.failed(), parsed.failed(), output.failed());
    let FailingWriter { taken, .. } = output;
    Ended {
        result,
        failed,
        written: taken,
    }
}

// Runs the parse of a joined input.
fn end_of_joined(alloc: Global, breaks: Breaks) -> Ended {
    let mut input = ShortReader::new(INPUT, breaks.file);
    let mut output = FailingWriter::new(alloc, breaks.output);
    let result = run_joined(alloc, &mut input, &mut output);
    let failed = (input.failed(), false, output.failed());
    let FailingWriter { taken, .. } = output;
    Ended {
        result,
        failed,
        written: taken,
    }
}

// Checks that a run ended with a failed read and wrote nothing. `at` is the number of bytes before the failure.
fn assert_read_fault(rt: &impl Abort, ended: &Ended, failed: Failed, at: usize) {
    assert_eq!(rt; ended.result, Err(ToolFault::ReadFault), "read at {at}");
    assert_eq!(rt; ended.failed, failed, "read at {at}");
    assert!(rt; ended.written.is_empty(), "read at {at}");
}

// Checks that a run wrote a part of its line, or all of it, and then ended with this status.
fn assert_written(rt: &impl Abort, ended: &Ended, line: &[u8], status: u8, at: usize) {
    let is_whole = at >= line.len();
    let wanted = if is_whole {
        Ok(status)
    } else {
        Err(ToolFault::WriteFault)
    };
    assert_eq!(rt; ended.result, wanted, "write at {at}");
    assert_eq!(rt; ended.failed, (false, false, !is_whole), "write at {at}");
    assert!(rt;
        ended.written.as_slice() == &line[..at.min(line.len())],
        "write at {at}"
    );
}

// Runs a command with a grammar file that fails after each number of bytes, and a text that fails at once.
fn assert_file_faults(rt: &impl Abort, alloc: Global, command: &Command<'_>, input: Input) {
    let (text, output) = (0, NEVER);
    for file in 0..=input.0.len() {
        let ended = end_of(alloc, command, input, Breaks { file, text, output });
        assert_read_fault(rt, &ended, (true, false, false), file);
    }
}

// Runs a command with a text that fails after each number of bytes.
fn assert_text_faults(rt: &impl Abort, alloc: Global, command: &Command<'_>, input: Input) {
    let (file, output) = (NEVER, NEVER);
    for text in 0..=input.1.len() {
        let ended = end_of(alloc, command, input, Breaks { file, text, output });
        assert_read_fault(rt, &ended, (false, true, false), text);
    }
}

// Runs a command with an output that fails after each number of bytes, and a text that fails after `text` bytes.
fn assert_writes(
    rt: &impl Abort,
    alloc: Global,
    command: &Command<'_>,
    (input, text): (Input, usize),
    (line, status): (&'static [u8], u8),
) {
    let file = NEVER;
    for output in 0..=line.len() {
        let ended = end_of(alloc, command, input, Breaks { file, text, output });
        assert_written(rt, &ended, line, status, output);
    }
}

// Runs a command with failing devices. A text that must not be read fails at once.
fn assert_faults(
    rt: &impl Abort,
    alloc: Global,
    command: &Command<'_>,
    (input, is_read): (Input, bool),
    wanted: (&'static [u8], u8),
) {
    assert_file_faults(rt, alloc, command, input);
    if is_read {
        assert_text_faults(rt, alloc, command, input);
    }
    let text = if is_read { NEVER } else { 0 };
    assert_writes(rt, alloc, command, (input, text), wanted);
}

#[test]
fn commands_report_a_failed_read_or_write(rt: HostRuntime) {
    let refusal = b"{\"at\":17,\"column\":1,\"line\":2,\"refusal\":\"Syntax\"}\n".as_slice();
    let accepted = b"{\"result\":\"accepted\",\"rules\":1}\n".as_slice();
    let cycle = b"{\"path\":[\"A\",\"B\"],\"refusal\":\"LeftRecursion\"}\n".as_slice();
    let treeless =
        b"{\"consumed\":3,\"expected\":[[44,49]],\"far\":3,\"result\":\"matched\"}\n".as_slice();
    let commented = b"A <- 'x' #end\n".as_slice();
    let cases = [
        (Command::Table, ((INPUT, INPUT), false), (refusal, 2)),
        (Command::Check, ((commented, TEXT), false), (accepted, 0)),
        (parse(false, false), ((CYCLE, TEXT), false), (cycle, 2)),
        (parse(false, false), ((FILE, TEXT), true), (LINE, 0)),
        (parse(true, false), ((FILE, TEXT), true), (ROWS, 0)),
        (
            parse(true, false),
            ((COUNTS, b"aabbcc"), true),
            (COUNTED, 0),
        ),
        (parse(false, true), ((PAIRS, b"a=1"), true), (treeless, 0)),
    ];
    for (command, input, output) in cases {
        assert_faults(&rt, rt.alloc(), &command, input, output);
    }
}

#[test]
fn a_joined_input_reports_a_failed_read_or_write(rt: HostRuntime) {
    let (text, output) = (NEVER, NEVER);
    for file in 0..=INPUT.len() {
        let ended = end_of_joined(rt.alloc(), Breaks { file, text, output });
        assert_read_fault(&rt, &ended, (true, false, false), file);
    }
    let file = NEVER;
    for output in 0..=LINE.len() {
        let ended = end_of_joined(rt.alloc(), Breaks { file, text, output });
        assert_written(&rt, &ended, LINE, 0, output);
    }
}
