//! The code of a program as JSON.
ghost use Rattle.std.specs.Prelude.{◌≡◌, IfOk, OnOk, map, reverse, string_bytes};
ghost use Rattle.serde_json.specs.Data.{array, no_items};
ghost use Rattle.serde_json.specs.Events.{SendsValue};
ghost use Rattle.serde_json.specs.View.{items_of};
ghost use Rattle.serde_json.specs.Written.{compact_text};
ghost use Rattle.peg_bytes.specs.ByteSet.{bytes_of};
ghost use Rattle.peg_code.specs.Instrs.{instruction_of};
ghost use Rattle.peg_listings.specs.ByteRuns.{byte_run_of};
ghost use Rattle.peg_listings.specs.CodeText.{code_data, instruction_data, named_data, number_data, numbered, run_data};
ghost use Rattle.peg_listings.specs.CodeText.{runs_data, test_data};

use crate::byte_runs::{ByteRun, runs_of};
use crate::text::text_of;
use peg_bytes::ByteSet;
use peg_code::{Instr, Program};
use serde::{Described, Serialize, Serializer};
use std::alloc::{AllocError, Global};

/// Returns the code of a program as one line of JSON without its line end. Each instruction is a list of its name and
/// its operands; a set of bytes is a list of its maximal runs. The entry of each rule follows. Linear in the
/// instructions.
pub fn code_json(alloc: Global, program: &Program) -> Result<String, AllocError>
    ensures { IfOk result (λ text. string_bytes text ≡ compact_text (code_data program.now.code program.now.entries)) }
{
    text_of(alloc, &CodeObject { alloc, program })
}

// A program, serialized as its instructions and entries.
#[derive(Drop)]
struct CodeObject<'a> {
    alloc: Global,
    program: &'a Program,
}

impl Described for CodeObject<'_> {
    ghost writes = { λ value. SendsValue (code_data value.program.now.code value.program.now.entries) };
}

impl Serialize for CodeObject<'_> {
    fn serialize<S: Serializer>(&self, out: &mut S) -> Result<(), S::Error> {
        out.begin_map(Some(2))?;
        out.key("code")?;
        serialize_code(self.alloc, self.program, out)?;
        out.key("entries")?;
        serialize_entries(self.program, out)?;
        out.end_map()
    }
}

// Serializes the instructions, in order.
fn serialize_code<S: Serializer>(
    alloc: Global,
    program: &Program,
    out: &mut S,
) -> Result<(), S::Error>
    ensures { OnOk result (SendsValue (array (items_of (map instruction_data program.now.code)))
        (S.written out.old) (S.written out.new)) }
{
    out.begin_seq(Some(program.len() as usize))?;
    for pc in 0..program.len() {
        serialize_instruction(alloc, program.instr(pc), out)?;
    }
    out.end_seq()
}

// Serializes the entry of each rule.
fn serialize_entries<S: Serializer>(program: &Program, out: &mut S) -> Result<(), S::Error>
    ensures { OnOk result (SendsValue (array (items_of (map number_data program.now.entries)))
        (S.written out.old) (S.written out.new)) }
{
    out.begin_seq(Some(program.rules() as usize))?;
    for rule in 0..program.rules() {
        program.entry(rule).serialize(out)?;
    }
    out.end_seq()
}

fn serialize_instruction<S: Serializer>(
    alloc: Global,
    instruction: Instr,
    out: &mut S,
) -> Result<(), S::Error>
    ensures { OnOk result (SendsValue (instruction_data (instruction_of instruction))
        (S.written out.old) (S.written out.new)) }
{
    match instruction {
        Instr::Test { set, terminal } => serialize_test(alloc, &set, terminal, out),
        Instr::Call(rule) => serialize_numbered("call", rule, out),
        Instr::Ret => serialize_named("ret", out),
        Instr::Choice(target) => serialize_numbered("choice", target, out),
        Instr::Commit(target) => serialize_numbered("commit", target, out),
        Instr::FailTwice => serialize_named("failtwice", out),
        Instr::End => serialize_named("end", out),
    }
}

// Serializes an instruction without operands.
fn serialize_named<S: Serializer>(name: &str, out: &mut S) -> Result<(), S::Error>
    ensures { OnOk result (SendsValue (named_data name.now no_items) (S.written out.old) (S.written out.new)) }
{
    out.begin_seq(Some(1))?;
    out.str(name)?;
    out.end_seq()
}

// Serializes an instruction with one number.
fn serialize_numbered<S: Serializer>(name: &str, number: u32, out: &mut S) -> Result<(), S::Error>
    ensures { OnOk result (SendsValue (named_data name.now (numbered number)) (S.written out.old) (S.written out.new)) }
{
    out.begin_seq(Some(2))?;
    out.str(name)?;
    number.serialize(out)?;
    out.end_seq()
}

// Serializes a terminal test.
fn serialize_test<S: Serializer>(
    alloc: Global,
    set: &ByteSet,
    terminal: u32,
    out: &mut S,
) -> Result<(), S::Error>
    ensures { OnOk result (SendsValue (test_data (bytes_of set.now) terminal) (S.written out.old) (S.written out.new)) }
{
    out.begin_seq(Some(3))?;
    out.str("test")?;
    terminal.serialize(out)?;
    serialize_runs(alloc, set, out)?;
    out.end_seq()
}

// Serializes the runs of a set, in ascending order.
fn serialize_runs<S: Serializer>(alloc: Global, set: &ByteSet, out: &mut S) -> Result<(), S::Error>
    ensures { OnOk result (SendsValue (runs_data (bytes_of set.now)) (S.written out.old) (S.written out.new)) }
{
    match runs_of(alloc, set) {
        Ok(runs) => serialize_backwards(&runs, out),
        Err(_) => Err(out.custom("out of memory")),
    }
}

// Serializes runs from the last to the first.
fn serialize_backwards<S: Serializer>(runs: &[ByteRun], out: &mut S) -> Result<(), S::Error>
    ensures { OnOk result (SendsValue (array (items_of (map run_data (reverse (map byte_run_of runs.now)))))
        (S.written out.old) (S.written out.new)) }
{
    out.begin_seq(Some(runs.len()))?;
    for sent in 0..runs.len() {
        let at = runs.len() - 1 - sent;
        let run = runs[at];
        serialize_run(run, out)?;
    }
    out.end_seq()
}

// Serializes a run as the pair of its first and last byte.
fn serialize_run<S: Serializer>(run: ByteRun, out: &mut S) -> Result<(), S::Error>
    ensures { OnOk result (SendsValue (run_data (byte_run_of run)) (S.written out.old) (S.written out.new)) }
{
    out.begin_seq(Some(2))?;
    run.first.serialize(out)?;
    run.last.serialize(out)?;
    out.end_seq()
}
