//! Calls that no run of the program makes. `tests/oom/each_test.py` makes each of their allocations fail.
use peg_json::{answer_json, long_text_line, no_coverage_line, push_record_line, step_limit_line};
use peg_parser::{ParseOptions, Parser, read_by_figure};
use std::alloc::Global;
use std::test::Fail;

#[test]
fn the_metagrammar_reads_a_file(rt: HostRuntime) -> Result<(), Fail> {
    let rules = read_by_figure(rt.alloc(), b"S <- 'a' T{2}\nT <- [b-c]*\n")?;
    assert_eq!(rt; rules.len(), 2);
    Ok(())
}

// The answer of a parse as JSON; an error where memory runs out.
fn answer_text(alloc: Global, parser: &Parser, text: &[u8]) -> Result<String, Fail> {
    let options = ParseOptions {
        start: None,
        memo: 0,
        steps: None,
    };
    let answer = parser.parse(alloc, text, &options)?;
    let length = u32::try_from(text.len()).ok().ok_or("a short text")?;
    Ok(answer_json(alloc, parser, &answer, length, false, true)?)
}

#[test]
fn an_answer_is_printed(rt: HostRuntime) -> Result<(), Fail> {
    let alloc = rt.alloc();
    let parser = Parser::from_file(alloc, b"S <- 'a' S / 'b'\n")?;
    let text = answer_text(alloc, &parser, b"ab")?;
    let wanted =
        "{\"consumed\":2,\"expected\":[[5,8]],\"far\":1,\"result\":\"matched\",\"rows\":[[1,\"S\",0,2],[2,\"S\",1,2]]}";
    assert!(rt; text.as_str() == wanted, "{text}");
    Ok(())
}

// Refusals whose causes are too large to refuse each allocation before them.
#[test]
fn refusals_for_limits_are_printed(rt: HostRuntime) -> Result<(), Fail> {
    let alloc = rt.alloc();
    assert_eq!(rt; long_text_line(alloc)?.status.code(), 6);
    assert_eq!(rt; no_coverage_line(alloc)?.status.code(), 6);
    Ok(())
}

// The line of a record is that of its reply, with its number as the first member.
#[test]
fn the_line_of_a_record_has_its_number(rt: HostRuntime) -> Result<(), Fail> {
    let alloc = rt.alloc();
    let mut lines = Vec::new(alloc);
    push_record_line(&mut lines, 1, long_text_line(alloc)?)?;
    push_record_line(&mut lines, 20, step_limit_line(alloc)?)?;
    let wanted =
        b"{\"record\":1,\"refusal\":\"TextTooLong\"}\n{\"record\":20,\"refusal\":\"StepLimit\"}\n";
    assert_eq!(rt; lines.as_slice(), wanted.as_slice());
    Ok(())
}
