//! Faults of the reader by the metagrammar, which no run of the program calls. Where it returns definitions, they are
//! those of the other reader (`peg_parser::laws::both_readers_agree`).
use peg_fixtures::nest_rule;
use peg_tool::{FigureFault, read_by_figure};
use std::alloc::Global;
use std::test::Fail;

// The fault of a file, or none.
fn fault_of(alloc: Global, file: &[u8]) -> Option<FigureFault> {
    read_by_figure(alloc, file).err()
}

const NO_MATCH: Option<FigureFault> = Some(FigureFault::NotInFigure);

fn bad_count(at: u32) -> Option<FigureFault> {
    Some(FigureFault::BadCount { at })
}

// A file that the metagrammar doesn't match has no count out of range.
#[test]
fn the_metagrammar_refuses_a_file(rt: HostRuntime) {
    let cases: [(&[u8], Option<FigureFault>); 9] = [
        (b"", NO_MATCH),
        (b"A <- 'x' #end", NO_MATCH),
        (b"A <- 'x'{0} )", NO_MATCH),
        (b"A <- 'x'{1,255}\n", None),
        (b"A <- 'x'{1,256}", bad_count(8)),
        (b"A <- ('x'{2}'y'{300}){0}", bad_count(15)),
        (
            b"A <- 'x'{1,00000255} B <- 'y'{18446744073709551616}",
            bad_count(29),
        ),
        (b"A <- (('x'{5,4})+){2}", bad_count(10)),
        (b"# {0}\nA <- '{0}' [{0}]{4,3}", bad_count(22)),
    ];
    for (file, wanted) in cases {
        assert_eq!(rt; fault_of(rt.alloc(), file), wanted, "{file:?}");
    }
}

// Too many open parentheses are reported before a count.
#[test]
fn the_metagrammar_has_a_limit_of_parentheses(rt: HostRuntime) -> Result<(), Fail> {
    for (count, wanted) in [(200, bad_count(408)), (201, Some(FigureFault::TooNested))] {
        let mut file = nest_rule(rt.alloc(), count, b"'a'", ")")?;
        file.extend_from_slice(b"{0}")?;
        assert_eq!(rt; fault_of(rt.alloc(), &file), wanted);
    }
    Ok(())
}

#[test]
fn the_metagrammar_has_a_limit_of_bytes(rt: HostRuntime) -> Result<(), Fail> {
    for (count, wanted) in [
        (1_048_576, NO_MATCH),
        (1_048_577, Some(FigureFault::FileTooLong)),
    ] {
        let spaces = vec![in rt.alloc(); b' '; count]?;
        assert_eq!(rt; fault_of(rt.alloc(), &spaces), wanted);
    }
    Ok(())
}
