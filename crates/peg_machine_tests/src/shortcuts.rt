//! Tables of shortcuts, worked out by hand.
use crate::programs::program_of;
use peg_shortcut::{CallMode, Lookup, Shortcuts};
use std::test::Fail;

// Whether the table has a shortcut from an instruction on a byte.
fn is_found(shortcuts: &Shortcuts<'_>, pc: u32, byte: u8) -> bool {
    matches!(shortcuts.lookup(pc, byte), Lookup::Found(_))
}

// Whether the shortcut from an instruction on a byte hasn't been computed yet.
fn is_unmet(shortcuts: &Shortcuts<'_>, pc: u32, byte: u8) -> bool {
    matches!(shortcuts.lookup(pc, byte), Lookup::Unmet)
}

// Whether the shortcut from the first instruction on a byte is known on another one.
fn is_shared(shortcuts: &Shortcuts<'_>, byte: u8, other: u8) -> bool {
    match shortcuts.lookup(1, byte) {
        Lookup::Found(cached) => cached.bytes.contains(other),
        Lookup::Unmet | Lookup::None => false,
    }
}

// A table of the first two instructions of a star over two bytes; on both of them the same is done.
#[test]
fn a_table_knows_what_it_has_found(rt: HostRuntime) -> Result<(), Fail> {
    let program = program_of(rt.alloc(), b"S <- [ab]*")?;
    let mut shortcuts = Shortcuts::new(rt.alloc(), &program, 2, CallMode::Stop);
    assert!(rt; is_unmet(&shortcuts, 1, b'a') && shortcuts.may_have(1) && !shortcuts.may_have(2));
    for byte in [b'a', b'b', b'c', b'd'] {
        shortcuts.find(1, byte);
        assert!(rt; is_found(&shortcuts, 1, byte) && is_unmet(&shortcuts, 1, b'e'));
    }
    for (byte, other, shared) in [(b'a', b'b', true), (b'c', b'd', true), (b'a', b'c', false)] {
        assert_eq!(rt; is_shared(&shortcuts, byte, other), shared);
    }
    shortcuts.find(2, b'a');
    assert!(rt; matches!(shortcuts.lookup(2, b'a'), Lookup::None));
    Ok(())
}

// With a threshold of one, the second meeting of an instruction and a byte computes their shortcut.
#[test]
fn a_table_finds_a_shortcut_after_its_threshold(rt: HostRuntime) -> Result<(), Fail> {
    let program = program_of(rt.alloc(), b"S <- [ab]*")?;
    let mut late = Shortcuts::new(rt.alloc(), &program, 2, CallMode::Stop).with_threshold(1);
    late.record_hit(1, b'a');
    assert!(rt; is_unmet(&late, 1, b'a'));
    late.record_hit(1, b'a');
    assert!(rt; is_found(&late, 1, b'a') && is_unmet(&late, 1, b'c'));
    Ok(())
}
