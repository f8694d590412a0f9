//! Nodes in compact form.
ghost use Rattle.std.specs.Prelude.{◌≡◌, ◌<◌, ◌≤◌, [], ◌∷◌, ◌++◌, length, option_map, slice_get};
ghost use Rattle.std.specs.Prelude.{IfOk, OnErr, OnOk, Some};
ghost use Rattle.peg_core.specs.Layout.{max_forms};
ghost use Rattle.peg_bytes.specs.SetPool.{AddsSets};
ghost use Rattle.peg_core.specs.Slots.{SlotFits, unpacked_slot};

use crate::node::{Entry, Node};
use peg_bytes::{SetPool, Span};
use std::alloc::{AllocError, Global};
use std::marker::Model;

/// A node in 12 bytes. A set is stored by its index in a list of sets.
#[derive(Clone, Copy, Debug)]
pub(crate) enum Slot {
    Empty,
    Test { set: u32, terminal: u32 },
    Rule(u32),
    Seq(u32, u32),
    Choice(u32, u32),
    Star(u32),
    Not(u32),
}

/// A slot, and the span of the written star or plus of a star.
#[derive(Clone, Copy, Debug)]
pub(crate) struct PackedEntry {
    slot: Slot,
    origin: Span,
}

const _: () = prove!(size_of::<PackedEntry>() == 20);

/// Nodes, with their sets in a separate list. A set that equals the last one of the list isn't stored again.
#[derive(Debug, Drop)]
pub(crate) struct PackedNodes {
    slots: Vec<PackedEntry>,
    sets: SetPool,
}

impl Model for PackedNodes {
    ghost use Rattle.std.specs.Prelude.{List};
    ghost use Rattle.peg_core.specs.declared.node.Entry.{Entry};

    ghost Value = { List Entry };

    ghost use Rattle.peg_core.specs.Slots.{unpacked, IsPacked};

    ghost view = { λ packed. unpacked packed.sets packed.slots.items };

    ghost invariant = { IsPacked };
}

impl PackedNodes {
    /// Returns an empty list.
    pub(crate) fn new(alloc: Global) -> PackedNodes
        ensures { result ≡ [] }
    {
        PackedNodes {
            slots: Vec::new(alloc),
            sets: SetPool::new(alloc),
        }
    }

    /// Returns the number of nodes. Takes constant time.
    pub(crate) fn len(&self) -> usize
        ensures { result ≡ length self.now }
    {
        self.slots.len()
    }

    /// Appends a node. The only error is a failed allocation, which leaves the list as it was.
    pub(crate) fn push(&mut self, next: Entry) -> Result<(), AllocError>
        requires { length self.old < max_forms }
        ensures added { OnOk result (self.new ≡ self.old ++ next ∷ []) }
        ensures unchanged { OnErr result (self.new ≡ self.old) }
    {
        // Reserves the slot first, so that a failed allocation leaves no set without its node.
        self.slots.reserve(1)?;
        let slot = slot_of(&mut self.sets, next.node)?;
        self.slots.push(PackedEntry {
            slot,
            origin: next.origin,
        })?;
        Ok(())
    }

    /// Returns the node with a number. Takes constant time.
    pub(crate) fn node(&self, number: u32) -> Node
        requires { number < length self.now }
        ensures { option_map (λ found. found.node) (slice_get self.now number) ≡ Some result }
    {
        match self.slots[number as usize].slot {
            Slot::Empty => Node::Empty,
            Slot::Test { set, terminal } => Node::Test {
                set: *self.sets.get(set),
                terminal,
            },
            Slot::Rule(rule) => Node::Rule(rule),
            Slot::Seq(first, rest) => Node::Seq(first, rest),
            Slot::Choice(first, rest) => Node::Choice(first, rest),
            Slot::Star(part) => Node::Star(part),
            Slot::Not(part) => Node::Not(part),
        }
    }

    /// Returns the span of the node with a number. Takes constant time.
    pub(crate) fn origin(&self, number: u32) -> Span
        requires { number < length self.now }
        ensures { option_map (λ found. found.origin) (slice_get self.now number) ≡ Some result }
    {
        self.slots[number as usize].origin
    }
}

// The slot of a node. Its set is added to `sets`.
fn slot_of(sets: &mut SetPool, node: Node) -> Result<Slot, AllocError>
    requires { length sets.old ≤ max_forms }
    ensures added { OnOk result (AddsSets sets.old sets.new) }
    ensures unchanged { OnErr result (sets.new ≡ sets.old) }
    ensures fits { IfOk result (λ slot. SlotFits (length sets.new) slot) }
    ensures slot { IfOk result (λ slot. unpacked_slot sets.new slot ≡ node) }
{
    Ok(match node {
        Node::Empty => Slot::Empty,
        Node::Test { set, terminal } => Slot::Test {
            set: sets.add(set)?,
            terminal,
        },
        Node::Rule(rule) => Slot::Rule(rule),
        Node::Seq(first, rest) => Slot::Seq(first, rest),
        Node::Choice(first, rest) => Slot::Choice(first, rest),
        Node::Star(part) => Slot::Star(part),
        Node::Not(part) => Slot::Not(part),
    })
}
