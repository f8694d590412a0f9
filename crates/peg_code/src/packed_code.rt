//! Instructions in compact form.
ghost use Rattle.std.specs.Prelude.{◌≡◌, ◌<◌, ◌≤◌, [], ◌∷◌, ◌++◌, length, slice_get, IfOk, OnErr, OnOk, Some};
ghost use Rattle.peg_code.specs.Compiled.{max_instructions};
ghost use Rattle.peg_code.specs.Instrs.{instruction_of};
ghost use Rattle.peg_code.specs.InstrRefs.{instruction_of_op};
ghost use Rattle.peg_bytes.specs.SetPool.{AddsSets};
ghost use Rattle.peg_code.specs.Slots.{CodeSlotFits, unpacked_instruction};

use crate::{Instr, InstrRef};
use peg_bytes::SetPool;
use std::alloc::{AllocError, Global};
use std::marker::Model;

/// An instruction in 12 bytes. A set is stored by its index in a list of sets.
#[derive(Clone, Copy, Debug)]
pub(crate) enum Slot {
    Test { set: u32, terminal: u32 },
    Call(u32),
    Ret,
    Choice(u32),
    Commit(u32),
    FailTwice,
    End,
}

const _: () = prove!(size_of::<Slot>() == 12);

/// Instructions, with their sets in a separate list. A set that equals the last one of the list isn't stored again.
#[derive(Debug, Drop)]
pub(crate) struct PackedCode {
    slots: Vec<Slot>,
    sets: SetPool,
}

impl Model for PackedCode {
    ghost use Rattle.std.specs.Prelude.{List};
    ghost use Rattle.std.specs.Coded.{coded_list};
    ghost use Rattle.peg_code.specs.CompiledCode.{instruction_code};
    ghost use Rattle.peg_code.specs.Instructions.{Instruction};

    ghost Value = { List Instruction };

    ghost coded = { coded_list instruction_code };

    ghost use Rattle.peg_code.specs.Slots.{unpacked_code, IsPackedCode};

    ghost view = { λ packed. unpacked_code packed.sets packed.slots.items };

    ghost invariant = { IsPackedCode };
}

impl PackedCode {
    /// Returns an empty list with memory for `capacity` instructions.
    pub(crate) fn with_capacity(alloc: Global, capacity: usize) -> Result<PackedCode, AllocError>
        ensures { IfOk result (λ code. code ≡ []) }
    {
        Ok(PackedCode {
            slots: Vec::with_capacity(alloc, capacity)?,
            sets: SetPool::new(alloc),
        })
    }

    /// Returns the number of instructions. Takes constant time.
    pub(crate) fn len(&self) -> usize
        ensures { result ≡ length self.now }
    {
        self.slots.len()
    }

    /// Appends an instruction. The only error is a failed allocation.
    pub(crate) fn push(&mut self, instr: Instr) -> Result<(), AllocError>
        requires { length self.old < max_instructions }
        ensures { OnOk result (self.new ≡ self.old ++ instruction_of instr ∷ []) }
    {
        // Reserves the slot first, so that a failed allocation leaves no set without its instruction.
        self.slots.reserve(1)?;
        let slot = slot_of(&mut self.sets, instr)?;
        self.slots.push(slot)?;
        Ok(())
    }

    /// Returns the instruction with a number. Takes constant time.
    pub(crate) fn instr_ref(&self, pc: u32) -> InstrRef<'_>
        requires { pc < length self.now }
        ensures { slice_get self.now pc ≡ Some (instruction_of_op result) }
    {
        match self.slots[pc as usize] {
            Slot::Test { set, terminal } => InstrRef::Test {
                set: self.sets.get(set),
                terminal,
            },
            Slot::Call(rule) => InstrRef::Call(rule),
            Slot::Ret => InstrRef::Ret,
            Slot::Choice(target) => InstrRef::Choice(target),
            Slot::Commit(target) => InstrRef::Commit(target),
            Slot::FailTwice => InstrRef::FailTwice,
            Slot::End => InstrRef::End,
        }
    }
}

// The slot of an instruction. Its set is added to `sets`.
fn slot_of(sets: &mut SetPool, instr: Instr) -> Result<Slot, AllocError>
    requires { length sets.old ≤ max_instructions }
    ensures added { OnOk result (AddsSets sets.old sets.new) }
    ensures unchanged { OnErr result (sets.new ≡ sets.old) }
    ensures fits { IfOk result (λ slot. CodeSlotFits (length sets.new) slot) }
    ensures slot { IfOk result (λ slot. unpacked_instruction sets.new slot ≡ instruction_of instr) }
{
    Ok(match instr {
        Instr::Test { set, terminal } => Slot::Test {
            set: sets.add(set)?,
            terminal,
        },
        Instr::Call(rule) => Slot::Call(rule),
        Instr::Ret => Slot::Ret,
        Instr::Choice(target) => Slot::Choice(target),
        Instr::Commit(target) => Slot::Commit(target),
        Instr::FailTwice => Slot::FailTwice,
        Instr::End => Slot::End,
    })
}
