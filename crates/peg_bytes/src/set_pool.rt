//! Byte sets by number.
ghost use Rattle.std.specs.Prelude.{◌≡◌, ◌<◌, ◌^◌, [], length, slice_get, IfOk, OnErr, OnOk, Some};
ghost use Rattle.peg_bytes.specs.SetPool.{AddsSets};

use crate::ByteSet;
use std::alloc::{AllocError, Global};
use std::marker::Model;

/// Byte sets by number, from 0. A set that equals the last one isn't stored again.
#[derive(Debug, Drop)]
pub struct SetPool {
    sets: Vec<ByteSet>,
}

impl Model for SetPool {
    ghost use Rattle.std.specs.Prelude.{List};
    ghost use Rattle.peg_bytes.specs.declared.byte_set.ByteSet.{ByteSet};

    ghost Value = { List ByteSet };

    ghost view = { λ pool. pool.sets.items };
}

impl SetPool {
    /// Returns a pool without sets.
    pub fn new(alloc: Global) -> SetPool
        ensures { result ≡ [] }
    {
        SetPool {
            sets: Vec::new(alloc),
        }
    }

    /// Returns the number of a set, which is appended unless the last set is equal. The only error is a failed
    /// allocation, which leaves the pool as it was. Takes amortized constant time.
    pub fn add(&mut self, set: ByteSet) -> Result<u32, AllocError>
        requires { length self.old < 2 ^ 32 }
        ensures added { OnOk result (AddsSets self.old self.new) }
        ensures unchanged { OnErr result (self.new ≡ self.old) }
        ensures number { IfOk result (λ number. slice_get self.new number ≡ Some set) }
    {
        let count = self.sets.len() as u32;
        if self.sets.last() == Some(&set) {
            return Ok(count - 1);
        }
        self.sets.push(set)?;
        Ok(count)
    }

    /// Returns the set with a number. Takes constant time.
    pub fn get(&self, number: u32) -> &ByteSet
        requires { number < length self.now }
        ensures { slice_get self.now number ≡ Some result.now }
    {
        &self.sets[number as usize]
    }
}
