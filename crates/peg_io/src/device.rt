//! Byte sources, byte sinks, and `Device`, which remembers a failed call.
ghost use Rattle.std.specs.Prelude.{◌≡◌, ℕ, ◌<◌, ◌≤◌, Bool, true};
ghost use Rattle.std.specs.Prelude.{false, List, Option, length, is_ok, is_some, IfOk, if◌then◌else◌};
ghost use Rattle.std.specs.Io.KnownBytes.{ReadConsumes, WriteAppends};
ghost use Rattle.std.specs.declared.io.ErrorKind.{ErrorKind};

use crate::retry::{read_again, write_again};
use std::io::{ErrorKind, Read, Write};
use thiserror::Error;

/// A read or a write failed.
#[derive(Clone, Copy, Debug, PartialEq, Eq, Error)]
#[error("a read or a write failed")]
pub struct DeviceFault;

/// A source of bytes. Once a read has failed, `failed` returns true from then on.
pub trait Source {
    // the bytes that later reads will return, if the source specifies them
    ghost left: { Self → Option (List ℕ) };

    // whether a read has failed
    ghost failed: { Self → Bool };

    // the kind of the error of the last read that failed
    ghost fault_kind: { Self → Option ErrorKind };

    // whether the source specifies that no read fails
    ghost never_fails: { Self → Bool } = { λ _. false };

    /// Reads bytes into the start of `piece` and returns their number. Returns 0 only at the end of the source. On an
    /// error no byte is taken from the source.
    fn read(&mut self, piece: &mut [u8]) -> Result<usize, DeviceFault>
        requires { 0 < length piece.old }
        ensures bound { IfOk result (λ count. count ≤ length piece.new) }
        ensures bytes { ReadConsumes (left self.old) (left self.new) result piece.new }
        ensures failed { failed self.new ≡ (if is_ok result then failed self.old else true) }
        ensures never { never_fails self.old ≡ true → (is_ok result ≡ true) × (never_fails self.new ≡ true) };

    /// Returns whether a read has failed.
    fn failed(&self) -> bool
        ensures { result ≡ failed self.now };

    /// Returns the kind of the error of the last read that failed, if one has failed.
    fn fault_kind(&self) -> Option<ErrorKind>
        ensures kind { result ≡ fault_kind self.now }
        ensures failed { is_some result ≡ failed self.now };
}

/// A sink for bytes. Once a write has failed, `failed` returns true from then on.
pub trait Sink {
    // the bytes that have been written, if the sink specifies them
    ghost written: { Self → Option (List ℕ) };

    // whether a write has failed
    ghost failed: { Self → Bool };

    // the kind of the error of the last write that failed
    ghost fault_kind: { Self → Option ErrorKind };

    /// Writes a nonempty prefix of `piece` and returns its length. On an error no byte is written.
    fn write(&mut self, piece: &[u8]) -> Result<usize, DeviceFault>
        requires { 0 < length piece.now }
        ensures bound { IfOk result (λ count. count ≤ length piece.now) }
        ensures some { IfOk result (λ count. 0 < count) }
        ensures bytes { WriteAppends (written self.old) (written self.new) result piece.now }
        ensures failed { failed self.new ≡ (if is_ok result then failed self.old else true) };

    /// Returns whether a write has failed.
    fn failed(&self) -> bool
        ensures { result ≡ failed self.now };

    /// Returns the kind of the error of the last write that failed, if one has failed. It is `BrokenPipe` if the reader
    /// of a pipe is gone.
    fn fault_kind(&self) -> Option<ErrorKind>
        ensures kind { result ≡ fault_kind self.now }
        ensures failed { is_some result ≡ failed self.now };
}

/// A standard reader or writer that remembers whether a call has failed. A call that a signal interrupts is repeated. A
/// write of 0 bytes counts as a failure.
#[derive(Drop)]
pub struct Device<D> {
    inner: D,
    fault: Option<ErrorKind>,
}

impl<D> Device<D> {
    ghost use Rattle.std.specs.Prelude.{◌≡◌, Some, true, false};
    ghost use Rattle.peg_io.specs.Device.{device_fault, inner_of, has_failed};

    /// Returns a device over `inner` that has not failed.
    pub fn new(inner: D) -> Device<D>
        ensures inner { inner_of result ≡ inner }
        ensures failed { has_failed result ≡ false }
    {
        Device { inner, fault: None }
    }

    fn has_failed(&self) -> bool
        ensures { result ≡ has_failed self.now }
    {
        self.fault.is_some()
    }

    // Records the failure and returns the error.
    fn fail(&mut self, kind: ErrorKind) -> DeviceFault
        ensures inner { inner_of self.new ≡ inner_of self.old }
        ensures failed { has_failed self.new ≡ true }
        ensures kind { device_fault self.new ≡ Some kind }
    {
        self.fault = Some(kind);
        DeviceFault
    }
}

impl<D: Read> Source for Device<D> {
    ghost use Rattle.peg_io.specs.Device.{device_fault, inner_of, has_failed};

    ghost left = { λ device. D.remaining (inner_of device) };

    ghost failed = { has_failed };

    ghost fault_kind = { device_fault };

    fn read(&mut self, piece: &mut [u8]) -> Result<usize, DeviceFault> {
        match read_again(&mut self.inner, piece) {
            Ok(count) => Ok(count),
            Err(kind) => Err(self.fail(kind)),
        }
    }

    fn failed(&self) -> bool {
        self.has_failed()
    }

    fn fault_kind(&self) -> Option<ErrorKind> {
        self.fault
    }
}

impl<D: Write> Sink for Device<D> {
    ghost use Rattle.peg_io.specs.Device.{device_fault, inner_of, has_failed};

    ghost written = { λ device. D.contents (inner_of device) };

    ghost failed = { has_failed };

    ghost fault_kind = { device_fault };

    fn write(&mut self, piece: &[u8]) -> Result<usize, DeviceFault> {
        match write_again(&mut self.inner, piece) {
            Ok(count) => Ok(count),
            Err(kind) => Err(self.fail(kind)),
        }
    }

    fn failed(&self) -> bool {
        self.has_failed()
    }

    fn fault_kind(&self) -> Option<ErrorKind> {
        self.fault
    }
}
