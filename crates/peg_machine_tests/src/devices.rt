//! Devices that pass bytes on, that signals interrupt, and that fail in mid-stream.
use peg_io::{Device, DeviceFault, ReadFault, Source, read_up_to, write_all_bytes};
use std::alloc::Global;
use std::io;
use std::io::{ErrorKind, Read, Write};

// A device that passes on one byte a call, after each `signals` calls that signals interrupt. After `left` bytes reads
// fail, and writes accept no byte.
#[derive(Drop)]
struct Slow {
    signals: u32,
    // The number of calls since the last byte.
    calls: u32,
    left: u32,
    taken: Vec<u8>,
}

impl Slow {
    fn new(alloc: Global, signals: u32, left: u32) -> Slow {
        let (calls, taken) = (0, Vec::new(alloc));
        Slow {
            signals,
            calls,
            left,
            taken,
        }
    }

    // Counts a call. Fails if a signal interrupts it.
    fn call(&mut self) -> io::Result<()> {
        if self.calls < self.signals {
            self.calls = self.calls.saturating_add(1);
            return Err(io::Error::from(ErrorKind::Interrupted));
        }
        self.calls = 0;
        Ok(())
    }
}

impl Read for Slow {
    fn read(&mut self, buf: &mut [u8]) -> io::Result<usize> {
        match buf.first_mut() {
            Some(byte) => {
                self.call()?;
                if self.left == 0 {
                    return Err(io::Error::other("broken"));
                }
                self.left -= 1;
                *byte = b'i';
                Ok(1)
            }
            None => Ok(0),
        }
    }
}

impl Write for Slow {
    fn write(&mut self, buf: &[u8]) -> io::Result<usize> {
        match buf.first() {
            Some(byte) => {
                self.call()?;
                if self.left == 0 {
                    return Ok(0);
                }
                self.left -= 1;
                self.taken.push(*byte)?;
                Ok(1)
            }
            None => Ok(0),
        }
    }

    fn flush(&mut self) -> io::Result<()> {
        Ok(())
    }
}

// Reads five bytes. Returns the fault, and whether the source has failed.
fn read_five(alloc: Global, signals: u32, left: u32) -> (Option<ReadFault>, bool) {
    let mut source = Device::new(Slow::new(alloc, signals, left));
    let fault = read_up_to(alloc, &mut source, 5).err();
    (fault, Source::failed(&source))
}

// A signal's interruption is repeated, but not without an end.
#[test]
fn a_read_fails_in_mid_stream_or_is_repeated(rt: HostRuntime) {
    for (signals, left, wanted) in [
        (1000, 5, None),
        (0, 3, Some(ReadFault::Device)),
        (u32::MAX, 5, Some(ReadFault::Device)),
    ] {
        let (fault, failed) = read_five(rt.alloc(), signals, left);
        assert_eq!(rt; fault, wanted, "of {signals} signals");
        assert_eq!(rt; failed, wanted.is_some());
    }
}

// Writes three bytes.
fn write_abc(writer: &mut Slow) -> Result<(), DeviceFault> {
    write_all_bytes(&mut Device::new(writer), b"abc")
}

// A write that fails leaves a prefix. A write that accepts no byte has failed.
#[test]
fn a_write_fails_in_mid_stream_or_is_repeated(rt: HostRuntime) {
    let cases: [(u32, u32, Result<(), DeviceFault>, &[u8]); 3] = [
        (1000, 5, Ok(()), b"abc"),
        (0, 2, Err(DeviceFault), b"ab"),
        (u32::MAX, 5, Err(DeviceFault), b""),
    ];
    for (signals, left, wanted, taken) in cases {
        let mut writer = Slow::new(rt.alloc(), signals, left);
        assert_eq!(rt; write_abc(&mut writer), wanted);
        assert_eq!(rt; writer.taken.as_slice(), taken);
    }
}
