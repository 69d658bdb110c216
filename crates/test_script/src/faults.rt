// Runs that end midway.
use script_lines::{ScriptFault, script};
use std::io;
use std::io::{Read, Write};
use wire_http::{OverRead, OverWrite};

/// Returns its bytes one at a time, each line after this many interruptions, fails once at the cut,
/// and then goes on.
#[derive(Drop)]
struct Halting<'a> {
    bytes: &'a [u8],
    interruptions: u16,
    left: u16,
    cut: Option<usize>,
}

impl<'a> Read for Halting<'a> {
    fn read(&mut self, buf: &mut [u8]) -> io::Result<usize> {
        if self.cut == Some(self.bytes.len()) {
            self.cut = None;
            return Err(io::ErrorKind::Other.into());
        }
        if self.left > 0 {
            self.left -= 1;
            return Err(io::ErrorKind::Interrupted.into());
        }
        if self.bytes.is_empty() || buf.is_empty() {
            return Ok(0);
        }
        buf[0] = self.bytes[0];
        if self.bytes[0] == b'\n' {
            self.left = self.interruptions;
        }
        self.bytes = &self.bytes[1..];
        Ok(1)
    }
}

/// Takes at most this many bytes a call, and none any more once it is full.
#[derive(Drop)]
struct Filling {
    bytes: Vec<u8>,
    room: usize,
}

impl Write for Filling {
    fn write(&mut self, buf: &[u8]) -> io::Result<usize> {
        if buf.is_empty() || self.bytes.len() >= self.room {
            return Ok(0);
        }
        match self.bytes.push(buf[0]) {
            Ok(()) => Ok(1),
            Err(_) => Err(io::ErrorKind::OutOfMemory.into()),
        }
    }

    fn flush(&mut self) -> io::Result<()> {
        Ok(())
    }
}

#[test]
fn interruptions_are_counted_by_the_line(rt: HostRuntime) {
    for (interruptions, want) in [(1023, Ok(())), (1024, Err(ScriptFault::Read))] {
        let mut reader = OverRead::new(Halting {
            bytes: b"begin 1 0\nshow 1 1.1\nshow 1 1.1\n",
            interruptions,
            left: 0,
            cut: None,
        });
        let mut writer = OverWrite::new(Vec::new(rt.alloc()));
        assert_eq!(rt; script(rt.alloc(), &mut reader, &mut writer, 1), want);
    }
}

#[test]
fn a_reader_that_fails_in_mid_stream(rt: HostRuntime) {
    let input = b"begin 1 0\nclose 1 1.1\n";
    for cut in 0..=input.len() {
        let mut reader = OverRead::new(Halting {
            bytes: input,
            interruptions: 0,
            left: 0,
            cut: Some(cut),
        });
        let mut writer = OverWrite::new(Vec::new(rt.alloc()));
        assert_eq!(rt;
            script(rt.alloc(), &mut reader, &mut writer, 1),
            Err(ScriptFault::Read)
        );
        // `cut` is the number of bytes left when the read fails; the second line has 12.
        let whole: &[u8] = match cut {
            0 => b"began 1.1\nClosed\n",
            1..=12 => b"began 1.1\n",
            _ => b"",
        };
        assert!(rt; writer.into_inner().as_slice() == whole, "{cut}");
    }
}

#[test]
fn a_writer_that_fails_in_mid_stream(rt: HostRuntime) {
    let output = b"began 1.1\nClosed\n";
    for room in 0..output.len() {
        let mut reader = OverRead::new(b"begin 1 0\nclose 1 1.1\n".as_slice());
        let mut writer = OverWrite::new(Filling {
            bytes: Vec::new(rt.alloc()),
            room,
        });
        assert_eq!(rt;
            script(rt.alloc(), &mut reader, &mut writer, 1),
            Err(ScriptFault::Write)
        );
        assert!(rt;
            writer.into_inner().bytes.as_slice() == &output[..room],
            "{room}"
        );
    }
}

/// Takes all bytes, flushes them this many times, and then fails once.
#[derive(Drop)]
struct Stalling {
    bytes: Vec<u8>,
    flushes: u16,
    failed: bool,
    again: bool,
}

impl Stalling {
    fn turn(&mut self) {
        if self.failed {
            self.again = true;
        }
    }
}

impl Write for Stalling {
    fn write(&mut self, buf: &[u8]) -> io::Result<usize> {
        self.turn();
        self.bytes.extend_from_slice(buf)?;
        Ok(buf.len())
    }

    fn flush(&mut self) -> io::Result<()> {
        self.turn();
        if self.flushes == 0 && !self.failed {
            self.failed = true;
            return Err(io::ErrorKind::BrokenPipe.into());
        }
        self.flushes = self.flushes.saturating_sub(1);
        Ok(())
    }
}

// What each line prints is flushed before the next line is read, and no call is made after a
// failure.
#[test]
fn a_writer_that_passes_nothing_on(rt: HostRuntime) {
    let outputs: [&[u8]; 3] = [
        b"began 1.1\n",
        b"began 1.1\nClosed\n",
        b"began 1.1\nClosed\n",
    ];
    let mut flushes = 0;
    for output in outputs {
        let mut reader = OverRead::new(b"begin 1 0\nclose 1 1.1\n".as_slice());
        let mut writer = OverWrite::new(Stalling {
            bytes: Vec::new(rt.alloc()),
            flushes,
            failed: false,
            again: false,
        });
        assert_eq!(rt;
            script(rt.alloc(), &mut reader, &mut writer, 1),
            Err(ScriptFault::Write)
        );
        let stalling = writer.into_inner();
        assert!(rt; stalling.failed && !stalling.again, "{flushes}");
        assert!(rt; stalling.bytes.as_slice() == output, "{flushes}");
        flushes = flushes.saturating_add(1);
    }
}
