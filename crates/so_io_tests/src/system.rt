//! Files, streams and the clock of the system.

use so_ids::Failed;
use so_io::{
    Clock, Files, ReadFail, RealClock, RealErr, RealFiles, RealOut, RealSink, Sink, put_all,
};
use std::cell::Cell;
use std::io::{ErrorKind, Write};
use std::test::Fail;
use std::time::Duration;
use std::{env, fs, io, process};

/// A stream that takes at most two bytes a call, is interrupted at call 1, and from `ends` on takes none or fails. It
/// keeps the bytes that it took.
#[derive(Drop)]
struct Slow<'a> {
    taken: &'a mut Vec<u8>,
    calls: u32,
    ends: u32,
    end: Option<ErrorKind>,
}

impl<'a> Write for Slow<'a> {
    fn write(&mut self, buf: &[u8]) -> io::Result<usize> {
        let call = self.calls;
        self.calls = call.saturating_add(1);
        if call == 1 {
            return Err(io::Error::from(ErrorKind::Interrupted));
        }
        if call >= self.ends {
            return match self.end {
                Some(kind) => Err(io::Error::from(kind)),
                None => Ok(0),
            };
        }
        let count = buf.len().min(2);
        self.taken.extend_from_slice(&buf[..count])?;
        Ok(count)
    }

    fn flush(&mut self) -> io::Result<()> {
        Ok(())
    }
}

/// At which call the stream ends and how, whether `hello` was written, and which bytes were taken.
static SLOW: [(u32, Option<ErrorKind>, bool, &str); 3] = [
    (9, None, true, "hello"),
    (3, None, false, "hell"),
    (2, Some(ErrorKind::BrokenPipe), false, "he"),
];

#[test]
fn a_short_write_goes_on_and_a_failed_one_leaves_a_part(rt: HostRuntime) {
    for (ends, end, is_whole, text) in SLOW.iter() {
        let mut taken = Vec::new(rt.alloc());
        let mut sink = RealSink::new(Slow {
            taken: &mut taken,
            calls: 0,
            ends: *ends,
            end: *end,
        });
        assert!(rt; put_all(&mut sink, b"hello").is_ok() == *is_whole);
        assert!(rt; taken.as_slice() == text.as_bytes());
    }
}

#[test]
fn standard_output_and_error_take_bytes(rt: HostRuntime) {
    assert!(rt; RealOut::new(rt.stdout()).write(b"\n") == Ok(1));
    assert!(rt; RealErr::new(rt.stderr()).write(b"\n") == Ok(1));
}

/// A system's clock that goes on by 10 ms a reading and can't be read at some of them.
#[derive(Drop)]
struct Ticking {
    reading: Cell<u64>,
    fails: [u64; 2],
}

impl std::rt::Clock for Ticking {
    fn monotonic(&self) -> io::Result<Duration> {
        let reading = self.reading.get();
        self.reading.set(reading.saturating_add(1));
        if self.fails.contains(&reading) {
            return Err(io::Error::from(io::ErrorKind::Other));
        }
        Ok(Duration::from_millis(reading.saturating_mul(10)))
    }

    fn since_1970(&self) -> io::Result<Duration> {
        self.monotonic()
    }
}

#[test]
fn a_clock_gives_its_last_reading_where_the_system_gives_none(rt: HostRuntime) {
    for (fails, readings) in [([2, 4], [10, 10, 30, 30, 50]), ([0, 1], [0, 0, 10, 20, 30])] {
        let system = Ticking {
            reading: Cell::new(0),
            fails,
        };
        let mut clock = RealClock::new(&system);
        for reading in readings {
            assert!(rt; clock.now() == reading);
        }
    }
}

#[test]
fn a_clock_goes_on_while_it_pauses(rt: HostRuntime) {
    let mut clock = RealClock::new(&rt);
    let before = clock.now();
    clock.pause(&rt, 20);
    assert!(rt; clock.now().saturating_sub(before) >= 20);
}

#[test]
fn files_are_read_up_to_so_many_bytes(rt: HostRuntime) -> Result<(), Fail> {
    let alloc = rt.alloc();
    let name = format!(in alloc; "so_io-{}", process::id(rt.process()))?;
    let path = env::temp_dir(&rt)?.join(alloc, name.as_str())?;
    let path = path.to_str().ok_or("no text")?;
    let content = vec![in alloc; 7; 5000]?;
    fs::write(&rt, path, content.as_slice())?;
    let mut files = RealFiles::new(&rt);
    let exactly = files.read_all(alloc, path, 5000);
    let one_over = files.read_all(alloc, path, 4999);
    fs::remove_file(&rt, path)?;
    let gone = files.read_all(alloc, path, 5000);
    assert!(rt; exactly == Ok(content));
    assert!(rt; one_over == Err(ReadFail::TooLong));
    assert!(rt; gone == Err(ReadFail::Failed));
    Ok(())
}
