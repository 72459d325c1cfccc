//! Files, a sink and a clock in memory, and what a gate and a sink without content do.

use so_ids::{Failed, LaneId, Place};
use so_io::{
    Clock, Files, Gate, ListClock, MemFiles, MemSink, NeverFails, OpenGate, ReadFail, Sink, put_all,
};
use std::alloc::Global;
use std::sync::Wait;
use std::test::Fail;

/// Pieces written to a sink of five bytes whose calls 1 and 2 fail, and how many bytes of each it takes.
static WRITES: [(&str, Result<usize, Failed>); 6] = [
    ("abc", Ok(3)),
    ("d", Err(Failed)),
    ("d", Err(Failed)),
    ("def", Err(Failed)),
    ("de", Ok(2)),
    ("f", Err(Failed)),
];

#[test]
fn a_sink_takes_pieces_whole_up_to_its_capacity(rt: HostRuntime) -> Result<(), Fail> {
    let fails = vec![in rt.alloc(); 1, 2]?;
    let mut sink = MemSink::new(rt.alloc(), 5, fails).map_err(|_| "no memory")?;
    for (call, (piece, want)) in WRITES.iter().enumerate() {
        assert!(rt; sink.write(piece.as_bytes()) == *want, "call {call}");
    }
    assert!(rt; put_all(&mut sink, b"g").is_err());
    assert!(rt; sink.bytes() == b"abcde".as_slice());
    Ok(())
}

/// A name that is read, the greatest length, and what of the files `a` with `hello`, another `a`, and an empty `b` is
/// read, where calls 1 and 4 fail.
static READS: [(&str, usize, Result<&str, ReadFail>); 7] = [
    ("a", 5, Ok("hello")),
    ("a", 5, Err(ReadFail::Failed)),
    ("a", 4, Err(ReadFail::TooLong)),
    ("c", 9, Err(ReadFail::Failed)),
    ("a", 4, Err(ReadFail::TooLong)),
    ("b", 0, Ok("")),
    ("a", 6, Ok("hello")),
];

fn file(alloc: Global, name: &str, content: &str) -> Result<(String, Vec<u8>), Fail> {
    Ok((
        String::from_str(alloc, name)?,
        Vec::from_slice(alloc, content.as_bytes())?,
    ))
}

#[test]
fn files_answer_by_name_length_and_number_of_call(rt: HostRuntime) -> Result<(), Fail> {
    let alloc = rt.alloc();
    let contents = vec![in alloc;
        file(alloc, "a", "hello")?,
        file(alloc, "a", "other")?,
        file(alloc, "b", "")?,
    ]?;
    let mut files = MemFiles::new(contents, vec![in alloc; 1, 4]?);
    for (call, (path, max, want)) in READS.iter().enumerate() {
        let answer = files.read_all(alloc, path, *max);
        let is_wanted = match (&answer, want) {
            (Ok(bytes), Ok(text)) => bytes.as_slice() == text.as_bytes(),
            (Err(why), Err(wanted)) => *why == *wanted,
            _ => false,
        };
        assert!(rt; is_wanted, "call {call}");
    }
    Ok(())
}

#[test]
fn a_clock_gives_its_list_and_then_its_last_reading(rt: HostRuntime) -> Result<(), Fail> {
    let readings = vec![in rt.alloc(); 5, 7, 20]?;
    assert!(rt; !readings.is_empty());
    let mut clock = ListClock::new(readings);
    for reading in [5, 7, 20, 20, 20] {
        clock.pause(&rt, 1);
        assert!(rt; clock.now() == reading);
    }
    Ok(())
}

#[test]
fn a_sink_that_never_fails_takes_all(rt: HostRuntime) {
    let mut sink = NeverFails::new();
    assert!(rt; sink.write(b"abc") == Ok(3));
    assert!(rt; put_all(&mut sink, b"abc").is_ok());
    assert!(rt; put_all(&mut sink, b"").is_ok());
}

fn pass_in_any_thread<R: Wait, G: Gate + Sync>(rt: &R, gate: &G) {
    gate.pass(rt, LaneId(1), Place(2));
}

#[test]
fn an_open_gate_holds_nobody_up(rt: HostRuntime) {
    pass_in_any_thread(&rt, &OpenGate::new());
}
