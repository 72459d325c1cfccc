//! The line that a cause has on standard error.

ghost use Rattle.std.specs.Prelude.{◌≡◌, []};
ghost use Rattle.sorun.specs.Answers.{cause_line, fault_line, entries_of, IsTold};

use so_env::Cause;
use so_fault::{SceneFault, put_fault};
use so_history::History;
use so_io::{Sink, put_all};
use so_lines::{LineBuf, put, put_word};

/// How many entries a history has.
pub(crate) fn entries_of(history: &Option<History>) -> u32
    ensures { result ≡ entries_of history.now }
{
    match history {
        None => 0,
        Some(history) => history.len(),
    }
}

/// Writes the line of a cause. A fault of `err` changes nothing else.
pub(crate) fn tell<E: Sink>(cause: &Cause, entries: u32, err: &mut E)
    ensures { IsTold (cause_line cause.now entries) (E.content err.old) (E.content err.new) (E.faults err.old) (E.faults err.new) }
{
    let mut line = LineBuf::new();
    put_cause(&mut line, cause, entries);
    match put_all(err, line.as_slice()) {
        Ok(()) => {}
        Err(_) => {}
    }
}

/// Makes the line of a cause.
fn put_cause(line: &mut LineBuf, cause: &Cause, entries: u32)
    requires { line.old.items ≡ [] }
    ensures { line.new.items ≡ cause_line cause.now entries }
{
    match cause {
        Cause::Done => {}
        Cause::Usage(place) => {
            put_word(line, b"sorun: usage error at word ", *place);
            put(line, b"\n");
        }
        Cause::Limit => {
            put_word(line, b"sorun: limit reached after ", entries);
            put(line, b" entries\n");
        }
        Cause::Scene(fault) => put_scene_fault(line, fault),
        Cause::Aborted => put(line, b"sorun: aborted\n"),
        Cause::Read => put(line, b"sorun: cannot read file\n"),
        Cause::Long => put(line, b"sorun: file too long\n"),
        Cause::Memory => put(line, b"sorun: out of memory\n"),
        Cause::Write => put(line, b"sorun: write failed\n"),
    }
}

/// Makes the line of a fault of the scene.
fn put_scene_fault(line: &mut LineBuf, fault: &SceneFault)
    requires { line.old.items ≡ [] }
    ensures { line.new.items ≡ fault_line fault.now }
{
    put(line, b"sorun: scene: ");
    put_fault(line, fault);
    put(line, b"\n");
}
