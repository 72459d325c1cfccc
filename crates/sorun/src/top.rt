//! The top call.

ghost use Rattle.std.specs.Prelude.{◌≡◌, ◌↔◌, ◌≤◌, ℕ, List};
ghost use Rattle.sorun.specs.Words.{texts};
ghost use Rattle.sorun.specs.Commands.{command_of};
ghost use Rattle.sorun.specs.Sentences.{IsFaultAt, AreRead};
ghost use Rattle.sorun.specs.Answers.{status_of, cause_line, entries_of, WordsAnswers, IsTold};
ghost use Rattle.sorun.specs.Exact.{IsExact, RunHasFacts};

use crate::answer::answer;
use crate::message::{entries_of, tell};
use crate::report::Report;
use so_env::Cause;
use so_io::{Files, Sink};
use std::alloc::Global;

/// Does what the words say: `check FILE` says how large the scene of a file is, `sim`, its options
/// and FILE simulate it, and `load K` simulates a ring of K agents and says how large its run is. It
/// always returns.
pub fn quiet<F: Files, K: Sink, E: Sink>(
    alloc: Global,
    words: &[String],
    files: &mut F,
    out: &mut K,
    err: &mut E,
) -> Report
    ensures status { result.status ≡ status_of result.cause }

    // The answer follows the command, the file, the bytes and the scene: where the scene is run, the
    // history is the chain of its first legal steps within the units, legal, and `out` got its text
    // in the mode; where it is checked, `out` got its line. A ring's history is such a chain too, and
    // `out` got its line.
    ensures answer { WordsAnswers (command_of (texts words.now)) (F.content files.old) result (F.faults files.old) (F.faults files.new)
        (K.content out.old) (K.content out.new) (K.faults out.old) (K.faults out.new) }

    // A history has all facts of a legal one: those of turns and demands, lanes, cooperations and agents' lives, and that
    // each entry is what the rules give then. None but a legal history has them.
    ensures facts { RunHasFacts result }

    // Each cause comes exactly where it should, and nothing else can come.
    ensures exact { IsExact (command_of (texts words.now)) (F.content files.old) result (F.faults files.old) (F.faults files.new)
        (K.content out.old) (K.content out.new) (K.faults out.old) (K.faults out.new) }

    // A fault of the words comes exactly where it is: at the first word with which they begin no
    // sentence. And exactly the sentences have a command, the one that they say.
    ensures usage { (k : ℕ) → (result.cause ≡ Cause.Usage k) ↔ IsFaultAt k (texts words.now) }
    ensures sentences { AreRead (texts words.now) }

    // `err` got the line of the cause.
    ensures told { IsTold (cause_line result.cause (entries_of result.history)) (E.content err.old) (E.content err.new) (E.faults err.old) (E.faults err.new) }

    // The files hold what they held.
    ensures kept { (name : List ℕ) → F.content files.new name ≡ F.content files.old name }
{
    let report = answer(alloc, words, files, out);
    tell(&report.cause, entries_of(&report.history), err);
    report
}
