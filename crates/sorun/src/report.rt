//! What the program did, and its exit status.

ghost use Rattle.std.specs.Prelude.{◌≡◌, None};
ghost use Rattle.sorun.specs.Answers.{status_of};

use so_env::Cause;
use so_history::History;
use so_scene::Scene;

/// What the program did.
#[derive(Drop)]
pub struct Report {
    /// The exit status that the cause has.
    pub status: u8,
    pub cause: Cause,
    /// The scene, exactly where the file's bytes gave one or a ring was made.
    pub scene: Option<Scene>,
    /// The history, where the scene was run.
    pub history: Option<History>,
    /// How many pieces were handed to the output.
    pub pieces: u64,
}

/// The exit status of a cause.
pub(crate) fn status_of(cause: &Cause) -> u8
    ensures { result ≡ status_of cause.now }
{
    match cause {
        Cause::Done => 0,
        Cause::Usage(_) => 2,
        Cause::Limit => 3,
        Cause::Aborted => 5,
        Cause::Scene(_) => 65,
        Cause::Read => 66,
        Cause::Long => 66,
        Cause::Memory => 71,
        Cause::Write => 74,
    }
}

/// The report where nothing was run.
pub(crate) fn refused(cause: Cause) -> Report
    ensures status { result.status ≡ status_of result.cause }
    ensures cause { result.cause ≡ cause }
    ensures scene { result.scene ≡ None }
    ensures history { result.history ≡ None }
    ensures pieces { result.pieces ≡ 0 }
{
    Report {
        status: status_of(&cause),
        cause,
        scene: None,
        history: None,
        pieces: 0,
    }
}
