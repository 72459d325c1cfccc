//! The line that `check` prints of a scene.

ghost use Rattle.std.specs.Prelude.{◌≡◌, ◌+◌, ◌≤◌, ◌++◌};
ghost use Rattle.arrayvec.specs.ArrayVec.{array_vec_len};
ghost use Rattle.sorun.specs.Summary.{summary_line};

use so_lines::{LineBuf, put, put_word};
use so_scene::Scene;

/// Appends how many agents, cooperations and lanes the scene has.
pub(crate) fn put_summary(line: &mut LineBuf, scene: &Scene)
    requires { array_vec_len line.old + 65 ≤ 512 }
    ensures items { line.new.items ≡ line.old.items ++ summary_line scene.now }
    ensures len { array_vec_len line.new ≤ array_vec_len line.old + 65 }
{
    put_word(line, b"ok: ", scene.agents());
    put_word(line, b" agents, ", scene.coops());
    put_word(line, b" cooperations, ", scene.lanes());
    put(line, b" lanes\n");
}
