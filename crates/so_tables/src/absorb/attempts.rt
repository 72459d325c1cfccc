//! Main's attempts absorb an entry.

ghost use Rattle.std.specs.Prelude.{◌≡◌};
ghost use Rattle.so_tables.specs.AfterAttempts.{MayAbsorb, after_entry};

use crate::attempts::Attempts;
use so_history::EntryKind;

/// Main's registrations after an entry.
pub(crate) fn absorb_attempts(attempts: &mut Attempts, kind: EntryKind)
    requires { MayAbsorb kind attempts.old }
    ensures { attempts.new ≡ after_entry kind attempts.old }
{
    match kind {
        EntryKind::Register { coop } | EntryKind::Refuse { coop, cause: _ } => attempts.tried(coop),
        _ => {}
    }
}
