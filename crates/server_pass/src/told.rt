//! Places that are told piece by piece.
ghost use Rattle.std.specs.Prelude.{◌≡◌};
ghost use Rattle.server_pass.specs.Tellings.{Telling, IsLawful};

use ps_base::msg::Msg;
use ps_histlock::Kept;

/// A value behind a lock whose messages are told piece by piece: a cursor counts the commands that it has passed, and may have
/// a bound past which nothing is pulled.
pub trait Told: Kept<Msg = Msg> {
    /// What is shown of a history, and where cursors stand.
    ghost telling: { Telling Self.Origin Self.Cmd Self.Cursor };

    /// How many commands a cursor has passed.
    fn passed(cursor: &Self::Cursor) -> u64
        ensures { result ≡ telling.passed cursor.now };

    /// Sets the bound of a cursor, or takes it off.
    fn bound(cursor: &mut Self::Cursor, until: Option<u64>)
        ensures { cursor.new ≡ telling.bounded until cursor.old };

    /// What is pulled is what is shown.
    ghost tells: { IsLawful Self.pulls telling };
}
