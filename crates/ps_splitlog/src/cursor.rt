//! How far a connection has read.
ghost use Rattle.std.specs.Prelude.{◌≡◌};
ghost use Rattle.ps_splitlog.specs.Reads.{first_cursor};

use ps_base::number::ConnNo;
use ps_view::role::Role;

/// How far a connection has read a log.
#[derive(Clone, Copy, Debug, PartialEq, Eq)]
pub struct Cursor {
    pub(crate) conn: ConnNo,
    /// How many entries it has passed.
    pub(crate) at: usize,
    /// The connection's role after these.
    pub(crate) role: Role,
}

impl Cursor {
    /// Before the first entry, where a connection is no member.
    pub fn new(conn: ConnNo) -> Cursor
        ensures { result ≡ first_cursor conn }
    {
        Cursor {
            conn,
            at: 0,
            role: Role::Outside,
        }
    }
}
