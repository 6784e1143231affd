//! How far a connection has looked.
ghost use Rattle.std.specs.Prelude.{◌≡◌};
ghost use Rattle.ps_hall.specs.Halls.{first_cursor};

use ps_base::number::ConnNo;

/// How far a connection has looked into the hall.
#[derive(Clone, Copy, Debug, PartialEq, Eq)]
pub struct Cursor {
    pub(crate) conn: ConnNo,
    /// How many entries it has passed.
    pub(crate) at: usize,
}

impl Cursor {
    /// Before the first entry.
    pub fn new(conn: ConnNo) -> Cursor
        ensures { result ≡ first_cursor conn }
    {
        Cursor { conn, at: 0 }
    }
}
