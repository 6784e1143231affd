//! What is applied to a room.
use ps_base::badge::Badge;
use ps_base::number::{ConnNo, Moment};
use ps_lines::command::Command;

/// One command of one connection, with the badge that it brought and the moment.
#[derive(Debug, Drop)]
pub struct Entry {
    pub conn: ConnNo,
    /// A member's later badges aren't looked at: that of its Join counts.
    pub badge: Badge,
    pub moment: Moment,
    pub cmd: Command,
}
