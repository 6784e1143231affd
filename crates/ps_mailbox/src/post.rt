//! What is posted to a room.
use ps_base::badge::Badge;
use ps_base::number::{ConnNo, Moment};
use ps_lines::command::Command;

/// A command to a room, before it is an entry: which connection sends it, as whom, and when.
#[derive(Debug, Drop)]
pub struct Post {
    pub conn: ConnNo,
    pub badge: Badge,
    pub moment: Moment,
    pub cmd: Command,
}
