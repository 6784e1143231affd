//! Entries of the hall.
use ps_base::number::{ConnNo, Moment};
use ps_lines::command::HallCmd;

/// One command of one connection for the hall.
#[derive(Debug, Drop)]
pub struct HallEntry {
    pub conn: ConnNo,
    pub moment: Moment,
    pub cmd: HallCmd,
}
