//! What an entry tells.
use ps_base::list::List;
use ps_base::number::ConnNo;
use ps_base::text::Text;

/// Lines of one entry for one connection.
#[derive(Debug, Drop)]
pub struct Notice {
    pub conn: ConnNo,
    pub lines: List<Text>,
}
