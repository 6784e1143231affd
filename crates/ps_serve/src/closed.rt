//! How a session ended.
use ps_base::text::Text;
use ps_hub::pass::HallPass;
use ps_hub::passes::Passes;

/// Why a session ended.
#[derive(Debug, Drop)]
pub enum End {
    /// The client closed the link.
    Closed,
    /// The link failed.
    LinkFault,
    /// A text more than `MOST_TEXTS` came for a room, which is named by its id, or for the hall (`None`).
    OwnLimit { room: Option<Text> },
    /// A text of more than 8,192 bytes, or one that is no UTF-8, came: its bytes.
    BadText { bytes: Vec<u8> },
    /// At the hall or a room stood an entry under the number of the connection that none of its passes had made. It breaks the
    /// session off as want of memory does.
    Taken,
    /// Memory was wanting.
    NoMemory,
}

/// The end of a session.
pub struct Closed {
    /// Why it ended.
    pub end: End,
    /// What the connection had of the hub, after its Quits.
    pub passes: Passes,
    /// The pass that was to make its Open, where an entry stood under its number already.
    pub refused: Option<HallPass>,
}

// By hand, so that who drops one has one call to prove.
impl Drop for Closed {
    fn drop(self) {
        let Closed {
            end: _,
            passes: _,
            refused: _,
        } = self;
    }
}
