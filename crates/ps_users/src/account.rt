//! Registered names.
use ps_base::text::Text;

/// What is known of a registered name.
#[derive(Debug)]
pub struct Account {
    /// The text that its user has to know. It may be empty.
    pub secret: Text,
    /// The index of its group in the list of groups.
    pub rank: u8,
}

// By hand, so that who drops one has one call to prove.
impl Drop for Account {
    fn drop(self) {
        let Account { secret: _, rank: _ } = self;
    }
}
