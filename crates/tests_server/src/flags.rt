//! What the links of a test tell each other.
use once_cell::race::OnceBool;

/// How many links there are.
pub(crate) const LINKS: usize = 8;

/// What has come about. A flag is a cell that is set once: it is never cleared.
#[derive(Drop)]
pub(crate) struct Flags {
    // Of each link whether it was sent its challenge, and whether it has answered End.
    greeted: [OnceBool; LINKS],
    ended: [OnceBool; LINKS],
    /// Link 1 was sent a text of the lobby that link 2 said.
    pub(crate) first_heard: OnceBool,
    /// Link 2 was sent a text of the lobby.
    pub(crate) second_joined: OnceBool,
}

impl Flags {
    pub(crate) fn new() -> Flags {
        Flags {
            greeted: none_set(),
            ended: none_set(),
            first_heard: OnceBool::new(),
            second_joined: OnceBool::new(),
        }
    }

    /// The link at this index was sent its challenge.
    pub(crate) fn greet(&self, index: usize) {
        set(&self.greeted, index);
    }

    /// The link at this index has answered End.
    pub(crate) fn end(&self, index: usize) {
        set(&self.ended, index);
    }

    /// Whether the link at this index was sent its challenge and has answered End.
    pub(crate) fn is_served(&self, index: usize) -> bool {
        is_set(&self.greeted, index) && is_set(&self.ended, index)
    }

    /// Whether every link was sent its challenge and has answered End.
    pub(crate) fn are_all_set(&self) -> bool {
        all_set(&self.greeted) && all_set(&self.ended)
    }
}

fn none_set() -> [OnceBool; LINKS] {
    [
        OnceBool::new(),
        OnceBool::new(),
        OnceBool::new(),
        OnceBool::new(),
        OnceBool::new(),
        OnceBool::new(),
        OnceBool::new(),
        OnceBool::new(),
    ]
}

fn set(flags: &[OnceBool], index: usize) {
    if let Some(flag) = flags.get(index) {
        let _ = flag.set(true);
    }
}

fn is_set(flags: &[OnceBool], index: usize) -> bool {
    match flags.get(index) {
        None => false,
        Some(flag) => flag.get().is_some(),
    }
}

fn all_set(flags: &[OnceBool]) -> bool {
    for flag in flags {
        if flag.get().is_none() {
            return false;
        }
    }
    true
}
