//! How much of what was logged who joins is sent.
ghost use Rattle.std.specs.Prelude.{◌≡◌};
ghost use Rattle.ps_splitlog.specs.Entries.{size_of_keep, keep_of_size};

// The `keep` that stands for all lines.
const ALL: u32 = 4_294_967_295;

/// How many of the lines that were logged who joins is sent.
#[derive(Clone, Copy, Debug, PartialEq, Eq)]
pub enum BacklogSize {
    /// All of them.
    All,
    /// The last so many of them; all where they are fewer.
    Last(u32),
}

impl BacklogSize {
    /// The size that a `keep` of `Joined` stands for: 4,294,967,295 means all, another number the last so many.
    pub fn of_keep(keep: u32) -> BacklogSize
        ensures { result ≡ size_of_keep keep }
    {
        if keep == ALL {
            BacklogSize::All
        } else {
            BacklogSize::Last(keep)
        }
    }

    /// The `keep` of `Joined` for this size. (The last 4,294,967,295 have the number of all.)
    pub fn keep(self) -> u32
        ensures { result ≡ keep_of_size self }
    {
        match self {
            BacklogSize::All => ALL,
            BacklogSize::Last(count) => count,
        }
    }
}
