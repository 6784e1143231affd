//! How far a match has come.

/// Which line of a match is next. The first of the two, as the bracket has them, is the first player.
#[derive(Clone, Copy, Debug, PartialEq, Eq)]
pub enum Stage {
    /// The first challenges the second.
    Challenge,
    /// The second accepts.
    Accept,
    /// The first joins the battle's room.
    FirstJoin,
    /// The second joins it.
    SecondJoin,
    /// The first chooses.
    FirstChoice,
    /// The second chooses.
    SecondChoice,
}
