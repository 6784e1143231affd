//! What lasts with a team member.

/// The condition of a team member. It stays with it when it is switched out, but bad poison becomes a
/// plain one.
#[derive(Clone, Copy, Debug, PartialEq, Eq)]
pub enum Status {
    /// None.
    Healthy,
    /// Asleep.
    Slp,
    /// Paralysed.
    Par,
    /// Burnt.
    Brn,
    /// Poisoned.
    Psn,
    /// Badly poisoned.
    Tox,
    /// Frozen.
    Frz,
}
