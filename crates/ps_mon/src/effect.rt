//! What moves do.
use crate::status::Status;

/// What has stages, from -6 to 6.
#[derive(Clone, Copy, Debug, PartialEq, Eq)]
pub enum Stat {
    /// Attack.
    Atk,
    /// Defense.
    Def,
    /// Special.
    Spc,
    /// Speed.
    Spe,
    /// Accuracy.
    Acc,
    /// Evasion.
    Eva,
}

/// Whose stages a move changes.
#[derive(Clone, Copy, Debug, PartialEq, Eq)]
pub enum Aim {
    /// The user's.
    User,
    /// The foe's.
    Foe,
}

/// A screen before one's own side.
#[derive(Clone, Copy, Debug, PartialEq, Eq)]
pub enum ScreenKind {
    /// Reflect, against moves that use Attack.
    Reflect,
    /// Light Screen, against moves that use Special.
    Light,
}

/// What a move copies, or does in another move's place.
#[derive(Clone, Copy, Debug, PartialEq, Eq)]
pub enum CopyKind {
    /// A move of the foe takes the used move's place.
    Mimic,
    /// The user takes the foe's types, stats but health, stages and moves.
    Transform,
    /// Some move of the dex is used.
    Metronome,
    /// The foe's last move is used.
    MirrorMove,
    /// The user takes the foe's types.
    Conversion,
    /// A move of the foe can't be used for some turns.
    Disable,
}

/// What a move does. A `chance` is out of 256: 0 never, 256 always.
#[derive(Clone, Copy, Debug, PartialEq, Eq)]
pub enum Effect {
    /// A strike.
    Plain,
    /// Takes so much health, 1 to 713, whatever the types.
    Fixed {
        amount: u16,
    },
    /// Takes as much health as the user's level.
    Level,
    /// Takes half of the foe's health.
    Half,
    /// Takes some health, up to one and a half times the user's level.
    Psywave,
    /// Takes all of the foe's health.
    Ohko,
    /// Gives the foe a status, by a strike or, with power 0, without one.
    Status {
        status: Status,
        chance: u16,
    },
    /// Confuses the foe, by a strike or, with power 0, without one.
    Confuse {
        chance: u16,
    },
    /// A strike that may make the foe flinch.
    Flinch {
        chance: u16,
    },
    /// Changes stages by -6 to 6, not by 0, with a strike or, with power 0, without one.
    Boost {
        who: Aim,
        stat: Stat,
        by: i8,
        chance: u16,
    },
    /// A strike that gives the user half of what it takes.
    Drain,
    /// The same, against a foe that is asleep.
    DreamEater,
    /// A strike that takes from the user what it dealt divided by this, 1 to 255.
    Recoil {
        by: u8,
    },
    /// A strike that takes 1 health from the user where it misses.
    Crash,
    /// Two to five hits.
    Multi,
    /// Two hits, and then perhaps a status.
    Double {
        status: Status,
        chance: u16,
    },
    /// A strike after which the user faints.
    Explode,
    /// A strike in the act after this one; the user may be away until then.
    Charge {
        away: bool,
    },
    /// A strike after which the user must recharge.
    Recharge,
    /// A strike whose damage is dealt again for some turns, in which the foe is trapped.
    Trap,
    /// A strike in each of some acts, and then confusion.
    Thrash,
    /// Stores damage for some acts, and then deals twice of it.
    Bide,
    /// A strike in each act from now on.
    Rage,
    /// Deals twice the damage that a move of type `normal` or `fighting` dealt to the user.
    Counter,
    /// Some of the user's health makes a substitute.
    Substitute,
    /// Seeds the foe.
    LeechSeed,
    /// Puts up a screen.
    Screen {
        which: ScreenKind,
    },
    /// Keeps the foe from changing the user's stages.
    Mist,
    /// Changes the user's chance of a critical hit.
    Focus,
    /// Takes from both members their stages, confusion, seed, screens, mist, focus and disabled move, ends
    /// the foe's status, and makes the user's bad poison a plain one.
    Haze,
    /// Gives the user half of its greatest health.
    Heal,
    /// Gives the user all of its health, and sleep.
    Rest,
    /// Copies something of the foe, or uses another move.
    Copy {
        sub: CopyKind,
    },
    /// Does nothing.
    Nothing,
}
