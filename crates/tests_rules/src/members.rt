//! Members of teams, to whom nothing has happened.
use ps_mon::status::Status;
use ps_mon::team::{Member, MoveSlot};

/// Body Slam, the first move of each dex, with all its PP.
pub(crate) const BODY_SLAM: MoveSlot = MoveSlot {
    mv: 0,
    pp: 24,
    max_pp: 24,
};

/// Tauros of level 100 with all IVs and EVs, which knows Body Slam alone.
pub(crate) const TAUROS: Member = Member {
    species: 0,
    level: 100,
    types: [0, 0],
    stats: [298, 288, 238, 318],
    base_speed: 110,
    hp: 353,
    max: 353,
    status: Status::Healthy,
    counter: 0,
    rested: false,
    slots: [BODY_SLAM; 4],
    slot_count: 1,
};

/// Snorlax of level 100 with all IVs and EVs, which knows Body Slam alone.
pub(crate) const SNORLAX: Member = Member {
    species: 1,
    level: 100,
    types: [0, 0],
    stats: [318, 228, 228, 158],
    base_speed: 30,
    hp: 523,
    max: 523,
    status: Status::Healthy,
    counter: 0,
    rested: false,
    slots: [BODY_SLAM; 4],
    slot_count: 1,
};
