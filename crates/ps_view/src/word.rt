//! The words that the numbers of events stand for. A number past a list stands for the list's last word.
ghost use Rattle.std.specs.Prelude.{◌≡◌};
ghost use Rattle.ps_view.specs.Words.{side_word, clause_word, status_word, stat_word, reason_word, from_end, move_word, effect_word};

use ps_dex::dex::Dex;
use ps_event::numbers::{
    EFFECT_BIDE, EFFECT_CONFUSION, EFFECT_DISABLE, EFFECT_FOCUS_ENERGY, EFFECT_LEECH_SEED,
    EFFECT_LIGHT_SCREEN, EFFECT_MIMIC, EFFECT_MIST, EFFECT_REFLECT, EFFECT_SUBSTITUTE,
    EFFECT_TYPECHANGE, FROM_BRN, FROM_CONFUSION, FROM_LEECH_SEED, FROM_NOTHING, FROM_PSN,
    FROM_RECOIL, REASON_DISABLE, REASON_FLINCH, REASON_FRZ, REASON_PARTIALLY_TRAPPED,
    REASON_RECHARGE, REASON_SLP, STAT_ACC, STAT_ATK, STAT_DEF, STAT_SPC, STAT_SPE,
};
use ps_event::side::Side;

/// `p1` or `p2`
pub(crate) fn side_word(side: Side) -> &'static str
    ensures { result.now ≡ side_word side }
{
    match side {
        Side::P1 => "p1",
        Side::P2 => "p2",
    }
}

/// The name of a clause, as it stands in a format's rules.
#[tactic(auto, unfolding(crate::specs::Words::clause_word))]
pub(crate) fn clause_word(clause: u8) -> &'static str
    ensures { result.now ≡ clause_word clause }
{
    match clause {
        0 => "Species Clause",
        1 => "Sleep Clause Mod",
        2 => "Freeze Clause Mod",
        3 => "OHKO Clause",
        4 => "Evasion Moves Clause",
        5 => "Nickname Clause",
        6 => "Team Preview",
        _ => "HP Percentage Mod",
    }
}

/// The word of a status; the empty one of who is healthy.
#[tactic(auto, unfolding(crate::specs::Words::status_word))]
pub(crate) fn status_word(status: u8) -> &'static str
    ensures { result.now ≡ status_word status }
{
    match status {
        0 => "",
        1 => "slp",
        2 => "par",
        3 => "brn",
        4 => "psn",
        5 => "tox",
        _ => "frz",
    }
}

/// The word of a stat.
#[tactic(auto, unfolding(crate::specs::Words::stat_word))]
pub(crate) fn stat_word(stat: u8) -> &'static str
    ensures { result.now ≡ stat_word stat }
{
    match stat {
        STAT_ATK => "atk",
        STAT_DEF => "def",
        STAT_SPC => "spc",
        STAT_SPE => "spe",
        STAT_ACC => "acc",
        _ => "eva",
    }
}

/// Why a member can't act.
#[tactic(auto, unfolding(crate::specs::Words::reason_word))]
pub(crate) fn reason_word(reason: u8) -> &'static str
    ensures { result.now ≡ reason_word reason }
{
    match reason {
        REASON_SLP => "slp",
        REASON_FRZ => "frz",
        REASON_PARTIALLY_TRAPPED => "partiallytrapped",
        REASON_FLINCH => "flinch",
        REASON_RECHARGE => "recharge",
        REASON_DISABLE => "Disable",
        _ => "par",
    }
}

/// What a loss of health is from, as it ends a line.
#[tactic(auto, unfolding(crate::specs::Words::from_end))]
pub(crate) fn from_end(from: u8) -> &'static str
    ensures { result.now ≡ from_end from }
{
    match from {
        FROM_NOTHING => "",
        FROM_PSN => "|[from] psn",
        FROM_BRN => "|[from] brn",
        FROM_LEECH_SEED => "|[from] Leech Seed",
        FROM_RECOIL => "|[from] Recoil",
        FROM_CONFUSION => "|[from] confusion",
        _ => "|[from] crash",
    }
}

/// The name of a move, where there is one.
pub(crate) fn move_word(dex: &Dex, mv: Option<u16>) -> &str
    ensures { result.now ≡ move_word dex.now mv }
{
    match mv {
        None => "",
        Some(mv) => dex.move_name(mv),
    }
}

/// What starts, ends or does something.
#[tactic(auto, unfolding(crate::specs::Words::effect_word))]
pub(crate) fn effect_word(dex: &Dex, effect: u8, mv: Option<u16>) -> &str
    ensures { result.now ≡ effect_word dex.now effect mv }
{
    match effect {
        EFFECT_CONFUSION => "confusion",
        EFFECT_SUBSTITUTE => "Substitute",
        EFFECT_LEECH_SEED => "Leech Seed",
        EFFECT_REFLECT => "Reflect",
        EFFECT_LIGHT_SCREEN => "Light Screen",
        EFFECT_MIST => "Mist",
        EFFECT_FOCUS_ENERGY => "Focus Energy",
        EFFECT_MIMIC => "Mimic",
        EFFECT_DISABLE => "Disable",
        EFFECT_TYPECHANGE => "typechange",
        EFFECT_BIDE => "Bide",
        _ => move_word(dex, mv),
    }
}
