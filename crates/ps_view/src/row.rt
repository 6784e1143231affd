//! The rows of the table of lines, in its order, each put behind a text. Each is a line of SIM-PROTOCOL.md.
ghost use Rattle.std.specs.Prelude.{◌≡◌, ◌++◌, OnOk, codes, string_bytes};
ghost use Rattle.ps_view.specs.Parts.{position};
ghost use Rattle.ps_view.specs.Rows.{about, about_with, player_line, team_size_line, tier_line, rule_line, poke_line, switch_line};
ghost use Rattle.ps_view.specs.Rows.{move_line, cant_line, damage_line, heal_line};
ghost use Rattle.ps_view.specs.Rows.{status_line, cure_line, boost_line, unboost_line, start_line, end_line, activate_line};
ghost use Rattle.ps_view.specs.Rows.{prepare_line, transform_line, hit_count_line};
ghost use Rattle.ps_view.specs.Rows.{turn_line, forfeit_line, win_line};

use crate::names::Names;
use crate::part::{
    push_condition, push_details, push_move_ends, push_named_end, push_number, push_position,
    push_stages,
};
use crate::word::{clause_word, effect_word, from_end, reason_word, side_word, status_word};
use ps_dex::dex::Dex;
use ps_event::event::{Health, Who};
use ps_event::side::Side;
use std::alloc::AllocError;

// ---- what several rows tell

/// `|WORD|POS`
pub(crate) fn push_about(
    out: &mut String,
    word: &str,
    names: &Names,
    who: Who,
) -> Result<(), AllocError>
    ensures { OnOk result (string_bytes out.new ≡ string_bytes out.old ++ about word.now names.now who) }
{
    out.push_str("|")?;
    out.push_str(word)?;
    out.push_str("|")?;
    push_position(out, names, who)
}

/// `|WORD|POS|`
fn push_front(out: &mut String, word: &str, names: &Names, who: Who) -> Result<(), AllocError>
    ensures { OnOk result (string_bytes out.new ≡ string_bytes out.old ++ about word.now names.now who ++ codes "|") }
{
    push_about(out, word, names, who)?;
    out.push_str("|")
}

/// `|WORD|POS|TEXT`
fn push_about_with(
    out: &mut String,
    word: &str,
    names: &Names,
    who: Who,
    text: &str,
) -> Result<(), AllocError>
    ensures { OnOk result (string_bytes out.new ≡ string_bytes out.old ++ about_with word.now names.now who text.now) }
{
    push_front(out, word, names, who)?;
    out.push_str(text)
}

/// `|WORD|POS|TARGET POS`
fn push_about_both(
    out: &mut String,
    word: &str,
    names: &Names,
    who: Who,
    target: Who,
) -> Result<(), AllocError>
    ensures { OnOk result (string_bytes out.new ≡ string_bytes out.old ++ about_with word.now names.now who (position names.now target)) }
{
    push_front(out, word, names, who)?;
    push_position(out, names, target)
}

/// A text between two words of a sentence.
fn push_between(out: &mut String, front: &str, text: &str, end: &str) -> Result<(), AllocError>
    ensures { OnOk result (string_bytes out.new ≡ string_bytes out.old ++ (front.now ++ text.now ++ end.now)) }
{
    out.push_str(front)?;
    out.push_str(text)?;
    out.push_str(end)
}

// ---- the opening

/// `|player|p1|NAME||`
pub(crate) fn push_player(out: &mut String, names: &Names, side: Side) -> Result<(), AllocError>
    ensures { OnOk result (string_bytes out.new ≡ string_bytes out.old ++ player_line names.now side) }
{
    out.push_str("|player|")?;
    out.push_str(side_word(side))?;
    out.push_str("|")?;
    out.push_str(names.player(side).text().as_str())?;
    out.push_str("||")
}

/// `|teamsize|p1|N`
pub(crate) fn push_team_size(out: &mut String, side: Side, count: u8) -> Result<(), AllocError>
    ensures { OnOk result (string_bytes out.new ≡ string_bytes out.old ++ team_size_line side count) }
{
    out.push_str("|teamsize|")?;
    out.push_str(side_word(side))?;
    out.push_str("|")?;
    push_number(out, u16::from(count))
}

/// `|tier|FORMAT`
pub(crate) fn push_tier(out: &mut String, names: &Names) -> Result<(), AllocError>
    ensures { OnOk result (string_bytes out.new ≡ string_bytes out.old ++ tier_line names.now) }
{
    out.push_str("|tier|")?;
    out.push_str(names.format.as_str())
}

/// `|rule|NAME`
pub(crate) fn push_rule(out: &mut String, clause: u8) -> Result<(), AllocError>
    ensures { OnOk result (string_bytes out.new ≡ string_bytes out.old ++ rule_line clause) }
{
    out.push_str("|rule|")?;
    out.push_str(clause_word(clause))
}

/// `|poke|p1|DETAILS|`
pub(crate) fn push_poke(
    out: &mut String,
    dex: &Dex,
    side: Side,
    species: u16,
    level: u8,
) -> Result<(), AllocError>
    ensures { OnOk result (string_bytes out.new ≡ string_bytes out.old ++ poke_line dex.now side species level) }
{
    out.push_str("|poke|")?;
    out.push_str(side_word(side))?;
    out.push_str("|")?;
    push_details(out, dex, species, level)?;
    out.push_str("|")
}

// ---- the acts

/// `|switch|POS|DETAILS|COND`
pub(crate) fn push_switch(
    out: &mut String,
    exact: bool,
    names: &Names,
    dex: &Dex,
    who: Who,
    species: u16,
    level: u8,
    health: Health,
) -> Result<(), AllocError>
    ensures { OnOk result (string_bytes out.new ≡ string_bytes out.old ++ switch_line exact names.now dex.now who species level health) }
{
    push_front(out, "switch", names, who)?;
    push_details(out, dex, species, level)?;
    out.push_str("|")?;
    push_condition(out, exact, names.percent, health)
}

/// `|move|POS|MOVE|TARGET POS`, with `|[still]` and `|[from]MOVE` behind it.
pub(crate) fn push_move(
    out: &mut String,
    names: &Names,
    dex: &Dex,
    who: Who,
    mv: u16,
    target: Who,
    still: bool,
    from: Option<u16>,
) -> Result<(), AllocError>
    ensures { OnOk result (string_bytes out.new ≡ string_bytes out.old ++ move_line names.now dex.now who mv target still from) }
{
    push_front(out, "move", names, who)?;
    out.push_str(dex.move_name(mv))?;
    out.push_str("|")?;
    push_position(out, names, target)?;
    push_move_ends(out, dex, still, from)
}

/// `|cant|POS|REASON`
pub(crate) fn push_cant(
    out: &mut String,
    names: &Names,
    who: Who,
    reason: u8,
) -> Result<(), AllocError>
    ensures { OnOk result (string_bytes out.new ≡ string_bytes out.old ++ cant_line names.now who reason) }
{
    push_about_with(out, "cant", names, who, reason_word(reason))
}

/// `|-damage|POS|COND`, with what it is from behind it.
pub(crate) fn push_damage(
    out: &mut String,
    exact: bool,
    names: &Names,
    who: Who,
    health: Health,
    from: u8,
) -> Result<(), AllocError>
    ensures { OnOk result (string_bytes out.new ≡ string_bytes out.old ++ damage_line exact names.now who health from) }
{
    push_front(out, "-damage", names, who)?;
    push_condition(out, exact, names.percent, health)?;
    out.push_str(from_end(from))
}

/// `|-heal|POS|COND`
pub(crate) fn push_heal(
    out: &mut String,
    exact: bool,
    names: &Names,
    who: Who,
    health: Health,
) -> Result<(), AllocError>
    ensures { OnOk result (string_bytes out.new ≡ string_bytes out.old ++ heal_line exact names.now who health) }
{
    push_front(out, "-heal", names, who)?;
    push_condition(out, exact, names.percent, health)
}

/// `|-status|POS|STATUS`
pub(crate) fn push_status(
    out: &mut String,
    names: &Names,
    who: Who,
    status: u8,
) -> Result<(), AllocError>
    ensures { OnOk result (string_bytes out.new ≡ string_bytes out.old ++ status_line names.now who status) }
{
    push_about_with(out, "-status", names, who, status_word(status))
}

/// `|-curestatus|POS|STATUS`
pub(crate) fn push_cure(
    out: &mut String,
    names: &Names,
    who: Who,
    status: u8,
) -> Result<(), AllocError>
    ensures { OnOk result (string_bytes out.new ≡ string_bytes out.old ++ cure_line names.now who status) }
{
    push_about_with(out, "-curestatus", names, who, status_word(status))
}

/// `|-boost|POS|STAT|N`
pub(crate) fn push_boost(
    out: &mut String,
    names: &Names,
    who: Who,
    stat: u8,
    by: u8,
) -> Result<(), AllocError>
    ensures { OnOk result (string_bytes out.new ≡ string_bytes out.old ++ boost_line names.now who stat by) }
{
    push_front(out, "-boost", names, who)?;
    push_stages(out, stat, by)
}

/// `|-unboost|POS|STAT|N`
pub(crate) fn push_unboost(
    out: &mut String,
    names: &Names,
    who: Who,
    stat: u8,
    by: u8,
) -> Result<(), AllocError>
    ensures { OnOk result (string_bytes out.new ≡ string_bytes out.old ++ unboost_line names.now who stat by) }
{
    push_front(out, "-unboost", names, who)?;
    push_stages(out, stat, by)
}

/// `|-start|POS|EFFECT`, with `|MOVE` behind Mimic and Disable.
pub(crate) fn push_start(
    out: &mut String,
    names: &Names,
    dex: &Dex,
    who: Who,
    effect: u8,
    mv: Option<u16>,
) -> Result<(), AllocError>
    ensures { OnOk result (string_bytes out.new ≡ string_bytes out.old ++ start_line names.now dex.now who effect mv) }
{
    push_front(out, "-start", names, who)?;
    out.push_str(effect_word(dex, effect, mv))?;
    push_named_end(out, dex, effect, mv)
}

/// `|-end|POS|EFFECT`
pub(crate) fn push_end(
    out: &mut String,
    names: &Names,
    dex: &Dex,
    who: Who,
    effect: u8,
) -> Result<(), AllocError>
    ensures { OnOk result (string_bytes out.new ≡ string_bytes out.old ++ end_line names.now dex.now who effect) }
{
    push_about_with(out, "-end", names, who, effect_word(dex, effect, None))
}

/// `|-activate|POS|EFFECT`
pub(crate) fn push_activate(
    out: &mut String,
    names: &Names,
    dex: &Dex,
    who: Who,
    effect: u8,
    mv: Option<u16>,
) -> Result<(), AllocError>
    ensures { OnOk result (string_bytes out.new ≡ string_bytes out.old ++ activate_line names.now dex.now who effect mv) }
{
    push_about_with(out, "-activate", names, who, effect_word(dex, effect, mv))
}

/// `|-prepare|POS|MOVE`
pub(crate) fn push_prepare(
    out: &mut String,
    names: &Names,
    dex: &Dex,
    who: Who,
    mv: u16,
) -> Result<(), AllocError>
    ensures { OnOk result (string_bytes out.new ≡ string_bytes out.old ++ prepare_line names.now dex.now who mv) }
{
    push_about_with(out, "-prepare", names, who, dex.move_name(mv))
}

/// `|-transform|POS|TARGET POS`
pub(crate) fn push_transform(
    out: &mut String,
    names: &Names,
    who: Who,
    target: Who,
) -> Result<(), AllocError>
    ensures { OnOk result (string_bytes out.new ≡ string_bytes out.old ++ transform_line names.now who target) }
{
    push_about_both(out, "-transform", names, who, target)
}

/// `|-hitcount|POS|N`
pub(crate) fn push_hit_count(
    out: &mut String,
    names: &Names,
    who: Who,
    hits: u8,
) -> Result<(), AllocError>
    ensures { OnOk result (string_bytes out.new ≡ string_bytes out.old ++ hit_count_line names.now who hits) }
{
    push_front(out, "-hitcount", names, who)?;
    push_number(out, u16::from(hits))
}

// ---- turns and the end

/// `|turn|N`
pub(crate) fn push_turn(out: &mut String, turn: u16) -> Result<(), AllocError>
    ensures { OnOk result (string_bytes out.new ≡ string_bytes out.old ++ turn_line turn) }
{
    out.push_str("|turn|")?;
    push_number(out, turn)
}

/// `|-message|NAME forfeited.`
pub(crate) fn push_forfeit(out: &mut String, names: &Names, side: Side) -> Result<(), AllocError>
    ensures { OnOk result (string_bytes out.new ≡ string_bytes out.old ++ forfeit_line names.now side) }
{
    push_between(
        out,
        "|-message|",
        names.player(side).text().as_str(),
        " forfeited.",
    )
}

/// `|win|NAME`
pub(crate) fn push_win(out: &mut String, names: &Names, side: Side) -> Result<(), AllocError>
    ensures { OnOk result (string_bytes out.new ≡ string_bytes out.old ++ win_line names.now side) }
{
    out.push_str("|win|")?;
    out.push_str(names.player(side).text().as_str())
}
