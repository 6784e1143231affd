//! The line of each event, and who is shown it.
ghost use Rattle.std.specs.Prelude.{◌≡◌, ◌↔◌, ◌++◌, false, None, IfOk, OnOk, string_bytes};
ghost use Rattle.ps_view.specs.Lines.{row_of, is_request, is_shown, line_of};

use crate::names::Names;
use crate::role::{Role, has_role, reads_exactly};
use crate::row::{
    push_about, push_activate, push_boost, push_cant, push_cure, push_damage, push_end,
    push_forfeit, push_heal, push_hit_count, push_move, push_player, push_poke, push_prepare,
    push_rule, push_start, push_status, push_switch, push_team_size, push_tier, push_transform,
    push_turn, push_unboost, push_win,
};
use ps_base::text::Text;
use ps_dex::dex::Dex;
use ps_event::event::Event;
use ps_event::table::audience;
use std::alloc::{AllocError, Global};

#[tactic(auto, unfolding(crate::specs::Lines::row_of))]
fn push_row(
    out: &mut String,
    exact: bool,
    names: &Names,
    dex: &Dex,
    event: Event,
) -> Result<(), AllocError>
    ensures { OnOk result (string_bytes out.new ≡ string_bytes out.old ++ row_of exact names.now dex.now event) }
{
    match event {
        Event::Player { side } => push_player(out, names, side),
        Event::TeamSize { side, count } => push_team_size(out, side, count),
        Event::GameType => out.push_str("|gametype|singles"),
        Event::Gen => out.push_str("|gen|1"),
        Event::Tier => push_tier(out, names),
        Event::Rule { clause } => push_rule(out, clause),
        Event::ClearPoke => out.push_str("|clearpoke"),
        Event::Poke {
            side,
            species,
            level,
        } => push_poke(out, dex, side, species, level),
        Event::TeamPreview => out.push_str("|teampreview"),
        Event::Start => out.push_str("|start"),
        Event::Switch {
            who,
            species,
            level,
            health,
        } => push_switch(out, exact, names, dex, who, species, level, health),
        Event::Move {
            who,
            mv,
            target,
            still,
            from,
        } => push_move(out, names, dex, who, mv, target, still, from),
        Event::Cant { who, reason } => push_cant(out, names, who, reason),
        Event::Damage { who, health, from } => push_damage(out, exact, names, who, health, from),
        Event::Heal { who, health } => push_heal(out, exact, names, who, health),
        Event::Status { who, status } => push_status(out, names, who, status),
        Event::CureStatus { who, status } => push_cure(out, names, who, status),
        Event::Boost { who, stat, by } => push_boost(out, names, who, stat, by),
        Event::Unboost { who, stat, by } => push_unboost(out, names, who, stat, by),
        Event::Crit { who } => push_about(out, "-crit", names, who),
        Event::Super { who } => push_about(out, "-supereffective", names, who),
        Event::Resisted { who } => push_about(out, "-resisted", names, who),
        Event::Immune { who } => push_about(out, "-immune", names, who),
        Event::Miss { who } => push_about(out, "-miss", names, who),
        Event::Fail { who } => push_about(out, "-fail", names, who),
        Event::VolStart { who, effect, mv } => push_start(out, names, dex, who, effect, mv),
        Event::VolEnd { who, effect } => push_end(out, names, dex, who, effect),
        Event::Activate { who, effect, mv } => push_activate(out, names, dex, who, effect, mv),
        Event::MustRecharge { who } => push_about(out, "-mustrecharge", names, who),
        Event::Prepare { who, mv } => push_prepare(out, names, dex, who, mv),
        Event::Transform { who, target } => push_transform(out, names, who, target),
        Event::HitCount { who, hits } => push_hit_count(out, names, who, hits),
        Event::ClearAll => out.push_str("|-clearallboost"),
        Event::Faint { who } => push_about(out, "faint", names, who),
        Event::Upkeep => out.push_str("|upkeep"),
        Event::Turn { turn } => push_turn(out, turn),
        Event::Forfeit { side } => push_forfeit(out, names, side),
        Event::Win { side } => push_win(out, names, side),
        Event::Tie => out.push_str("|tie"),
        Event::Request { .. } => Ok(()),
    }
}

// The bytes that a usual line takes at most.
const USUAL_LENGTH: usize = 64;

fn row_of(
    alloc: Global,
    exact: bool,
    names: &Names,
    dex: &Dex,
    event: Event,
) -> Result<Text, AllocError>
    ensures { IfOk result (λ t. t ≡ row_of exact names.now dex.now event) }
{
    let mut out = String::with_capacity(alloc, USUAL_LENGTH)?;
    push_row(&mut out, exact, names, dex, event)?;
    Ok(Text::from_string(out))
}

fn is_request(event: &Event) -> bool
    ensures { result ≡ is_request event.now }
{
    matches!(event, Event::Request { .. })
}

fn is_shown(event: &Event, role: Role) -> bool
    ensures { result ≡ is_shown event.now role }
{
    has_role(audience(event), role) && !is_request(event)
}

/// The line of an event for a role, without a newline. None exactly where the event's audience hasn't the role, or the
/// event is a request, whose line its room makes when it asks. A member's health is exact for the player of its side;
/// all others read hundredths where HP Percentage Mod is on (`Names::percent`), else 48ths.
///
/// A member past the team and a species past the dex have the empty text in their place, a move past the dex is Struggle,
/// and a number past the list of its words stands for the last of them.
#[tactic(auto, unfolding(crate::specs::Lines::line_of))]
pub fn line_for(
    alloc: Global,
    event: &Event,
    role: Role,
    names: &Names,
    dex: &Dex,
) -> Result<Option<Text>, AllocError>
    ensures text { IfOk result (λ line. line ≡ line_of event.now role names.now dex.now) }
    ensures none { IfOk result (λ line. line ≡ None ↔ is_shown event.now role ≡ false) }
{
    if !is_shown(event, role) {
        return Ok(None);
    }
    let exact = reads_exactly(audience(event), role);
    let line = row_of(alloc, exact, names, dex, *event)?;
    Ok(Some(line))
}
