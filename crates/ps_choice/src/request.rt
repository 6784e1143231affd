//! Requests: what a player is asked. They are written straight into one text.
ghost use Rattle.std.specs.Prelude.{◌≡◌, ◌<◌, ◌≤◌, ◌++◌, ◌==◌, ◌&&◌, true, false, codes, decimal, map, IfOk, OnOk, string_bytes};
ghost use Rattle.json.specs.Print.{quoted};
ghost use Rattle.serde_json.specs.Data.{boolean};
ghost use Rattle.serde_json.specs.View.{items_of};
ghost use Rattle.serde_json.specs.Written.{compact_text, items_text, members_text, comma_if};
ghost use Rattle.ps_mon.specs.Reading.{active_index, side_of};
ghost use Rattle.ps_mon.specs.Valid.{IsSound, IsSide};
ghost use Rattle.ps_choice.specs.Shown.{details, condition, nick_of, ident};
ghost use Rattle.ps_choice.specs.Requests.{text, slot_data, slots_data, only_move, unheld_moves, moves_data, stats_data};
ghost use Rattle.ps_choice.specs.Requests.{move_id_data, member_data, member_at_data, members_data, side_data, turn_data};
ghost use Rattle.ps_choice.specs.Requests.{switch_data, wait_data, preview_data, switch_or_wait, request_data, request, shown_move};
ghost use Rattle.ps_choice.specs.Requests.{shown_slot, later_member, moves_and_stats};

use crate::legality::{has_usable, is_disabled, replaces};
use crate::shown::{id_of_move, push_condition, push_details, push_ident, side_id};
use itoa::Buffer;
use json_text::quoted::push_quoted;
use ps_base::text::Text;
use ps_dex::dex::Dex;
use ps_dex::item::MoveItem;
use ps_mon::record::{Battle, Phase, SideState};
use ps_mon::team::{Member, MoveSlot};
use std::alloc::{AllocError, Global};

/// Room for all of a request but its members, and for each of these.
const ROOM_OF_REQUEST: usize = 512;

const ROOM_OF_MEMBER: usize = 192;

/// The names of one side.
#[derive(Clone, Copy, Debug)]
pub struct SideNames<'a> {
    /// The player's name.
    pub player: &'a str,
    /// The members' nicknames, in the order of the team.
    pub nicks: &'a [Text],
}

// ---- pieces of the text

fn push_piece(line: &mut String, piece: &str) -> Result<(), AllocError>
    ensures { OnOk result (string_bytes line.new ≡ string_bytes line.old ++ piece.now) }
{
    line.push_str(piece)
}

// A value behind what stands before it.
fn push_flag(line: &mut String, before: &str, value: bool) -> Result<(), AllocError>
    ensures { OnOk result (string_bytes line.new ≡ string_bytes line.old ++ (before.now ++ compact_text (boolean value))) }
{
    line.push_str(before)?;
    line.push_str(if value { "true" } else { "false" })
}

fn push_count(line: &mut String, before: &str, value: u32) -> Result<(), AllocError>
    ensures { OnOk result (string_bytes line.new ≡ string_bytes line.old ++ (before.now ++ decimal value)) }
{
    let mut buffer = Buffer::new();
    line.push_str(before)?;
    line.push_str(buffer.format(value))
}

fn push_text(line: &mut String, before: &str, value: &str) -> Result<(), AllocError>
    ensures { OnOk result (string_bytes line.new ≡ string_bytes line.old ++ (before.now ++ quoted value.now)) }
{
    line.push_str(before)?;
    push_quoted(line, value)
}

// What parts an item of an array from one before it.
fn comma_if(later: bool) -> &'static str
    ensures { result.now ≡ comma_if later }
{
    if later { "," } else { "" }
}

// ---- the moves that can be chosen

#[tactic(auto, unfolding(json::specs::Print::escape_byte))]
fn write_shown_move(
    line: &mut String,
    id: &str,
    most: u8,
    name: &str,
    left: u8,
) -> Result<(), AllocError>
    ensures { OnOk result (string_bytes line.new ≡ string_bytes line.old ++ shown_move id.now most name.now left) }
{
    push_text(line, ",\"id\":", id)?;
    push_count(line, ",\"maxpp\":", u32::from(most))?;
    push_text(line, ",\"move\":", name)?;
    push_count(line, ",\"pp\":", u32::from(left))?;
    push_piece(line, "}")?;
    Ok(())
}

#[tactic(auto, unfolding(json::specs::Print::escape_byte))]
fn write_shown_slot(
    line: &mut String,
    dex: &Dex,
    disabled: bool,
    own: MoveSlot,
) -> Result<(), AllocError>
    ensures { OnOk result (string_bytes line.new ≡ string_bytes line.old ++ compact_text (shown_slot dex.now.moves disabled own)) }
{
    push_flag(line, "{\"disabled\":", disabled)?;
    write_shown_move(
        line,
        id_of_move(dex.moves(), own.mv),
        own.max_pp,
        dex.move_name(own.mv),
        own.pp,
    )?;
    Ok(())
}

/// A slot in force, from 0.
#[tactic(auto, unfolding(crate::specs::Requests::slot_data))]
fn write_slot(line: &mut String, dex: &Dex, side: &SideState, slot: u8) -> Result<(), AllocError>
    requires side { IsSide side.now }
    requires slot { slot < 4 }
    ensures { OnOk result (string_bytes line.new ≡ string_bytes line.old ++ compact_text (slot_data dex.now.moves side.now slot)) }
{
    write_shown_slot(line, dex, is_disabled(side, slot), side.slot(slot))
}

/// The slots in force, and the bracket that closes their array.
fn write_slots(line: &mut String, dex: &Dex, side: &SideState) -> Result<(), AllocError>
    requires { IsSide side.now }
    ensures { OnOk result (string_bytes line.new ≡ string_bytes line.old
        ++ items_text false (items_of (slots_data dex.now.moves side.now))) }
{
    let count = side.slot_count();
    let mut later = false;
    for slot in 0..count {
        push_piece(line, comma_if(later))?;
        write_slot(line, dex, side, slot)?;
        later = true;
    }
    push_piece(line, "]")
}

#[tactic(auto, unfolding(json::specs::Print::escape_byte))]
fn write_only_move(line: &mut String, id: &str, name: &str) -> Result<(), AllocError>
    ensures { OnOk result (string_bytes line.new ≡ string_bytes line.old ++ items_text false (items_of (only_move id.now name.now))) }
{
    push_text(line, "{\"id\":", id)?;
    push_text(line, ",\"move\":", name)?;
    push_piece(line, "}]")?;
    Ok(())
}

fn write_unheld_moves(line: &mut String, dex: &Dex, side: &SideState) -> Result<(), AllocError>
    requires { IsSide side.now }
    ensures { OnOk result (string_bytes line.new ≡ string_bytes line.old
        ++ items_text false (items_of (unheld_moves dex.now.moves side.now))) }
{
    if has_usable(side) {
        write_slots(line, dex, side)
    } else {
        write_only_move(line, "struggle", "Struggle")
    }
}

/// The moves that can be chosen, and the bracket that closes their array.
#[tactic(auto, unfolding(crate::specs::Requests::moves_data))]
fn write_moves(line: &mut String, dex: &Dex, side: &SideState) -> Result<(), AllocError>
    requires { IsSide side.now }
    ensures { OnOk result (string_bytes line.new ≡ string_bytes line.old
        ++ items_text false (items_of (moves_data dex.now.moves side.now))) }
{
    if side.vol.recharge {
        return write_only_move(line, "recharge", "Recharge");
    }
    match side.vol.lock {
        None => write_unheld_moves(line, dex, side),
        Some(lock) => write_only_move(
            line,
            id_of_move(dex.moves(), lock.mv),
            dex.move_name(lock.mv),
        ),
    }
}

// ---- the members

#[tactic(auto, unfolding(json::specs::Print::escape_byte, crate::specs::Requests::stats_data))]
fn write_stats(line: &mut String, stats: [u16; 4]) -> Result<(), AllocError>
    ensures { OnOk result (string_bytes line.new ≡ string_bytes line.old ++ compact_text (stats_data stats)) }
{
    let [attack, defense, special, speed] = stats;
    push_count(line, "{\"atk\":", u32::from(attack))?;
    push_count(line, ",\"def\":", u32::from(defense))?;
    push_count(line, ",\"spa\":", u32::from(special))?;
    push_count(line, ",\"spd\":", u32::from(special))?;
    push_count(line, ",\"spe\":", u32::from(speed))?;
    push_piece(line, "}")?;
    Ok(())
}

/// The ids of a member's own moves, and the bracket that closes their array.
fn write_own_moves(
    line: &mut String,
    moves: &[MoveItem],
    slots: &[MoveSlot],
) -> Result<(), AllocError>
    ensures { OnOk result (string_bytes line.new ≡ string_bytes line.old
        ++ items_text false (items_of (map (move_id_data moves.now) slots.now))) }
{
    let mut later = false;
    for slot in slots {
        push_text(line, comma_if(later), id_of_move(moves, slot.mv))?;
        later = true;
    }
    push_piece(line, "]")
}

#[tactic(auto, unfolding(json::specs::Print::escape_byte))]
fn write_condition(line: &mut String, scratch: &mut String, m: &Member) -> Result<(), AllocError>
    ensures { OnOk result (string_bytes line.new ≡ string_bytes line.old ++ later_member (codes "condition") (text (condition m.now))) }
{
    scratch.clear();
    push_condition(scratch, m)?;
    push_text(line, ",\"condition\":", scratch.as_str())
}

fn push_details_of(scratch: &mut String, dex: &Dex, m: &Member) -> Result<(), AllocError>
    ensures { OnOk result (string_bytes scratch.new ≡ string_bytes scratch.old ++ details dex.now.species m.now) }
{
    push_details(scratch, dex.all_species(), m)
}

#[tactic(auto, unfolding(json::specs::Print::escape_byte))]
fn write_details(
    line: &mut String,
    scratch: &mut String,
    dex: &Dex,
    m: &Member,
) -> Result<(), AllocError>
    ensures { OnOk result (string_bytes line.new ≡ string_bytes line.old
        ++ later_member (codes "details") (text (details dex.now.species m.now))) }
{
    scratch.clear();
    push_details_of(scratch, dex, m)?;
    push_text(line, ",\"details\":", scratch.as_str())?;
    Ok(())
}

#[tactic(auto, unfolding(json::specs::Print::escape_byte))]
fn write_ident(
    line: &mut String,
    scratch: &mut String,
    nicks: &[Text],
    number: u8,
    index: u8,
) -> Result<(), AllocError>
    ensures { OnOk result (string_bytes line.new ≡ string_bytes line.old
        ++ later_member (codes "ident") (text (ident number (nick_of nicks.now index)))) }
{
    scratch.clear();
    push_ident(scratch, number, nicks, index)?;
    push_text(line, ",\"ident\":", scratch.as_str())
}

// The last two members of a member's object, and the brace that closes it.
#[tactic(auto, unfolding(json::specs::Print::escape_byte))]
fn write_moves_and_stats(line: &mut String, dex: &Dex, m: &Member) -> Result<(), AllocError>
    requires { m.now.slot_count ≤ 4 }
    ensures { OnOk result (string_bytes line.new ≡ string_bytes line.old ++ members_text true (moves_and_stats dex.now.moves m.now)) }
{
    push_piece(line, ",\"moves\":[")?;
    write_own_moves(line, dex.moves(), &m.slots[..m.slot_count as usize])?;
    push_piece(line, ",\"stats\":")?;
    write_stats(line, m.stats)?;
    push_piece(line, "}")?;
    Ok(())
}

// Whether the member at an index of the team is active: once members are sent out the first in the order is.
fn is_active(side: &SideState, out: bool, index: u8) -> bool
    requires { IsSide side.now }
    ensures { result ≡ (out && index == active_index side.now) }
{
    if !out {
        return false;
    }
    index == side.order[0]
}

#[tactic(auto, unfolding(json::specs::Print::escape_byte, crate::specs::Requests::member_data))]
fn write_known_member(
    line: &mut String,
    scratch: &mut String,
    dex: &Dex,
    nicks: &[Text],
    number: u8,
    active: bool,
    m: &Member,
    index: u8,
) -> Result<(), AllocError>
    requires { m.now.slot_count ≤ 4 }
    ensures { OnOk result (string_bytes line.new ≡ string_bytes line.old
        ++ compact_text (member_data dex.now number active (nick_of nicks.now index) m.now)) }
{
    push_flag(line, "{\"active\":", active)?;
    write_condition(line, scratch, m)?;
    write_details(line, scratch, dex, m)?;
    write_ident(line, scratch, nicks, number, index)?;
    write_moves_and_stats(line, dex, m)?;
    Ok(())
}

/// A member at an index of the team. The scratch text is overwritten.
#[tactic(auto, unfolding(crate::specs::Requests::member_at_data))]
fn write_member(
    line: &mut String,
    scratch: &mut String,
    dex: &Dex,
    nicks: &[Text],
    number: u8,
    out: bool,
    side: &SideState,
    index: u8,
) -> Result<(), AllocError>
    requires side { IsSide side.now }
    requires index { index < side.now.count }
    ensures { OnOk result (string_bytes line.new ≡ string_bytes line.old
        ++ compact_text (member_at_data dex.now nicks.now number out side.now index)) }
{
    let m = &side.members[index as usize];
    let active = is_active(side, out, index);
    write_known_member(line, scratch, dex, nicks, number, active, m, index)
}

/// The members in their order now, and the bracket that closes their array.
fn write_members(
    line: &mut String,
    scratch: &mut String,
    dex: &Dex,
    nicks: &[Text],
    number: u8,
    out: bool,
    side: &SideState,
) -> Result<(), AllocError>
    requires { IsSide side.now }
    ensures { OnOk result (string_bytes line.new ≡ string_bytes line.old
        ++ items_text false (items_of (members_data dex.now nicks.now number out side.now))) }
{
    let mut later = false;
    for index in &side.order[..side.count as usize] {
        push_piece(line, comma_if(later))?;
        write_member(line, scratch, dex, nicks, number, out, side, *index)?;
        later = true;
    }
    push_piece(line, "]")
}

#[tactic(auto, unfolding(json::specs::Print::escape_byte, crate::specs::Requests::side_data))]
fn write_side(
    line: &mut String,
    scratch: &mut String,
    dex: &Dex,
    names: SideNames<'_>,
    number: u8,
    out: bool,
    side: &SideState,
) -> Result<(), AllocError>
    requires { IsSide side.now }
    ensures { OnOk result (string_bytes line.new ≡ string_bytes line.old
        ++ compact_text (side_data dex.now names.entry.player.now names.entry.nicks.now number out side.now)) }
{
    push_text(line, "{\"id\":", side_id(number))?;
    push_text(line, ",\"name\":", names.player)?;
    push_piece(line, ",\"pokemon\":[")?;
    write_members(line, scratch, dex, names.nicks, number, out, side)?;
    push_piece(line, "}")?;
    Ok(())
}

// ---- all of it

/// The last members of each request, behind what stands before them: the round, and the side.
#[tactic(auto, unfolding(json::specs::Print::escape_byte))]
fn write_round(
    line: &mut String,
    before: &str,
    scratch: &mut String,
    dex: &Dex,
    names: SideNames<'_>,
    number: u8,
    out: bool,
    side: &SideState,
    round: u32,
) -> Result<(), AllocError>
    requires { IsSide side.now }
    ensures { OnOk result (string_bytes line.new ≡ string_bytes line.old
        ++ (before.now ++ (decimal round ++ later_member (codes "side")
        (side_data dex.now names.entry.player.now names.entry.nicks.now number out side.now)))) }
{
    push_count(line, before, round)?;
    push_piece(line, ",\"side\":")?;
    write_side(line, scratch, dex, names, number, out, side)?;
    Ok(())
}

#[tactic(auto, unfolding(json::specs::Print::escape_byte))]
fn write_turn(
    line: &mut String,
    scratch: &mut String,
    dex: &Dex,
    names: SideNames<'_>,
    number: u8,
    side: &SideState,
    round: u32,
) -> Result<(), AllocError>
    requires { IsSide side.now }
    ensures { OnOk result (string_bytes line.new ≡ string_bytes line.old
        ++ compact_text (turn_data (moves_data dex.now.moves side.now) round
        (side_data dex.now names.entry.player.now names.entry.nicks.now number true side.now))) }
{
    push_piece(line, "{\"active\":[{\"moves\":[")?;
    write_moves(line, dex, side)?;
    write_round(
        line,
        "}],\"rqid\":",
        scratch,
        dex,
        names,
        number,
        true,
        side,
        round,
    )?;
    push_piece(line, "}")?;
    Ok(())
}

#[tactic(auto, unfolding(json::specs::Print::escape_byte))]
fn write_switch(
    line: &mut String,
    scratch: &mut String,
    dex: &Dex,
    names: SideNames<'_>,
    number: u8,
    side: &SideState,
    round: u32,
) -> Result<(), AllocError>
    requires { IsSide side.now }
    ensures { OnOk result (string_bytes line.new ≡ string_bytes line.old
        ++ compact_text (switch_data round (side_data dex.now names.entry.player.now names.entry.nicks.now number true side.now))) }
{
    write_round(
        line,
        "{\"forceSwitch\":[true],\"rqid\":",
        scratch,
        dex,
        names,
        number,
        true,
        side,
        round,
    )?;
    push_piece(line, "}")?;
    Ok(())
}

#[tactic(auto, unfolding(json::specs::Print::escape_byte))]
fn write_wait(
    line: &mut String,
    scratch: &mut String,
    dex: &Dex,
    names: SideNames<'_>,
    number: u8,
    side: &SideState,
    round: u32,
) -> Result<(), AllocError>
    requires { IsSide side.now }
    ensures { OnOk result (string_bytes line.new ≡ string_bytes line.old
        ++ compact_text (wait_data round (side_data dex.now names.entry.player.now names.entry.nicks.now number true side.now))) }
{
    write_round(
        line,
        "{\"rqid\":",
        scratch,
        dex,
        names,
        number,
        true,
        side,
        round,
    )?;
    push_piece(line, ",\"wait\":true}")?;
    Ok(())
}

#[tactic(auto, unfolding(json::specs::Print::escape_byte))]
fn write_preview(
    line: &mut String,
    scratch: &mut String,
    dex: &Dex,
    names: SideNames<'_>,
    number: u8,
    side: &SideState,
    round: u32,
) -> Result<(), AllocError>
    requires { IsSide side.now }
    ensures { OnOk result (string_bytes line.new ≡ string_bytes line.old
        ++ compact_text (preview_data round (side_data dex.now names.entry.player.now names.entry.nicks.now number false side.now))) }
{
    write_round(
        line,
        "{\"rqid\":",
        scratch,
        dex,
        names,
        number,
        false,
        side,
        round,
    )?;
    push_piece(line, ",\"teamPreview\":true}")?;
    Ok(())
}

fn write_switch_or_wait(
    line: &mut String,
    scratch: &mut String,
    dex: &Dex,
    names: SideNames<'_>,
    number: u8,
    replaced: bool,
    side: &SideState,
    round: u32,
) -> Result<(), AllocError>
    requires { IsSide side.now }
    ensures { OnOk result (string_bytes line.new ≡ string_bytes line.old
        ++ compact_text (switch_or_wait replaced round
        (side_data dex.now names.entry.player.now names.entry.nicks.now number true side.now))) }
{
    if replaced {
        write_switch(line, scratch, dex, names, number, side, round)
    } else {
        write_wait(line, scratch, dex, names, number, side, round)
    }
}

/// The request of a side, with the number of the round that is open.
#[tactic(auto, unfolding(crate::specs::Requests::request_data))]
fn write_request(
    line: &mut String,
    scratch: &mut String,
    battle: &Battle,
    dex: &Dex,
    names: SideNames<'_>,
    number: u8,
    round: u32,
) -> Result<(), AllocError>
    requires sound { IsSound battle.now }
    requires number { number < 2 }
    ensures { OnOk result (string_bytes line.new ≡ string_bytes line.old
        ++ compact_text (request_data battle.now.phase dex.now names.entry.player.now names.entry.nicks.now number
        (side_of battle.now number) round)) }
{
    let side = &battle.sides[number as usize];
    match battle.phase {
        Phase::Preview => write_preview(line, scratch, dex, names, number, side, round),
        Phase::Turn => write_turn(line, scratch, dex, names, number, side, round),
        phase => {
            let replaced = replaces(phase, number);
            write_switch_or_wait(line, scratch, dex, names, number, replaced, side, round)
        }
    }
}

/// A text that begins with this front, and behind it the JSON of the request of a side, as `request_text` gives it.
pub fn request_behind(
    alloc: Global,
    front: &str,
    battle: &Battle,
    dex: &Dex,
    names: SideNames<'_>,
    side: u8,
    rqid: u32,
) -> Result<String, AllocError>
    requires sound { IsSound battle.now }
    requires side { side < 2 }
    ensures { IfOk result (λ text. string_bytes text ≡ front.now
        ++ request battle.now.phase dex.now names.entry.player.now names.entry.nicks.now side (side_of battle.now side) rqid) }
{
    let room = ROOM_OF_REQUEST + ROOM_OF_MEMBER * usize::from(battle.sides[side as usize].count);
    let mut line = String::with_capacity(alloc, room)?;
    line.push_str(front)?;
    let mut scratch = String::new(alloc);
    write_request(&mut line, &mut scratch, battle, dex, names, side, rqid)?;
    Ok(line)
}

/// The JSON of the request of a side, 0 or 1, as SIM-PROTOCOL.md's `|request|` carries it, with the number of the round
/// that is open: its moves in a turn, `forceSwitch` where it must send in another member, `teamPreview` where it must put its
/// team into an order, and else `wait`.
pub fn request_text(
    alloc: Global,
    battle: &Battle,
    dex: &Dex,
    names: SideNames<'_>,
    side: u8,
    rqid: u32,
) -> Result<String, AllocError>
    requires sound { IsSound battle.now }
    requires side { side < 2 }
    ensures { IfOk result (λ text. string_bytes text
        ≡ request battle.now.phase dex.now names.entry.player.now names.entry.nicks.now side (side_of battle.now side) rqid) }
{
    request_behind(alloc, "", battle, dex, names, side, rqid)
}
