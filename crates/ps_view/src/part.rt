//! The parts that lines are made of, each put behind what a line has already.
ghost use Rattle.std.specs.Prelude.{◌≡◌, ◌<◌, ◌++◌, OnOk, codes, string_bytes};
ghost use Rattle.std.specs.Fmt.{decimal};
ghost use Rattle.ps_view.specs.Parts.{position, species_word, level_end, details, status_end, share_of, bar_of, shown_share};
ghost use Rattle.ps_view.specs.Parts.{exact_condition, public_condition, condition, still_end, called_end, stages, names_move};
ghost use Rattle.ps_view.specs.Parts.{named_end};

use crate::names::Names;
use crate::word::{side_word, stat_word, status_word};
use itoa::Buffer;
use ps_calc::health::{hundredths, pixels};
use ps_dex::dex::Dex;
use ps_event::event::{Health, Who};
use ps_event::numbers::{EFFECT_DISABLE, EFFECT_MIMIC};
use std::alloc::AllocError;

/// A number in decimal digits.
pub(crate) fn push_number(out: &mut String, number: u16) -> Result<(), AllocError>
    ensures { OnOk result (string_bytes out.new ≡ string_bytes out.old ++ decimal number) }
{
    let mut buffer = Buffer::new();
    out.push_str(buffer.format(number))
}

/// `p1a: NICK`
pub(crate) fn push_position(out: &mut String, names: &Names, who: Who) -> Result<(), AllocError>
    ensures { OnOk result (string_bytes out.new ≡ string_bytes out.old ++ position names.now who) }
{
    out.push_str(side_word(who.side))?;
    out.push_str("a: ")?;
    out.push_str(names.nick(who))
}

fn species_word(dex: &Dex, species: u16) -> &str
    ensures { result.now ≡ species_word dex.now species }
{
    match dex.all_species().get(usize::from(species)) {
        None => "",
        Some(item) => item.name.as_str(),
    }
}

fn push_level_end(out: &mut String, level: u8) -> Result<(), AllocError>
    ensures { OnOk result (string_bytes out.new ≡ string_bytes out.old ++ level_end level) }
{
    if level == 100 {
        return Ok(());
    }
    out.push_str(", L")?;
    push_number(out, u16::from(level))
}

/// `SPECIES`, or `SPECIES, L50` where the level isn't 100.
pub(crate) fn push_details(
    out: &mut String,
    dex: &Dex,
    species: u16,
    level: u8,
) -> Result<(), AllocError>
    ensures { OnOk result (string_bytes out.new ≡ string_bytes out.old ++ details dex.now species level) }
{
    out.push_str(species_word(dex, species))?;
    push_level_end(out, level)
}

fn push_status_end(out: &mut String, status: u8) -> Result<(), AllocError>
    ensures { OnOk result (string_bytes out.new ≡ string_bytes out.old ++ status_end status) }
{
    if status == 0 {
        return Ok(());
    }
    out.push_str(" ")?;
    out.push_str(status_word(status))
}

/// The hundredths that others see.
fn share_of(health: Health) -> u8
    requires { 0 < health.hp }
    ensures { result ≡ share_of health }
{
    if health.hp > health.max {
        return 100;
    }
    hundredths(health.hp, health.max)
}

/// The 48ths that others see.
fn bar_of(health: Health) -> u8
    requires { 0 < health.hp }
    ensures { result ≡ bar_of health }
{
    if health.hp > health.max {
        return 48;
    }
    pixels(health.hp, health.max)
}

/// `N/100` under HP Percentage Mod, else `N/48`.
fn push_shown_share(out: &mut String, percent: bool, health: Health) -> Result<(), AllocError>
    requires { 0 < health.hp }
    ensures { OnOk result (string_bytes out.new ≡ string_bytes out.old ++ shown_share percent health) }
{
    if percent {
        push_number(out, u16::from(share_of(health)))?;
        out.push_str("/100")
    } else {
        push_number(out, u16::from(bar_of(health)))?;
        out.push_str("/48")
    }
}

fn push_exact_condition(out: &mut String, health: Health) -> Result<(), AllocError>
    ensures { OnOk result (string_bytes out.new ≡ string_bytes out.old ++ exact_condition health) }
{
    if health.hp == 0 {
        return out.push_str("0 fnt");
    }
    push_number(out, health.hp)?;
    out.push_str("/")?;
    push_number(out, health.max)?;
    push_status_end(out, health.status)
}

fn push_public_condition(out: &mut String, percent: bool, health: Health) -> Result<(), AllocError>
    ensures { OnOk result (string_bytes out.new ≡ string_bytes out.old ++ public_condition percent health) }
{
    if health.hp == 0 {
        return out.push_str("0 fnt");
    }
    push_shown_share(out, percent, health)?;
    push_status_end(out, health.status)
}

/// `HP/MAX`, or in the public form `N/100` or `N/48`, and the status behind it; `0 fnt` at no health.
pub(crate) fn push_condition(
    out: &mut String,
    exact: bool,
    percent: bool,
    health: Health,
) -> Result<(), AllocError>
    ensures { OnOk result (string_bytes out.new ≡ string_bytes out.old ++ condition exact percent health) }
{
    if exact {
        push_exact_condition(out, health)
    } else {
        push_public_condition(out, percent, health)
    }
}

/// `|[still]` where a move is only prepared.
fn still_end(still: bool) -> &'static str
    ensures { result.now ≡ still_end still }
{
    if still { "|[still]" } else { "" }
}

/// `|[from]MOVE`: the move that called another one, or goes on.
fn push_called_end(out: &mut String, dex: &Dex, from: Option<u16>) -> Result<(), AllocError>
    ensures { OnOk result (string_bytes out.new ≡ string_bytes out.old ++ called_end dex.now from) }
{
    match from {
        None => Ok(()),
        Some(mv) => {
            out.push_str("|[from]")?;
            out.push_str(dex.move_name(mv))
        }
    }
}

/// `|[still]` and `|[from]MOVE`, each where it is so.
pub(crate) fn push_move_ends(
    out: &mut String,
    dex: &Dex,
    still: bool,
    from: Option<u16>,
) -> Result<(), AllocError>
    ensures { OnOk result (string_bytes out.new ≡ string_bytes out.old ++ still_end still ++ called_end dex.now from) }
{
    out.push_str(still_end(still))?;
    push_called_end(out, dex, from)
}

/// `STAT|N`: a stat, and by how many stages it changed.
pub(crate) fn push_stages(out: &mut String, stat: u8, by: u8) -> Result<(), AllocError>
    ensures { OnOk result (string_bytes out.new ≡ string_bytes out.old ++ stages stat by) }
{
    out.push_str(stat_word(stat))?;
    out.push_str("|")?;
    push_number(out, u16::from(by))
}

fn names_move(effect: u8) -> bool
    ensures { result ≡ names_move effect }
{
    effect == EFFECT_MIMIC || effect == EFFECT_DISABLE
}

/// `|MOVE` behind what begins with a move's name.
pub(crate) fn push_named_end(
    out: &mut String,
    dex: &Dex,
    effect: u8,
    mv: Option<u16>,
) -> Result<(), AllocError>
    ensures { OnOk result (string_bytes out.new ≡ string_bytes out.old ++ named_end dex.now effect mv) }
{
    match mv {
        None => Ok(()),
        Some(mv) => {
            if !names_move(effect) {
                return Ok(());
            }
            out.push_str("|")?;
            out.push_str(dex.move_name(mv))
        }
    }
}
