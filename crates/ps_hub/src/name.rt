//! Which place an id names.
ghost use Rattle.std.specs.Prelude.{◌≡◌, ◌<◌, ℕ, IfSome, IfNone};
ghost use Rattle.std.specs.Option.{option_map};
ghost use Rattle.ps_lines.specs.Parts.{at_last};
ghost use Rattle.ps_room.specs.Openings.{first_battle};
ghost use Rattle.ps_hub.specs.Names.{IsBattleId, IsFirstChat, IsNoChat, Names};

use ps_base::cut::after;
use ps_base::decimal::read_u32;
use ps_base::limit::MOST_BATTLES;
use ps_room::opening::room_of_battle;
use rules_config::config::Config;

// The number of the chat room with this id.
fn chat_named(config: &Config, id: &str) -> Option<u32>
    ensures found { IfSome result (IsFirstChat config.now id.now) }
    ensures low { IfSome result (λ number. number < first_battle) }
    ensures none { IfNone result (IsNoChat config.now id.now) }
{
    let rooms = config.rooms();
    for number in 0..rooms.len() {
        if rooms[number].id.as_str() == id {
            return Some(number as u32);
        }
    }
    None
}

// The parts before and after the last dash.
fn at_last_dash(text: &str) -> Option<(&str, &str)>
    ensures { option_map (λ parts. (parts.0.now, parts.1.now)) result ≡ at_last 45 text.now }
{
    text.rsplit_once('-')
}

// The number of the battle with this id.
fn battle_named(id: &str) -> Option<u32>
    ensures found { IfSome result (IsBattleId id.now) }
    ensures none { IfNone result ((n : ℕ) → IsBattleId id.now n → ⊥) }
{
    let rest = after(id, "battle-")?;
    let (_, digits) = at_last_dash(rest)?;
    let number = read_u32(digits.as_bytes())?;
    if number == 0 || number > MOST_BATTLES {
        return None;
    }
    Some(number)
}

/// The place that an id names.
pub(crate) fn place_named(config: &Config, id: &str) -> Option<u32>
    ensures found { IfSome result (Names config.now id.now) }
    ensures none { IfNone result (IsNoChat config.now id.now × ((n : ℕ) → IsBattleId id.now n → ⊥)) }
{
    match chat_named(config, id) {
        Some(number) => Some(number),
        None => {
            let number = battle_named(id)?;
            Some(room_of_battle(number))
        }
    }
}
