//! The battle of a room at its opening.
ghost use Rattle.std.specs.Prelude.{◌≡◌, [], ◌∷◌, IfSome, IfOk, Some, None, map, option_map};
ghost use Rattle.std.specs.Arc.{arc_value};
ghost use Rattle.rules_start.specs.Fits.{legal_of, IsFit};
ghost use Rattle.std.specs.Option.{option_copied, option_to_list};
ghost use Rattle.ps_room.specs.Openings.{name_of_format, clauses_of_format, in_percent, team_of_legal, nicks_of_legal, fight_with};
ghost use Rattle.ps_room.specs.Logs.{log_entry_with, opened_log};

use battle_rounds::cast::Cast;
use battle_rounds::room_battle::RoomBattle;
use ps_base::list::List;
use ps_base::name::Name;
use ps_base::number::ConnNo;
use ps_base::text::{Text, copies};
use ps_dex::dex::Dex;
use ps_event::event::{Event, Events};
use ps_mon::team::BattleTeam;
use ps_rules::clause::Clause;
use ps_rules::table::Format;
use ps_splitlog::entry::{Entry as Heard, LogEntry, log_entry_of};
use ps_valid::legal::Legal;
use ps_view::names::Names;
use rules_config::config::Config;
use rules_start::start::Start;
use std::alloc::{AllocError, Global};
use std::sync::Arc;

/// A battle's opening is of no connection; these are numbered from 1.
const NOBODY: ConnNo = ConnNo(0);

fn name_of_format(alloc: Global, format: Option<&Format>) -> Result<Text, AllocError>
    ensures { IfOk result (λ t. t ≡ name_of_format (option_copied format.entry)) }
{
    match format {
        None => Ok(Text::new(alloc)),
        Some(format) => format.name.copy(alloc),
    }
}

/// The clauses that are on, each by its bit.
fn clauses_of_format(format: Option<&Format>) -> u8
    ensures { result ≡ clauses_of_format (option_copied format.entry) }
{
    match format {
        None => 0,
        Some(format) => format.table.clauses,
    }
}

/// Whether others see health in hundredths.
fn in_percent(format: Option<&Format>) -> bool
    ensures { result ≡ in_percent (option_copied format.entry) }
{
    Clause::Percentage.is_in(clauses_of_format(format))
}

/// The battle of a room, if it has one, and what the room's log begins with, the battle's opening.
#[derive(Drop)]
pub(crate) struct Opened {
    pub(crate) battle: Option<RoomBattle>,
    pub(crate) first: Option<LogEntry>,
}

// What a log has of these events, which are of no connection.
fn log_entry_of_opening(alloc: Global, cast: &Cast, told: &[Event]) -> Result<LogEntry, AllocError>
    ensures { IfOk result (λ h. h ≡ log_entry_with (Some cast.now) 0 (record { events = told.now; lines = []; joined = None }) []) }
{
    let heard = Heard {
        conn: NOBODY,
        events: told,
        lines: Vec::new(alloc),
        join: None,
        roles: &[],
    };
    log_entry_of(alloc, cast.names(), cast.dex(), heard)
}

/// The teams of both players, in numbers.
fn fighters_of(teams: &[Legal; 2]) -> [BattleTeam; 2]
    ensures both { result ≡ map team_of_legal teams.now }
    ensures each { result ≡ (legal_of teams.now 0).team ∷ (legal_of teams.now 1).team ∷ [] }
{
    [teams[0].team, teams[1].team]
}

/// The nicknames of both players' members.
fn nicks_of(alloc: Global, teams: &[Legal; 2]) -> Result<[List<Text>; 2], AllocError>
    ensures { IfOk result (λ both. both ≡ map nicks_of_legal teams.now) }
{
    let first = copies(alloc, teams[0].nicks.as_slice())?;
    let second = copies(alloc, teams[1].nicks.as_slice())?;
    Ok([first, second])
}

/// The names of a battle: of its players, of their members and of its format, and how its lines show health.
fn names_with(
    alloc: Global,
    format: Option<&Format>,
    players: [Name; 2],
    teams: &[Legal; 2],
) -> Result<Names, AllocError>
    ensures { IfOk result (λ n. n ≡ record {
      players = players;
      nicks = map nicks_of_legal teams.now;
      format = name_of_format (option_copied format.entry);
      percent = in_percent (option_copied format.entry);
    }) }
{
    let percent = in_percent(format);
    let format = name_of_format(alloc, format)?;
    let nicks = nicks_of(alloc, teams)?;
    Ok(Names {
        players,
        nicks,
        format,
        percent,
    })
}

fn start_battle(
    alloc: Global,
    config: &Config,
    dex: Arc<Dex>,
    start: Start,
) -> Result<Opened, AllocError>
    requires { IsFit start config.now (arc_value dex) }
    ensures battle { IfOk result (λ o. o.battle ≡ Some (fight_with config.now (arc_value dex) start)) }
    ensures first { IfOk result (λ o. option_to_list o.first ≡ opened_log config.now (arc_value dex) (Some start)) }
{
    let Start {
        number,
        format,
        players,
        teams,
        seed,
    } = start;
    let format = config.formats().format(&format);
    let clauses = clauses_of_format(format);
    let fighters = fighters_of(&teams);
    let names = names_with(alloc, format, players, &teams)?;
    let cast = Cast::new(names, dex);
    let mut out = Events::new();
    let battle = RoomBattle::open(number, cast, &fighters, clauses, seed, &mut out);
    let first = log_entry_of_opening(alloc, battle.cast(), out.as_slice())?;
    Ok(Opened {
        battle: Some(battle),
        first: Some(first),
    })
}

/// The battle of a room at its opening, if it has one, and what the room's log begins with.
pub(crate) fn open_battle(
    alloc: Global,
    config: &Config,
    dex: Arc<Dex>,
    start: Option<Start>,
) -> Result<Opened, AllocError>
    requires { IfSome start (λ s. IsFit s config.now (arc_value dex)) }
    ensures battle { IfOk result (λ o. o.battle ≡ option_map (fight_with config.now (arc_value dex)) start) }
    ensures first { IfOk result (λ o. option_to_list o.first ≡ opened_log config.now (arc_value dex) start) }
{
    match start {
        None => Ok(Opened {
            battle: None,
            first: None,
        }),
        Some(start) => start_battle(alloc, config, dex, start),
    }
}
