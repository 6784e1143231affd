//! Why the hall refuses an entry.
ghost use Rattle.std.specs.Prelude.{◌≡◌, IfOk};
ghost use Rattle.ps_base.specs.HallWhys.{hall_why_name, pack_end, team_end, popup_end, popup_line, nametaken_line};

use crate::pack_kind::PackKind;
use crate::team_rule::TeamRule;
use crate::text::Text;
use std::alloc::{AllocError, Global};

/// Why the hall refuses an entry. The last six are also why a text is no command of its connection.
#[derive(Debug)]
pub enum HallWhy {
    /// A Name of who has one.
    AlreadyNamed,
    /// A name that isn't of its form.
    BadName,
    /// The assertion isn't the one that the name takes.
    BadAssertion,
    /// An open connection has the id.
    NameTaken,
    /// A text that is no packed team: the offset of its fault in bytes, and the kind.
    BadPack {
        at: u32,
        kind: PackKind,
    },
    /// No format has the id.
    UnknownFormat,
    /// A search for a format that isn't rated.
    NotRated,
    /// The user has no team.
    NoTeam,
    /// The team breaks a rule of the format: the set, counted from 1, or 0 for the whole team; the rule;
    /// and what breaks it.
    BadTeam {
        set: u8,
        rule: TeamRule,
        subject: Text,
    },
    /// A second search for one format.
    AlreadySearching,
    /// As many battles as there may be have started.
    BattlesFull,
    /// The end of a search where there is none.
    NotSearching,
    /// Nobody online has the id.
    NoSuchUser,
    /// The target is the sender.
    SelfTarget,
    /// The target blocks the sender.
    Blocked,
    /// A second open challenge.
    AlreadyChallenged,
    /// There is no such challenge.
    NoChallenge,
    /// A text of spaces alone.
    EmptyText,
    /// A text of more than 300 characters.
    TooLong,
    /// A block of who is blocked.
    AlreadyBlocked,
    /// The end of a block where there is none.
    NotBlocked,
    /// A report of no battle that goes on.
    NoBattle,
    /// No bar ends the room.
    NoBar,
    /// The word behind the slash is none of the commands'.
    UnknownCommand,
    /// An argument isn't of its form.
    BadArgs,
    /// The connection has no name.
    NotNamed,
    /// A text to one more room than a connection may have.
    RoomLimit,
    /// A text to a room that isn't there.
    NoSuchRoom,
}

// By hand, so that who drops one has one call to prove.
impl Drop for HallWhy {
    fn drop(self) {
        match self {
            HallWhy::AlreadyNamed => {}
            HallWhy::BadName => {}
            HallWhy::BadAssertion => {}
            HallWhy::NameTaken => {}
            HallWhy::BadPack { at: _, kind: _ } => {}
            HallWhy::UnknownFormat => {}
            HallWhy::NotRated => {}
            HallWhy::NoTeam => {}
            HallWhy::BadTeam {
                set: _,
                rule: _,
                subject: _,
            } => {}
            HallWhy::AlreadySearching => {}
            HallWhy::BattlesFull => {}
            HallWhy::NotSearching => {}
            HallWhy::NoSuchUser => {}
            HallWhy::SelfTarget => {}
            HallWhy::Blocked => {}
            HallWhy::AlreadyChallenged => {}
            HallWhy::NoChallenge => {}
            HallWhy::EmptyText => {}
            HallWhy::TooLong => {}
            HallWhy::AlreadyBlocked => {}
            HallWhy::NotBlocked => {}
            HallWhy::NoBattle => {}
            HallWhy::NoBar => {}
            HallWhy::UnknownCommand => {}
            HallWhy::BadArgs => {}
            HallWhy::NotNamed => {}
            HallWhy::RoomLimit => {}
            HallWhy::NoSuchRoom => {}
        }
    }
}

impl HallWhy {
    /// The name of the reason, as a line gives it.
    pub fn name(&self) -> &'static str
        ensures { result.now ≡ hall_why_name self.now }
    {
        match self {
            HallWhy::AlreadyNamed => "AlreadyNamed",
            HallWhy::BadName => "BadName",
            HallWhy::BadAssertion => "BadAssertion",
            HallWhy::NameTaken => "NameTaken",
            HallWhy::BadPack { .. } => "BadPack",
            HallWhy::UnknownFormat => "UnknownFormat",
            HallWhy::NotRated => "NotRated",
            HallWhy::NoTeam => "NoTeam",
            HallWhy::BadTeam { .. } => "BadTeam",
            HallWhy::AlreadySearching => "AlreadySearching",
            HallWhy::BattlesFull => "BattlesFull",
            HallWhy::NotSearching => "NotSearching",
            HallWhy::NoSuchUser => "NoSuchUser",
            HallWhy::SelfTarget => "SelfTarget",
            HallWhy::Blocked => "Blocked",
            HallWhy::AlreadyChallenged => "AlreadyChallenged",
            HallWhy::NoChallenge => "NoChallenge",
            HallWhy::EmptyText => "EmptyText",
            HallWhy::TooLong => "TooLong",
            HallWhy::AlreadyBlocked => "AlreadyBlocked",
            HallWhy::NotBlocked => "NotBlocked",
            HallWhy::NoBattle => "NoBattle",
            HallWhy::NoBar => "NoBar",
            HallWhy::UnknownCommand => "UnknownCommand",
            HallWhy::BadArgs => "BadArgs",
            HallWhy::NotNamed => "NotNamed",
            HallWhy::RoomLimit => "RoomLimit",
            HallWhy::NoSuchRoom => "NoSuchRoom",
        }
    }
}

fn pack_end(alloc: Global, at: u32, kind: PackKind) -> Result<Text, AllocError>
    ensures { IfOk result (λ t. t ≡ pack_end at kind) }
{
    let name = kind.name();
    Ok(Text::from_string(format!(in alloc; " {at} {name}")?))
}

fn team_end(alloc: Global, set: u8, rule: TeamRule, subject: &Text) -> Result<Text, AllocError>
    ensures { IfOk result (λ t. t ≡ team_end set rule subject.now) }
{
    let name = rule.name();
    Ok(Text::from_string(format!(in alloc; " {set} {name} {subject}")?))
}

// What stands behind the name of the reason.
fn popup_end(alloc: Global, why: &HallWhy) -> Result<Text, AllocError>
    ensures { IfOk result (λ t. t ≡ popup_end why.now) }
{
    match why {
        HallWhy::BadPack { at, kind } => pack_end(alloc, *at, *kind),
        HallWhy::BadTeam { set, rule, subject } => team_end(alloc, *set, *rule, subject),
        _ => Ok(Text::new(alloc)),
    }
}

/// What the sender of a refused entry is told, after PROTOCOL.md: `|popup|[WHY]`, with the offset and kind
/// behind BadPack, and set, rule and subject behind BadTeam.
pub fn popup_line(alloc: Global, why: &HallWhy) -> Result<Text, AllocError>
    ensures { IfOk result (λ line. line ≡ popup_line why.now) }
{
    let name = why.name();
    let end = popup_end(alloc, why)?;
    Ok(Text::from_string(format!(in alloc; "|popup|[{name}]{end}")?))
}

/// What who asks for a name that is taken is told, after PROTOCOL.md: `|nametaken|NAME|[NameTaken]`.
pub fn nametaken_line(alloc: Global, name: &str) -> Result<Text, AllocError>
    ensures { IfOk result (λ line. line ≡ nametaken_line name.now) }
{
    Ok(Text::from_string(format!(in alloc; "|nametaken|{name}|[NameTaken]")?))
}
