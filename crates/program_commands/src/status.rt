//! How a run ends.
ghost use Rattle.std.specs.Prelude.{◌≡◌};
ghost use Rattle.program_commands.specs.Statuses.{number_of};

use ps_base::id::Id;
use ps_base::pack_kind::PackKind;
use ps_base::team_rule::TeamRule;
use ps_base::text::Text;
use ps_data::fault::DataKind;
use replay_script::script::ScriptKind;
use std::fmt;

/// How a run ended. Its `Display` is the name of the variant, and for each field in order a space,
/// the field's name, `=` and its value.
#[derive(Drop)]
pub enum Status {
    /// The command did its work. A replay read its input to the end.
    Done,
    /// The words aren't a command: the index of the first that can't stand, counted from 0, or how many
    /// there are where one is missing.
    Usage {
        word: u32,
    },
    /// There is no file of that name.
    FileMissing {
        name: Text,
    },
    /// The file could not be read.
    FileFault {
        name: Text,
    },
    /// The file is over its limit: 16,777,216 bytes for a dex, 1,048,576 for a configuration, 8,192 for a team,
    /// packed or exported.
    FileLong {
        name: Text,
    },
    /// The dex file has no value: the path of its first fault, and the kind.
    BadDex {
        path: Text,
        kind: DataKind,
    },
    /// The configuration has no value: the path of its first fault, and the kind.
    BadConfig {
        path: Text,
        kind: DataKind,
    },
    /// The input is no script: the first line that can't stand in one, counted from 1, and what is wrong
    /// with it.
    BadScript {
        line: u32,
        kind: ScriptKind,
    },
    /// The input has more than 200,000 lines or 16,777,216 bytes: the count that passed first.
    ScriptLong {
        count: u32,
    },
    /// The source failed.
    ReadFault,
    /// The sink failed; a front of the output was written.
    WriteFault,
    /// The team breaks a rule: the set that does, counted from 1, or 0 where the number of sets does, the
    /// first rule that it breaks, and what breaks it.
    BadTeam {
        set: u8,
        rule: TeamRule,
        subject: Text,
    },
    /// Memory was refused; a front of the output was written.
    NoMemory,
    /// The door failed: it could not listen, or hand out a connection.
    DoorFault,
    /// No format of the configuration has the id.
    UnknownFormat {
        id: Id,
    },
    /// The team's file is no packed team (TEAMS.md of the simulator): the byte at which its longest part
    /// ends that some packed text begins with, and the kind. A file that isn't UTF-8 is reported at 0, of the
    /// kind `Text`.
    BadPack {
        at: u32,
        kind: PackKind,
    },
    /// There is nobody to play a tournament: the dex has no species, or the configuration has no format, or the team of the first
    /// species breaks a rule of the first format.
    NoTour,
    /// The keeper failed: what keeps the notes refused a call.
    KeepFault,
    /// More than 65,536 notes would be kept: how many, those of this run included where the notes that are kept alone aren't
    /// so many. Nothing was noted.
    KeepFull {
        count: u32,
    },
    /// The file is no export text: its first line that can't stand in one, counted from 1, or one more than it has lines where
    /// all of them can. A file that isn't UTF-8 is reported at 0.
    BadExport {
        line: u32,
    },
    /// The team has no export text: its first set, counted from 1, that no export text has as it is, or 0 where the text
    /// would be over 8,192 bytes.
    NoExport {
        set: u8,
    },
}

impl Status {
    /// The number that the program ends with.
    pub fn number(&self) -> u8
        ensures { result ≡ number_of self.now }
    {
        match self {
            Status::Done => 0,
            Status::Usage { .. } => 2,
            Status::FileMissing { .. } => 3,
            Status::FileFault { .. } => 4,
            Status::FileLong { .. } => 5,
            Status::BadDex { .. } => 6,
            Status::BadConfig { .. } => 7,
            Status::BadScript { .. } => 8,
            Status::ScriptLong { .. } => 9,
            Status::ReadFault => 10,
            Status::WriteFault => 11,
            Status::BadTeam { .. } => 12,
            Status::NoMemory => 13,
            Status::DoorFault => 14,
            Status::UnknownFormat { .. } => 15,
            Status::BadPack { .. } => 16,
            Status::NoTour => 18,
            Status::KeepFault => 19,
            Status::KeepFull { .. } => 20,
            Status::BadExport { .. } => 21,
            Status::NoExport { .. } => 22,
        }
    }
}

impl fmt::Display for Status {
    fn fmt<W: fmt::Write>(&self, f: &mut fmt::Formatter<W>) -> fmt::Result {
        match self {
            Status::Done => write!(f, "Done"),
            Status::Usage { word } => write!(f, "Usage word={word}"),
            Status::FileMissing { name } => write!(f, "FileMissing name={name}"),
            Status::FileFault { name } => write!(f, "FileFault name={name}"),
            Status::FileLong { name } => write!(f, "FileLong name={name}"),
            Status::BadDex { path, kind } => write!(f, "BadDex path={path} kind={kind:?}"),
            Status::BadConfig { path, kind } => write!(f, "BadConfig path={path} kind={kind:?}"),
            Status::BadScript { line, kind } => write!(f, "BadScript line={line} kind={kind:?}"),
            Status::ScriptLong { count } => write!(f, "ScriptLong count={count}"),
            Status::ReadFault => write!(f, "ReadFault"),
            Status::WriteFault => write!(f, "WriteFault"),
            Status::BadTeam { set, rule, subject } => {
                write!(f, "BadTeam set={set} rule={rule:?} subject={subject}")
            }
            Status::NoMemory => write!(f, "NoMemory"),
            Status::DoorFault => write!(f, "DoorFault"),
            Status::UnknownFormat { id } => write!(f, "UnknownFormat id={id}"),
            Status::BadPack { at, kind } => write!(f, "BadPack at={at} kind={kind:?}"),
            Status::NoTour => write!(f, "NoTour"),
            Status::KeepFault => write!(f, "KeepFault"),
            Status::KeepFull { count } => write!(f, "KeepFull count={count}"),
            Status::BadExport { line } => write!(f, "BadExport line={line}"),
            Status::NoExport { set } => write!(f, "NoExport set={set}"),
        }
    }
}
