//! The words of a command.
ghost use Rattle.std.specs.Prelude.{◌≡◌, ◌<◌, ◌≤◌, IfOk, IfSome, Ok, Err, map, string_bytes, MatchResult};
ghost use Rattle.std.specs.Option.{option_copied};
ghost use Rattle.program_commands.specs.Words.{is_name, last_name, last_option, dex_first, config_first, options_in, replay_in};
ghost use Rattle.program_commands.specs.Words.{steps_in, drill_in, checks, team_in, check_in, export_in, import_in, users_in};
ghost use Rattle.program_commands.specs.Words.{seed_in, tours_with, seeded_in, tour_in, words_in, count_in, counted_in, serve_in};
ghost use Rattle.program_commands.specs.Words.{serve_words_in, options_of, asked_of, serves_of, HasFewSteps, AreUsers, IsCount};

use itoa::Buffer;
use ps_base::decimal::read_u32;

/// The most steps of a drill.
pub const MOST_STEPS: u32 = 4_000;

/// The most users of a tournament.
pub const MOST_USERS: u32 = 16;

/// The most connections of a run of `serve`.
pub const MOST_COUNT: u32 = 1_024;

/// The files that options name.
#[derive(Clone, Copy)]
pub struct OptionWords<'a> {
    /// The name of the dex file, if one is named.
    pub dex: Option<&'a str>,
    /// The name of the configuration's file, if one is named.
    pub config: Option<&'a str>,
}

/// What `drill` is asked for.
#[derive(Clone, Copy)]
pub struct DrillWords<'a> {
    /// How many steps, 1 to 4,000.
    pub steps: u32,
    /// The files that options name.
    pub options: OptionWords<'a>,
}

/// What `tour` is asked for.
#[derive(Clone, Copy)]
pub struct TourWords<'a> {
    /// How many users, 2 to 16.
    pub users: u8,
    /// What draws their order.
    pub seed: u64,
    /// The files that options name.
    pub options: OptionWords<'a>,
}

/// What `check` is asked for.
#[derive(Clone, Copy)]
pub struct CheckWords<'a> {
    /// The format, by its name or id.
    pub format: &'a str,
    /// The name of the team's file.
    pub team: &'a str,
    /// The name of the dex file, if one is named.
    pub dex: Option<&'a str>,
    /// The name of the configuration's file, if one is named.
    pub config: Option<&'a str>,
}

/// What `serve` is asked for.
#[derive(Clone, Copy)]
pub struct ServeWords<'a> {
    /// The address at which connections are taken.
    pub address: &'a str,
    /// How many connections are taken, 1 to 1,024.
    pub count: u32,
    /// The files that options name.
    pub options: OptionWords<'a>,
}

/// What the words of `run` ask for.
#[derive(Clone, Copy)]
pub enum Command<'a> {
    /// To replay a script, with the files of these names.
    Replay(OptionWords<'a>),
    /// To run the script of a drill, and to tell what came of it.
    Drill(DrillWords<'a>),
    /// To check a team.
    Check(CheckWords<'a>),
    /// To write the export text of the packed team in the file of this name.
    Export(&'a str),
    /// To write the packed text of the team whose export text is in the file of this name.
    Import(&'a str),
    /// To play a tournament.
    Tour(TourWords<'a>),
}

/// Whether a word names a file or a format: it isn't empty, and doesn't begin with `-`.
pub fn is_name(word: &str) -> bool
    ensures { result ≡ is_name word.now }
{
    match word.as_bytes() {
        [] => false,
        [first, ..] => *first != b'-',
    }
}

// A name and nothing more.
pub(crate) fn last_name(at: u32, words: &[String]) -> Result<&str, u32>
    requires { at < 100 }
    ensures { MatchResult result (λ name. last_name at (map string_bytes words.now) ≡ Ok name.now)
        (λ n. last_name at (map string_bytes words.now) ≡ Err n) }
{
    match words {
        [] => Err(at),
        [name] => {
            if is_name(name.as_str()) {
                Ok(name.as_str())
            } else {
                Err(at)
            }
        }
        [name, _, ..] => {
            if is_name(name.as_str()) {
                Err(at + 1)
            } else {
                Err(at)
            }
        }
    }
}

// An option and its name, or nothing.
fn last_option<'a>(option: &str, at: u32, words: &'a [String]) -> Result<Option<&'a str>, u32>
    requires { at < 99 }
    ensures { MatchResult result (λ o. last_option option.now at (map string_bytes words.now) ≡ Ok (option_copied o))
        (λ n. last_option option.now at (map string_bytes words.now) ≡ Err n) }
{
    match words {
        [] => Ok(None),
        [word, rest @ ..] => {
            if word.as_str() != option {
                return Err(at);
            }
            match last_name(at + 1, rest) {
                Err(index) => Err(index),
                Ok(name) => Ok(Some(name)),
            }
        }
    }
}

// Behind `--dex`, where the words begin at an index.
fn dex_first(at: u32, words: &[String]) -> Result<OptionWords<'_>, u32>
    requires { at < 98 }
    ensures { MatchResult result (λ o. dex_first at (map string_bytes words.now) ≡ Ok (options_of o))
        (λ n. dex_first at (map string_bytes words.now) ≡ Err n) }
{
    match words {
        [] => Err(at),
        [name, rest @ ..] => {
            let dex = name.as_str();
            if !is_name(dex) {
                return Err(at);
            }
            match last_option("--config", at + 1, rest) {
                Err(index) => Err(index),
                Ok(config) => Ok(OptionWords {
                    dex: Some(dex),
                    config,
                }),
            }
        }
    }
}

// Behind `--config`, where the words begin at an index.
fn config_first(at: u32, words: &[String]) -> Result<OptionWords<'_>, u32>
    requires { at < 98 }
    ensures { MatchResult result (λ o. config_first at (map string_bytes words.now) ≡ Ok (options_of o))
        (λ n. config_first at (map string_bytes words.now) ≡ Err n) }
{
    match words {
        [] => Err(at),
        [name, rest @ ..] => {
            let config = name.as_str();
            if !is_name(config) {
                return Err(at);
            }
            match last_option("--dex", at + 1, rest) {
                Err(index) => Err(index),
                Ok(dex) => Ok(OptionWords {
                    dex,
                    config: Some(config),
                }),
            }
        }
    }
}

/// Reads `--dex NAME` and `--config NAME`, each at most once, in either order, and nothing more. The words begin at the index
/// `at`, below 97; the error is the index of the first that can't stand, or of the one that is missing.
pub fn options_in(at: u32, words: &[String]) -> Result<OptionWords<'_>, u32>
    requires { at < 97 }
    ensures { MatchResult result (λ o. options_in at (map string_bytes words.now) ≡ Ok (options_of o))
        (λ n. options_in at (map string_bytes words.now) ≡ Err n) }
{
    match words {
        [] => Ok(OptionWords {
            dex: None,
            config: None,
        }),
        [word, rest @ ..] => {
            if word.as_str() == "--dex" {
                return dex_first(at + 1, rest);
            }
            if word.as_str() == "--config" {
                return config_first(at + 1, rest);
            }
            Err(at)
        }
    }
}

fn replay_in(words: &[String]) -> Result<Command<'_>, u32>
    ensures read { MatchResult result (λ c. replay_in (map string_bytes words.now) ≡ Ok (asked_of c))
        (λ n. replay_in (map string_bytes words.now) ≡ Err n) }
    ensures few { IfOk result HasFewSteps }
{
    match options_in(1, words) {
        Err(at) => Err(at),
        Ok(options) => Ok(Command::Replay(options)),
    }
}

// How many steps a word says.
fn steps_in(word: &str) -> Option<u32>
    ensures value { result ≡ steps_in word.now }
    ensures few { IfSome result (λ n. n ≤ 4000) }
{
    match read_u32(word.as_bytes()) {
        None => None,
        Some(steps) => {
            if steps >= 1 && steps <= MOST_STEPS {
                return Some(steps);
            }
            None
        }
    }
}

fn drill_in(words: &[String]) -> Result<Command<'_>, u32>
    ensures read { MatchResult result (λ c. drill_in (map string_bytes words.now) ≡ Ok (asked_of c))
        (λ n. drill_in (map string_bytes words.now) ≡ Err n) }
    ensures few { IfOk result HasFewSteps }
{
    match words {
        [] => Err(1),
        [number, rest @ ..] => match steps_in(number.as_str()) {
            None => Err(1),
            Some(steps) => match options_in(2, rest) {
                Err(at) => Err(at),
                Ok(options) => Ok(Command::Drill(DrillWords { steps, options })),
            },
        },
    }
}

fn checks<'a>(format: &'a str, team: &'a str, words: &'a [String]) -> Result<Command<'a>, u32>
    ensures read { MatchResult result (λ c. checks format.now team.now (options_in 3 (map string_bytes words.now)) ≡ Ok (asked_of c))
        (λ n. checks format.now team.now (options_in 3 (map string_bytes words.now)) ≡ Err n) }
    ensures few { IfOk result HasFewSteps }
{
    match options_in(3, words) {
        Err(at) => Err(at),
        Ok(options) => Ok(Command::Check(CheckWords {
            format,
            team,
            dex: options.dex,
            config: options.config,
        })),
    }
}

fn team_in<'a>(format: &'a str, words: &'a [String]) -> Result<Command<'a>, u32>
    ensures read { MatchResult result (λ c. team_in format.now (map string_bytes words.now) ≡ Ok (asked_of c))
        (λ n. team_in format.now (map string_bytes words.now) ≡ Err n) }
    ensures few { IfOk result HasFewSteps }
{
    match words {
        [] => Err(2),
        [team, rest @ ..] => {
            if is_name(team.as_str()) {
                checks(format, team.as_str(), rest)
            } else {
                Err(2)
            }
        }
    }
}

fn check_in(words: &[String]) -> Result<Command<'_>, u32>
    ensures read { MatchResult result (λ c. check_in (map string_bytes words.now) ≡ Ok (asked_of c))
        (λ n. check_in (map string_bytes words.now) ≡ Err n) }
    ensures few { IfOk result HasFewSteps }
{
    match words {
        [] => Err(1),
        [format, rest @ ..] => {
            if is_name(format.as_str()) {
                team_in(format.as_str(), rest)
            } else {
                Err(1)
            }
        }
    }
}

fn export_in(words: &[String]) -> Result<Command<'_>, u32>
    ensures read { MatchResult result (λ c. export_in (map string_bytes words.now) ≡ Ok (asked_of c))
        (λ n. export_in (map string_bytes words.now) ≡ Err n) }
    ensures few { IfOk result HasFewSteps }
{
    match last_name(1, words) {
        Err(at) => Err(at),
        Ok(name) => Ok(Command::Export(name)),
    }
}

fn import_in(words: &[String]) -> Result<Command<'_>, u32>
    ensures read { MatchResult result (λ c. import_in (map string_bytes words.now) ≡ Ok (asked_of c))
        (λ n. import_in (map string_bytes words.now) ≡ Err n) }
    ensures few { IfOk result HasFewSteps }
{
    match last_name(1, words) {
        Err(at) => Err(at),
        Ok(name) => Ok(Command::Import(name)),
    }
}

// How many users a word says.
fn users_in(word: &str) -> Option<u8>
    ensures value { result ≡ users_in word.now }
    ensures few { IfSome result AreUsers }
{
    match read_u32(word.as_bytes()) {
        None => None,
        Some(users) => {
            if users >= 2 && users <= MOST_USERS {
                return Some(users as u8);
            }
            None
        }
    }
}

// The seed that a word says: it is the number's one decimal text where the number is printed so again.

fn seed_in(word: &str) -> Option<u64>
    ensures { result ≡ seed_in word.now }
{
    match word.parse::<u64>() {
        Err(_) => None,
        Ok(seed) => {
            let mut buffer = Buffer::new();
            if buffer.format(seed) == word {
                return Some(seed);
            }
            None
        }
    }
}

fn tours_with(users: u8, seed: Option<u64>, words: &[String]) -> Result<Command<'_>, u32>
    requires { AreUsers users }
    ensures read { MatchResult result (λ c. tours_with users seed (map string_bytes words.now) ≡ Ok (asked_of c))
        (λ n. tours_with users seed (map string_bytes words.now) ≡ Err n) }
    ensures few { IfOk result HasFewSteps }
{
    match seed {
        None => Err(2),
        Some(seed) => match options_in(3, words) {
            Err(at) => Err(at),
            Ok(options) => Ok(Command::Tour(TourWords {
                users,
                seed,
                options,
            })),
        },
    }
}

fn seeded_in(users: u8, words: &[String]) -> Result<Command<'_>, u32>
    requires { AreUsers users }
    ensures read { MatchResult result (λ c. seeded_in users (map string_bytes words.now) ≡ Ok (asked_of c))
        (λ n. seeded_in users (map string_bytes words.now) ≡ Err n) }
    ensures few { IfOk result HasFewSteps }
{
    match words {
        [] => Err(2),
        [number, rest @ ..] => tours_with(users, seed_in(number.as_str()), rest),
    }
}

fn tour_in(words: &[String]) -> Result<Command<'_>, u32>
    ensures read { MatchResult result (λ c. tour_in (map string_bytes words.now) ≡ Ok (asked_of c))
        (λ n. tour_in (map string_bytes words.now) ≡ Err n) }
    ensures few { IfOk result HasFewSteps }
{
    match words {
        [] => Err(1),
        [number, rest @ ..] => match users_in(number.as_str()) {
            None => Err(1),
            Some(users) => seeded_in(users, rest),
        },
    }
}

/// Reads the words of a command: `replay`, `drill N`, `tour N SEED` or `check FORMAT TEAMFILE`, and then `--dex NAME` and `--config NAME`,
/// each at most once, in either order; or `export FILE` or `import FILE`, and nothing more. N is 1 to 4,000 for a drill and 2
/// to 16 for a tournament, whose SEED is a number of 64 bits, both without a sign or leading zeros; a name, format or file is a
/// word that isn't empty and doesn't begin with `-`. The error is the index of the first word that can't stand, counted from 0,
/// or how many there are where one is missing.
pub fn read_words(words: &[String]) -> Result<Command<'_>, u32>
    ensures read { MatchResult result (λ c. words_in (map string_bytes words.now) ≡ Ok (asked_of c))
        (λ n. words_in (map string_bytes words.now) ≡ Err n) }
    ensures few { IfOk result HasFewSteps }
{
    match words {
        [] => Err(0),
        [word, rest @ ..] => {
            if word.as_str() == "replay" {
                return replay_in(rest);
            }
            if word.as_str() == "drill" {
                return drill_in(rest);
            }
            if word.as_str() == "check" {
                return check_in(rest);
            }
            if word.as_str() == "export" {
                return export_in(rest);
            }
            if word.as_str() == "import" {
                return import_in(rest);
            }
            if word.as_str() == "tour" {
                return tour_in(rest);
            }
            Err(0)
        }
    }
}

// How many connections a word says.
fn count_in(word: &str) -> Option<u32>
    ensures value { result ≡ count_in word.now }
    ensures few { IfSome result IsCount }
{
    match read_u32(word.as_bytes()) {
        None => None,
        Some(count) => {
            if count >= 1 && count <= MOST_COUNT {
                return Some(count);
            }
            None
        }
    }
}

fn counted_in<'a>(address: &'a str, words: &'a [String]) -> Result<ServeWords<'a>, u32>
    ensures read { MatchResult result (λ w. counted_in address.now (map string_bytes words.now) ≡ Ok (serves_of w))
        (λ n. counted_in address.now (map string_bytes words.now) ≡ Err n) }
    ensures few { IfOk result (λ w. IsCount w.count) }
{
    match words {
        [] => Err(2),
        [number, rest @ ..] => match count_in(number.as_str()) {
            None => Err(2),
            Some(count) => match options_in(3, rest) {
                Err(at) => Err(at),
                Ok(options) => Ok(ServeWords {
                    address,
                    count,
                    options,
                }),
            },
        },
    }
}

fn serve_in(words: &[String]) -> Result<ServeWords<'_>, u32>
    ensures read { MatchResult result (λ w. serve_in (map string_bytes words.now) ≡ Ok (serves_of w))
        (λ n. serve_in (map string_bytes words.now) ≡ Err n) }
    ensures few { IfOk result (λ w. IsCount w.count) }
{
    match words {
        [] => Err(1),
        [address, rest @ ..] => {
            if is_name(address.as_str()) {
                counted_in(address.as_str(), rest)
            } else {
                Err(1)
            }
        }
    }
}

/// Reads the words of a server: `serve ADDRESS COUNT`, and then `--dex NAME` and `--config NAME`, each at most once, in either
/// order. COUNT is 1 to 1,024, without a sign or leading zeros; a name or an address is a word that isn't empty and doesn't
/// begin with `-`. The error is the index of the first word that can't stand, counted from 0, or how many there are where one
/// is missing.
pub fn read_serve_words(words: &[String]) -> Result<ServeWords<'_>, u32>
    ensures read { MatchResult result (λ w. serve_words_in (map string_bytes words.now) ≡ Ok (serves_of w))
        (λ n. serve_words_in (map string_bytes words.now) ≡ Err n) }
    ensures few { IfOk result (λ w. IsCount w.count) }
{
    match words {
        [] => Err(0),
        [word, rest @ ..] => {
            if word.as_str() == "serve" {
                return serve_in(rest);
            }
            Err(0)
        }
    }
}
