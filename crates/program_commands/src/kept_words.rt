//! The words of a command that keeps notes, or reads them.
ghost use Rattle.std.specs.Prelude.{◌≡◌, ◌<◌, ◌≤◌, ◌+◌, IfOk, Ok, Err, map, string_bytes, MatchResult};
ghost use Rattle.program_commands.specs.KeptWords.{may_stand, with_name, name_at, option_at, archive_by, archive_if, archive_in};
ghost use Rattle.program_commands.specs.KeptWords.{keep_in, standings_in, kept_words_in, keep_of, asked_kept_of, named_of, place_of};

use crate::words::{OptionWords, is_name, last_name};

/// What `archive` is asked for.
#[derive(Clone, Copy)]
pub struct ArchiveWords<'a> {
    /// The files that options name.
    pub options: OptionWords<'a>,
    /// The name of what keeps the notes.
    pub keep: &'a str,
}

/// What `standings` is asked for.
#[derive(Clone, Copy)]
pub struct StandingsWords<'a> {
    /// The format, by its name or id.
    pub format: &'a str,
    /// The name of what keeps the notes.
    pub keep: &'a str,
}

/// What the words of `run_kept` ask for.
#[derive(Clone, Copy)]
pub enum KeptCommand<'a> {
    /// To replay a script, and to keep its notes.
    Archive(ArchiveWords<'a>),
    /// To print the standings of a format.
    Standings(StandingsWords<'a>),
}

impl<'a> KeptCommand<'a> {
    /// The name of what keeps the notes.
    pub fn keep(self) -> &'a str
        ensures { result.now ≡ keep_of (asked_kept_of self.entry) }
    {
        match self {
            KeptCommand::Archive(words) => words.keep,
            KeptCommand::Standings(words) => words.keep,
        }
    }
}

// What options have named.
#[derive(Clone, Copy)]
struct Names<'a> {
    dex: Option<&'a str>,
    config: Option<&'a str>,
    keep: Option<&'a str>,
}

// How far options were read: the index of the next word, what they have named, and the words from there on.
#[derive(Clone, Copy)]
struct Reading<'a> {
    at: u32,
    names: Names<'a>,
    words: &'a [String],
}

// An option that isn't there yet.
fn may_stand(names: Names<'_>, option: &str) -> bool
    ensures { result ≡ may_stand (named_of names.entry) option.now }
{
    if option == "--dex" {
        return names.dex.is_none();
    }
    if option == "--config" {
        return names.config.is_none();
    }
    if option == "--keep" {
        return names.keep.is_none();
    }
    false
}

fn with_name<'a>(names: Names<'a>, option: &str, name: &'a str) -> Names<'a>
    ensures { named_of result ≡ with_name (named_of names.entry) option.now name.now }
{
    if option == "--dex" {
        return Names {
            dex: Some(name),
            config: names.config,
            keep: names.keep,
        };
    }
    if option == "--config" {
        return Names {
            dex: names.dex,
            config: Some(name),
            keep: names.keep,
        };
    }
    Names {
        dex: names.dex,
        config: names.config,
        keep: Some(name),
    }
}

// Behind an option: its name.
fn name_at<'a>(
    at: u32,
    names: Names<'a>,
    option: &str,
    words: &'a [String],
) -> Result<Reading<'a>, u32>
    requires { at < 100 }
    ensures read { MatchResult result (λ r. name_at at (named_of names.entry) option.now (map string_bytes words.now) ≡ Ok (place_of r))
        (λ n. name_at at (named_of names.entry) option.now (map string_bytes words.now) ≡ Err n) }
    ensures near { IfOk result (λ r. r.at ≤ at + 1) }
{
    match words {
        [] => Err(at),
        [name, rest @ ..] => {
            if !is_name(name.as_str()) {
                return Err(at);
            }
            Ok(Reading {
                at: at + 1,
                names: with_name(names, option, name.as_str()),
                words: rest,
            })
        }
    }
}

// The next option, if there are more words.
fn option_at<'a>(at: u32, names: Names<'a>, words: &'a [String]) -> Result<Reading<'a>, u32>
    requires { at < 99 }
    ensures read { MatchResult result (λ r. option_at at (named_of names.entry) (map string_bytes words.now) ≡ Ok (place_of r))
        (λ n. option_at at (named_of names.entry) (map string_bytes words.now) ≡ Err n) }
    ensures near { IfOk result (λ r. r.at ≤ at + 2) }
{
    match words {
        [] => Ok(Reading { at, names, words }),
        [option, rest @ ..] => {
            if !may_stand(names, option.as_str()) {
                return Err(at);
            }
            name_at(at + 1, names, option.as_str(), rest)
        }
    }
}

fn archive_by(at: u32, names: Names<'_>) -> Result<KeptCommand<'_>, u32>
    ensures { MatchResult result (λ c. archive_by at (named_of names.entry) (named_of names.entry).keep ≡ Ok (asked_kept_of c))
        (λ n. archive_by at (named_of names.entry) (named_of names.entry).keep ≡ Err n) }
{
    match names.keep {
        None => Err(at),
        Some(keep) => Ok(KeptCommand::Archive(ArchiveWords {
            options: OptionWords {
                dex: names.dex,
                config: names.config,
            },
            keep,
        })),
    }
}

// All options were read.
fn archive_if(reading: Reading<'_>) -> Result<KeptCommand<'_>, u32>
    ensures { MatchResult result
        (λ c. archive_if (place_of reading.entry).at (place_of reading.entry).named (place_of reading.entry).words ≡ Ok (asked_kept_of c))
        (λ n. archive_if (place_of reading.entry).at (place_of reading.entry).named (place_of reading.entry).words ≡ Err n) }
{
    match reading.words {
        [] => archive_by(reading.at, reading.names),
        [_, ..] => Err(reading.at),
    }
}

fn archive_in(words: &[String]) -> Result<KeptCommand<'_>, u32>
    ensures { MatchResult result (λ c. archive_in (map string_bytes words.now) ≡ Ok (asked_kept_of c))
        (λ n. archive_in (map string_bytes words.now) ≡ Err n) }
{
    let none = Names {
        dex: None,
        config: None,
        keep: None,
    };
    match option_at(1, none, words) {
        Err(at) => Err(at),
        Ok(one) => match option_at(one.at, one.names, one.words) {
            Err(at) => Err(at),
            Ok(two) => match option_at(two.at, two.names, two.words) {
                Err(at) => Err(at),
                Ok(three) => archive_if(three),
            },
        },
    }
}

fn keep_in<'a>(format: &'a str, words: &'a [String]) -> Result<KeptCommand<'a>, u32>
    ensures { MatchResult result (λ c. keep_in format.now (map string_bytes words.now) ≡ Ok (asked_kept_of c))
        (λ n. keep_in format.now (map string_bytes words.now) ≡ Err n) }
{
    match words {
        [] => Err(2),
        [option, rest @ ..] => {
            if option.as_str() != "--keep" {
                return Err(2);
            }
            match last_name(3, rest) {
                Err(at) => Err(at),
                Ok(keep) => Ok(KeptCommand::Standings(StandingsWords { format, keep })),
            }
        }
    }
}

fn standings_in(words: &[String]) -> Result<KeptCommand<'_>, u32>
    ensures { MatchResult result (λ c. standings_in (map string_bytes words.now) ≡ Ok (asked_kept_of c))
        (λ n. standings_in (map string_bytes words.now) ≡ Err n) }
{
    match words {
        [] => Err(1),
        [format, rest @ ..] => {
            if is_name(format.as_str()) {
                keep_in(format.as_str(), rest)
            } else {
                Err(1)
            }
        }
    }
}

/// Reads the words of a command that keeps notes, or reads them: `archive`, and then `--keep NAME`, and each of `--dex NAME` and
/// `--config NAME` at most once, in any order; or `standings FORMAT`, and then `--keep NAME` alone. A name or a format is a word
/// that isn't empty and doesn't begin with `-`. The error is the index of the first word that can't stand, counted from 0, or
/// how many there are where one is missing.
pub fn read_kept_words(words: &[String]) -> Result<KeptCommand<'_>, u32>
    ensures { MatchResult result (λ c. kept_words_in (map string_bytes words.now) ≡ Ok (asked_kept_of c))
        (λ n. kept_words_in (map string_bytes words.now) ≡ Err n) }
{
    match words {
        [] => Err(0),
        [word, rest @ ..] => {
            if word.as_str() == "archive" {
                return archive_in(rest);
            }
            if word.as_str() == "standings" {
                return standings_in(rest);
            }
            Err(0)
        }
    }
}
