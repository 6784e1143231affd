//! The words of a server that stays up.
ghost use Rattle.std.specs.NonZero.{non_zero_u32_get};
ghost use Rattle.std.specs.Option.{option_map};
ghost use Rattle.std.specs.Prelude.{◌≡◌, ◌+◌, ◌<◌, Some, Ok, Err, map, string_bytes, MatchResult};
ghost use Rattle.ps_base.specs.Numbers.{number_in};
ghost use Rattle.server_accept.specs.AlwaysWords.{within, asks, option_in, with_at_once, with_ping, with_rate, with_dex, with_config};
ghost use Rattle.server_accept.specs.AlwaysWords.{name_in, word_in, end_of, further_in, always_in, nothing_said, stay_in, bound_of};
ghost use Rattle.server_accept.specs.AlwaysWords.{stay_words_in, further_of, reading_of, stays_of, option_reading};

use program_commands::words::{OptionWords, is_name};
use ps_base::decimal::read_u32;
use std::num::NonZeroU32;

/// How many connections are served at once, if the words don't say.
const AT_ONCE: u32 = 1_024;

/// The most connections that are served at once.
const MOST_AT_ONCE: u32 = 16_384;

/// After how many seconds of silence a client is pinged, if the words don't say.
const PING: u32 = 30;

/// The longest silence before a client is pinged, in seconds.
const MOST_PING: u32 = 3_600;

/// How many messages of a client are read a second, if the words don't say.
const RATE: u32 = 5;

/// The most messages that a bound can be.
const MOST_RATE: u32 = 10_000;

// The most further words: five options with a value and two without, each once.
const MOST_FURTHER: u32 = 12;

/// What `serve ADDRESS always` is asked for.
#[derive(Clone, Copy)]
pub struct AlwaysWords<'a> {
    /// The address at which connections are taken.
    pub address: &'a str,
    /// How many connections are served at once, 1 to 16,384.
    pub at_once: u32,
    /// After how many seconds of silence a client is pinged, 1 to 3,600.
    pub ping: u32,
    /// How many messages of a client are read a second, 1 to 10,000. `None`: as many as come.
    pub rate: Option<NonZeroU32>,
    /// Whether the end of standard input ends it.
    pub stops_at_end: bool,
    /// Whether it tells its operator what happens.
    pub logs: bool,
    /// The files that options name.
    pub options: OptionWords<'a>,
}

// What the further words have said so far.
#[derive(Clone, Copy)]
pub(crate) struct FurtherWords<'a> {
    at_once: Option<u32>,
    ping: Option<u32>,
    rate: Option<u32>,
    stops_at_end: bool,
    logs: bool,
    dex: Option<&'a str>,
    config: Option<&'a str>,
}

// Which word may come next: an option, or the value of the one before.
#[derive(Clone, Copy)]
pub(crate) enum Wants {
    AnOption,
    AtOnce,
    Ping,
    Rate,
    DexName,
    ConfigName,
}

// What was said, and what may come next.
#[derive(Clone, Copy)]
pub(crate) struct WordReading<'a> {
    further: FurtherWords<'a>,
    wants: Wants,
}

// The number of a word, within a range.
fn number_within(least: u32, most: u32, word: &str) -> Option<u32>
    ensures { result ≡ within least most (number_in word.now) }
{
    match read_u32(word.as_bytes()) {
        None => None,
        Some(number) => {
            if number >= least && number <= most {
                return Some(number);
            }
            None
        }
    }
}

// The bound that a number of messages is: 0 is none.
fn bound_of(number: u32) -> Option<NonZeroU32>
    ensures { option_map non_zero_u32_get result ≡ bound_of number }
{
    NonZeroU32::new(number)
}

// What was said by an option, if it wasn't said before.
fn asks(was_said: bool, further: FurtherWords<'_>, wants: Wants) -> Option<WordReading<'_>>
    ensures { option_reading result ≡ asks was_said (further_of further.entry) wants }
{
    if was_said {
        return None;
    }
    Some(WordReading { further, wants })
}

// What a word says where an option may stand.
fn option_in<'a>(further: FurtherWords<'a>, word: &str) -> Option<WordReading<'a>>
    ensures { option_reading result ≡ option_in (further_of further.entry) word.now }
{
    if word == "--at-once" {
        return asks(further.at_once.is_some(), further, Wants::AtOnce);
    }
    if word == "--ping" {
        return asks(further.ping.is_some(), further, Wants::Ping);
    }
    if word == "--rate" {
        return asks(further.rate.is_some(), further, Wants::Rate);
    }
    if word == "--stop-at-end" {
        let stops = FurtherWords {
            stops_at_end: true,
            ..further
        };
        return asks(further.stops_at_end, stops, Wants::AnOption);
    }
    if word == "--log" {
        let logs = FurtherWords {
            logs: true,
            ..further
        };
        return asks(further.logs, logs, Wants::AnOption);
    }
    if word == "--dex" {
        return asks(further.dex.is_some(), further, Wants::DexName);
    }
    if word == "--config" {
        return asks(further.config.is_some(), further, Wants::ConfigName);
    }
    None
}

// Behind what was said an option may stand.
fn said(further: FurtherWords<'_>) -> Option<WordReading<'_>>
    ensures { option_reading result ≡ Some (record { further = further_of further.entry; wants = Wants.AnOption }) }
{
    Some(WordReading {
        further,
        wants: Wants::AnOption,
    })
}

fn with_at_once(further: FurtherWords<'_>, number: Option<u32>) -> Option<WordReading<'_>>
    ensures { option_reading result ≡ with_at_once (further_of further.entry) number }
{
    match number {
        None => None,
        Some(number) => said(FurtherWords {
            at_once: Some(number),
            ..further
        }),
    }
}

fn with_ping(further: FurtherWords<'_>, number: Option<u32>) -> Option<WordReading<'_>>
    ensures { option_reading result ≡ with_ping (further_of further.entry) number }
{
    match number {
        None => None,
        Some(number) => said(FurtherWords {
            ping: Some(number),
            ..further
        }),
    }
}

fn with_rate(further: FurtherWords<'_>, number: Option<u32>) -> Option<WordReading<'_>>
    ensures { option_reading result ≡ with_rate (further_of further.entry) number }
{
    match number {
        None => None,
        Some(number) => said(FurtherWords {
            rate: Some(number),
            ..further
        }),
    }
}

fn with_dex<'a>(further: FurtherWords<'a>, word: &'a str) -> Option<WordReading<'a>>
    ensures { option_reading result ≡ with_dex (further_of further.entry) (name_in word.now) }
{
    if !is_name(word) {
        return None;
    }
    said(FurtherWords {
        dex: Some(word),
        ..further
    })
}

fn with_config<'a>(further: FurtherWords<'a>, word: &'a str) -> Option<WordReading<'a>>
    ensures { option_reading result ≡ with_config (further_of further.entry) (name_in word.now) }
{
    if !is_name(word) {
        return None;
    }
    said(FurtherWords {
        config: Some(word),
        ..further
    })
}

// What a word says, if it can stand.
fn word_in<'a>(reading: WordReading<'a>, word: &'a str) -> Option<WordReading<'a>>
    ensures { option_reading result ≡ word_in reading.entry.wants (further_of reading.entry.further) word.now }
{
    let further = reading.further;
    match reading.wants {
        Wants::AnOption => option_in(further, word),
        Wants::AtOnce => with_at_once(further, number_within(1, MOST_AT_ONCE, word)),
        Wants::Ping => with_ping(further, number_within(1, MOST_PING, word)),
        Wants::Rate => with_rate(further, number_within(0, MOST_RATE, word)),
        Wants::DexName => with_dex(further, word),
        Wants::ConfigName => with_config(further, word),
    }
}

// Behind the last word none is missing.
fn end_of(at: u32, reading: WordReading<'_>) -> Result<FurtherWords<'_>, u32>
    ensures { MatchResult result (λ f. end_of at reading.entry.wants (further_of reading.entry.further) ≡ Ok (further_of f))
        (λ n. end_of at reading.entry.wants (further_of reading.entry.further) ≡ Err n) }
{
    match reading.wants {
        Wants::AnOption => Ok(reading.further),
        Wants::AtOnce | Wants::Ping | Wants::Rate | Wants::DexName | Wants::ConfigName => Err(at),
    }
}

// The words from this index on, of which no more than so many can stand.
fn further_in<'a>(
    most: u32,
    at: u32,
    reading: WordReading<'a>,
    words: &'a [String],
) -> Result<FurtherWords<'a>, u32>
    requires { at + most < 100 }
    ensures { MatchResult result (λ f. further_in most at (reading_of reading.entry) (map string_bytes words.now) ≡ Ok (further_of f))
        (λ n. further_in most at (reading_of reading.entry) (map string_bytes words.now) ≡ Err n) }
{
    match words {
        [] => end_of(at, reading),
        [word, rest @ ..] => {
            if most == 0 {
                return Err(at);
            }
            match word_in(reading, word.as_str()) {
                None => Err(at),
                Some(next) => further_in(most - 1, at + 1, next, rest),
            }
        }
    }
}

// Behind the address.
fn always_in<'a>(address: &'a str, words: &'a [String]) -> Result<AlwaysWords<'a>, u32>
    ensures { MatchResult result (λ w. always_in address.now (map string_bytes words.now) ≡ Ok (stays_of w))
        (λ n. always_in address.now (map string_bytes words.now) ≡ Err n) }
{
    match words {
        [] => Err(2),
        [word, rest @ ..] => {
            if word.as_str() != "always" {
                return Err(2);
            }
            match further_in(MOST_FURTHER, 3, nothing_said(), rest) {
                Err(at) => Err(at),
                Ok(said) => Ok(AlwaysWords {
                    address,
                    at_once: said.at_once.unwrap_or(AT_ONCE),
                    ping: said.ping.unwrap_or(PING),
                    rate: bound_of(said.rate.unwrap_or(RATE)),
                    stops_at_end: said.stops_at_end,
                    logs: said.logs,
                    options: OptionWords {
                        dex: said.dex,
                        config: said.config,
                    },
                }),
            }
        }
    }
}

// Before the first further word.
fn nothing_said<'a>() -> WordReading<'a>
    ensures { reading_of result ≡ nothing_said }
{
    WordReading {
        further: FurtherWords {
            at_once: None,
            ping: None,
            rate: None,
            stops_at_end: false,
            logs: false,
            dex: None,
            config: None,
        },
        wants: Wants::AnOption,
    }
}

fn stay_in(words: &[String]) -> Result<AlwaysWords<'_>, u32>
    ensures { MatchResult result (λ w. stay_in (map string_bytes words.now) ≡ Ok (stays_of w))
        (λ n. stay_in (map string_bytes words.now) ≡ Err n) }
{
    match words {
        [] => Err(1),
        [address, rest @ ..] => {
            if is_name(address.as_str()) {
                always_in(address.as_str(), rest)
            } else {
                Err(1)
            }
        }
    }
}

/// Reads the words of a server that stays up: `serve ADDRESS always`, and then, each at most once and in any order, `--at-once N`,
/// `--ping S`, `--rate N`, `--stop-at-end`, `--log`, `--dex NAME` and `--config NAME`. The numbers are 1 to 16,384, 1 to 3,600 and 0 to
/// 10,000, without a sign or leading zeros, and 1,024, 30 and 5 if they aren't said; a name or an address is a word that isn't empty
/// and doesn't begin with `-`. The error is the index of the first word that can't stand, counted from 0, or how many there are
/// where one is missing.
pub fn read_always_words(words: &[String]) -> Result<AlwaysWords<'_>, u32>
    ensures { MatchResult result (λ w. stay_words_in (map string_bytes words.now) ≡ Ok (stays_of w))
        (λ n. stay_words_in (map string_bytes words.now) ≡ Err n) }
{
    match words {
        [] => Err(0),
        [word, rest @ ..] => {
            if word.as_str() == "serve" {
                return stay_in(rest);
            }
            Err(0)
        }
    }
}
