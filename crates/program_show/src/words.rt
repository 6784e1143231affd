//! The words of `show`.
ghost use Rattle.std.specs.Prelude.{◌≡◌, ◌<◌, Ok, Err, map, string_bytes, MatchResult};
ghost use Rattle.std.specs.Option.{option_copied};
ghost use Rattle.program_show.specs.Asked.{json_in, show_in, show_words_in, show_of};

use program_commands::words::{OptionWords, is_name, options_in};

/// What `show` is asked for.
#[derive(Clone, Copy)]
pub struct ShowWords<'a> {
    /// The format, by its name or id, if one is named.
    pub format: Option<&'a str>,
    /// Whether a JSON document is wanted in place of text.
    pub as_json: bool,
    /// The files that options name.
    pub options: OptionWords<'a>,
}

fn json_in<'a>(format: Option<&'a str>, at: u32, words: &'a [String]) -> Result<ShowWords<'a>, u32>
    requires { at < 96 }
    ensures { MatchResult result (λ w. json_in (option_copied format.entry) at (map string_bytes words.now) ≡ Ok (show_of w))
        (λ n. json_in (option_copied format.entry) at (map string_bytes words.now) ≡ Err n) }
{
    if let [word, rest @ ..] = words {
        if word.as_str() == "--json" {
            return match options_in(at + 1, rest) {
                Err(index) => Err(index),
                Ok(options) => Ok(ShowWords {
                    format,
                    as_json: true,
                    options,
                }),
            };
        }
    }
    match options_in(at, words) {
        Err(index) => Err(index),
        Ok(options) => Ok(ShowWords {
            format,
            as_json: false,
            options,
        }),
    }
}

fn show_in(words: &[String]) -> Result<ShowWords<'_>, u32>
    ensures { MatchResult result (λ w. show_in (map string_bytes words.now) ≡ Ok (show_of w))
        (λ n. show_in (map string_bytes words.now) ≡ Err n) }
{
    match words {
        [] => json_in(None, 1, words),
        [word, rest @ ..] => {
            if is_name(word.as_str()) {
                return json_in(Some(word.as_str()), 2, rest);
            }
            json_in(None, 1, words)
        }
    }
}

/// Reads the words of `show`: a format, if one is named, then `--json`, if JSON is wanted, and then `--dex NAME` and
/// `--config NAME`, each at most once, in either order. The error is the index of the first word that can't stand, counted
/// from 0, or how many there are where one is missing.
pub fn read_show_words(words: &[String]) -> Result<ShowWords<'_>, u32>
    ensures { MatchResult result (λ w. show_words_in (map string_bytes words.now) ≡ Ok (show_of w))
        (λ n. show_words_in (map string_bytes words.now) ≡ Err n) }
{
    match words {
        [] => Err(0),
        [word, rest @ ..] => {
            if word.as_str() == "show" {
                return show_in(rest);
            }
            Err(0)
        }
    }
}
