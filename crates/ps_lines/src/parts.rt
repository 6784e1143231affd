//! Parts of a text.
ghost use Rattle.std.specs.Prelude.{◌≡◌};
ghost use Rattle.std.specs.Option.{option_map};
ghost use Rattle.ps_lines.specs.Parts.{at_first, at_last, after_space};

use ps_base::cut;

/// The parts before and after the first bar.
pub fn at_bar(text: &str) -> Option<(&str, &str)>
    ensures { option_map (λ parts. (parts.0.now, parts.1.now)) result ≡ at_first 124 text.now }
{
    text.split_once('|')
}

/// The parts before and after the first comma.
pub fn at_comma(text: &str) -> Option<(&str, &str)>
    ensures { option_map (λ parts. (parts.0.now, parts.1.now)) result ≡ at_first 44 text.now }
{
    text.split_once(',')
}

/// The parts before and after the first space.
pub fn at_space(text: &str) -> Option<(&str, &str)>
    ensures { option_map (λ parts. (parts.0.now, parts.1.now)) result ≡ at_first 32 text.now }
{
    text.split_once(' ')
}

/// The parts before and after the last bar.
pub fn at_last_bar(text: &str) -> Option<(&str, &str)>
    ensures { option_map (λ parts. (parts.0.now, parts.1.now)) result ≡ at_last 124 text.now }
{
    text.rsplit_once('|')
}

/// The text without the one space at its front.
pub fn after_space(text: &str) -> &str
    ensures { result.now ≡ after_space text.now }
{
    match cut::after(text, " ") {
        None => text,
        Some(rest) => rest,
    }
}
