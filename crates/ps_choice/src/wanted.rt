//! What a player asks for.
ghost use Rattle.std.specs.Prelude.{◌≡◌, option_map, IfSome, IfNone};
ghost use Rattle.std.specs.List.{list_all};
ghost use Rattle.ps_choice.specs.Wants.{Want, want_of, IsForm, are_few, is_digit, are_digits, digit_in, move_want, switch_want};
ghost use Rattle.ps_choice.specs.Wants.{team_want, want_in};

use ps_base::cut;

/// What a player asks for, as SIM-PROTOCOL.md's choices say it. Slots and positions count from 1.
#[derive(Clone, Copy, Debug, PartialEq, Eq)]
pub enum Wanted<'a> {
    /// The move in a slot, by one digit.
    Move(u8),
    /// The move of a name.
    Named(&'a str),
    /// The member at a position, by one digit.
    Switch(u8),
    /// Those at these positions to stand first, by one to six digits.
    Team(&'a str),
    /// What comes first.
    Default,
}

/// The digit that a text is.
fn digit(text: &str) -> Option<u8>
    ensures { result ≡ digit_in text.now }
{
    match text.as_bytes() {
        [only] => {
            if only.is_ascii_digit() {
                Some(*only - b'0')
            } else {
                None
            }
        }
        _ => None,
    }
}

fn wanted_move(text: &str) -> Option<Wanted<'_>>
    ensures { option_map want_of result ≡ move_want text.now }
{
    if text.is_empty() {
        return None;
    }
    match digit(text) {
        Some(n) => Some(Wanted::Move(n)),
        None => Some(Wanted::Named(text)),
    }
}

fn wanted_switch(text: &str) -> Option<Wanted<'_>>
    ensures { option_map want_of result ≡ switch_want text.now }
{
    match digit(text) {
        Some(n) => Some(Wanted::Switch(n)),
        None => None,
    }
}

fn are_few(count: usize) -> bool
    ensures { result ≡ are_few count }
{
    count > 0 && count <= 6
}

fn is_digit(byte: u8) -> bool
    ensures { result ≡ is_digit byte }
{
    byte >= b'0' && byte <= b'9'
}

fn all_digits(bytes: &[u8]) -> bool
    ensures { result ≡ list_all is_digit bytes.now }
{
    bytes.iter().all(|byte| is_digit(*byte))
}

/// Whether a text is one to six digits.
fn are_digits(text: &str) -> bool
    ensures { result ≡ are_digits text.now }
{
    let bytes = text.as_bytes();
    if !are_few(bytes.len()) {
        return false;
    }
    all_digits(bytes)
}

fn wanted_team(text: &str) -> Option<Wanted<'_>>
    ensures { option_map want_of result ≡ team_want text.now }
{
    if are_digits(text) {
        Some(Wanted::Team(text))
    } else {
        None
    }
}

#[tactic(auto, unfolding(crate::specs::Wants::want_in))]
fn wanted_in(text: &str) -> Option<Wanted<'_>>
    ensures { option_map want_of result ≡ want_in text.now }
{
    if text == "default" {
        return Some(Wanted::Default);
    }
    if let Some(rest) = cut::after(text, "move ") {
        return wanted_move(rest);
    }
    if let Some(rest) = cut::after(text, "switch ") {
        return wanted_switch(rest);
    }
    if let Some(rest) = cut::after(text, "team ") {
        return wanted_team(rest);
    }
    None
}

/// Reads what a player asks for: `move N`, `move NAME`, `switch N`, `team D..D` or `default`. N is one digit, D..D are one to
/// six, and NAME is neither empty nor one digit. None exactly for each other text. Takes no memory.
pub fn read_choice(text: &str) -> Option<Wanted<'_>>
    ensures found { IfSome result (λ w. IsForm (want_of w) text.now) }
    ensures none { IfNone result ((w : Want) → IsForm w text.now → ⊥) }
    ensures exact { option_map want_of result ≡ want_in text.now }
{
    wanted_in(text)
}
