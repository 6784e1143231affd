//! The lines of a script.
ghost use Rattle.std.specs.Prelude.{◌≡◌, ◌↔◌, ℕ, List, false, Some, None, IsTrue, IfSome, IfNone};
ghost use Rattle.ps_base.specs.Ids.{id_in, is_id_byte};
ghost use Rattle.replay_script.specs.declared.item.Item.{Item};
ghost use Rattle.replay_script.specs.Items.{IsItem, IsIdle, IsNumber, IsSend, IsGroup, IsCharFirst};

use crate::line::{Line, Said};
use ps_base::cut;
use ps_base::decimal::read_u32;
use ps_base::id::Id;
use ps_base::number::ConnNo;
use ps_base::text::Text;

/// What a line of a script says, with a text and an id of its own.
#[derive(Debug, Drop)]
pub enum Item {
    /// An empty line, or a comment.
    Nothing,
    /// `T N`: the moment is N seconds from here on.
    Moment(u32),
    /// `G SYMBOL ID`: the id has the group of that symbol.
    Group(char, Id),
    /// `+N`: a connection opens.
    Open(ConnNo),
    /// `>N TEXT`: a connection sends a text.
    Send(ConnNo, Text),
    /// `-N`: a connection closes.
    Close(ConnNo),
}

fn is_idle(line: &str) -> bool
    ensures { IsTrue result ↔ IsIdle line.now }
{
    line.is_empty() || cut::after(line, ";").is_some()
}

fn number_after(line: &str, front: &str) -> Option<u32>
    ensures found { IfSome result (λ n. IsNumber front.now line.now n) }
    ensures none { IfNone result ((n : ℕ) → IsNumber front.now line.now n → ⊥) }
{
    match cut::after(line, front) {
        None => None,
        Some(rest) => match read_u32(rest.as_bytes()) {
            None => None,
            Some(n) => Some(n),
        },
    }
}

fn send(line: &str) -> Option<(u32, &str)>
    ensures found { IfSome result (λ p. IsSend line.now p.0 p.1.now) }
    ensures none { IfNone result ((n : ℕ) (text : List ℕ) → IsSend line.now n text → ⊥) }
{
    match cut::after(line, ">") {
        None => None,
        Some(rest) => match cut::at_space(rest) {
            None => None,
            Some((digits, text)) => match read_u32(digits.as_bytes()) {
                None => None,
                Some(n) => Some((n, text)),
            },
        },
    }
}

// The first character, and what follows it.
fn first_char(text: &str) -> Option<(char, &str)>
    ensures found { IfSome result (λ p. IsCharFirst text.now p.0 p.1.now) }
    ensures none { IfNone result ((c : ℕ) (rest : List ℕ) → IsCharFirst text.now c rest → ⊥) }
{
    let mut chars = text.chars();
    match chars.next() {
        None => None,
        Some(c) => Some((c, chars.as_str())),
    }
}

fn is_id_byte(b: u8) -> bool
    ensures { result ≡ is_id_byte b }
{
    b.is_ascii_lowercase() || b.is_ascii_digit()
}

// Whether a text is an id that isn't empty. It is asked for each line, so no id is made of it.
fn is_name(text: &str) -> bool
    ensures found { IsTrue result → id_in text.now ≡ Some text.now }
    ensures none { result ≡ false → id_in text.now ≡ None }
{
    for b in text.as_bytes() {
        if !is_id_byte(*b) {
            return false;
        }
    }
    !text.is_empty()
}

fn group(line: &str) -> Option<(char, &str)>
    ensures found { IfSome result (λ p. IsGroup line.now p.0 p.1.now) }
    ensures none { IfNone result ((symbol : ℕ) (id : List ℕ) → IsGroup line.now symbol id → ⊥) }
{
    match cut::after(line, "G ") {
        None => None,
        Some(rest) => match first_char(rest) {
            None => None,
            Some((symbol, rest)) => match cut::after(rest, " ") {
                None => None,
                Some(id) => {
                    if is_name(id) {
                        Some((symbol, id))
                    } else {
                        None
                    }
                }
            },
        },
    }
}

/// What the line says, or `None` exactly where it has none of the forms.
pub fn read_item(line: &str) -> Option<Line<'_>>
    ensures found { IfSome result (λ i. IsItem line.now i) }
    ensures none { IfNone result ((i : Item) → IsItem line.now i → ⊥) }
{
    if is_idle(line) {
        return Some(Line::new(Said::Nothing));
    }
    if let Some(n) = number_after(line, "T ") {
        return Some(Line::new(Said::Moment(n)));
    }
    if let Some((symbol, id)) = group(line) {
        return Some(Line::new(Said::Group(symbol, id)));
    }
    if let Some(n) = number_after(line, "+") {
        return Some(Line::new(Said::Open(ConnNo(n))));
    }
    if let Some((n, text)) = send(line) {
        return Some(Line::new(Said::Send(ConnNo(n), text)));
    }
    if let Some(n) = number_after(line, "-") {
        return Some(Line::new(Said::Close(ConnNo(n))));
    }
    None
}
