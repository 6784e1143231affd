//! Parts of lines.
ghost use Rattle.std.specs.Prelude.{◌≡◌, ◌==◌, ◌<◌, IfOk, map, length, not};
ghost use Rattle.std.specs.List.{concat, list_all};
ghost use Rattle.std.specs.Option.{option_copied};
ghost use Rattle.std.specs.Str.{chars};
ghost use Rattle.ps_base.specs.Names.{trim_end_spaces};
ghost use Rattle.ps_packed.specs.Packed.{is_nil};
ghost use Rattle.ps_export.specs.Lines.{parts, clean, is_sign, is_bare, bare, after_space};

use ps_base::cut;
use ps_base::text::Text;
use std::alloc::{AllocError, Global};

/// What stands between these characters.
pub fn parts(alloc: Global, text: &str, between: char) -> Result<Vec<&str>, AllocError>
    requires { between < 128 }
    ensures { IfOk result (λ v. map (λ x. x.now) v.items ≡ parts between text.now) }
{
    text.split(between).collect(alloc)
}

fn together(alloc: Global, parts: &[&str]) -> Result<Text, AllocError>
    ensures { IfOk result (λ t. t ≡ concat (map (λ x. x.now) parts.now)) }
{
    let mut whole = String::new(alloc);
    for part in parts {
        whole.push_str(part)?;
    }
    Ok(Text::from_string(whole))
}

fn trim_end_spaces(text: &str) -> &str
    ensures { result.now ≡ trim_end_spaces text.now }
{
    text.trim_end_matches(' ')
}

/// A line without carriage returns and spaces at its end.
#[tactic(auto, unfolding(crate::specs::Lines::clean))]
pub fn clean(alloc: Global, line: &str) -> Result<Text, AllocError>
    ensures { IfOk result (λ t. t ≡ clean line.now) }
{
    let parts = parts(alloc, line, '\r')?;
    let whole = together(alloc, &parts)?;
    Text::copy_of(alloc, trim_end_spaces(whole.as_str()))
}

/// Whether it is empty.
pub fn is_nil(text: &str) -> bool
    ensures { result ≡ is_nil text.now }
{
    match text.as_bytes() {
        [] => true,
        _ => false,
    }
}

/// Whether it has no parenthesis and no at sign.
pub fn has_no_sign(text: &str) -> bool
    ensures { result ≡ list_all (λ b. not (is_sign b)) text.now }
{
    text.as_bytes()
        .iter()
        .all(|b| !(*b == b'(' || *b == b')' || *b == b'@'))
}

/// Whether it is something, without the signs of a first line.
#[tactic(auto, unfolding(crate::specs::Lines::is_bare))]
pub fn is_bare(text: &str) -> bool
    ensures { result ≡ is_bare text.now }
{
    !is_nil(text) && has_no_sign(text)
}

/// The text, if it is bare.
pub fn bare(text: Option<&str>) -> Option<&str>
    ensures { option_copied result ≡ bare (option_copied text.entry) }
{
    match text {
        None => None,
        Some(text) => { if is_bare(text) { Some(text) } else { None } }
    }
}

/// What follows one space.
pub fn after_space(rest: &str) -> Option<&str>
    ensures { option_copied result ≡ after_space rest.now }
{
    cut::after(rest, " ")
}

pub fn char_count(text: &str) -> usize
    ensures { result ≡ length (chars text.now) }
{
    text.chars().count()
}
