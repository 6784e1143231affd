//! Texts with a character between each two.
ghost use Rattle.std.specs.Prelude.{◌≡◌, ◌∷◌, ◌<◌, IfOk, map};
ghost use Rattle.std.specs.List.{join_with_byte};

use ps_base::text::Text;
use std::alloc::{AllocError, Global};

fn joined_to(alloc: Global, first: &Text, rest: &[Text], between: char) -> Result<Text, AllocError>
    requires { between < 128 }
    ensures { IfOk result (λ t. t ≡ join_with_byte between (first.now ∷ rest.now)) }
{
    let mut whole = String::from_str(alloc, first.as_str())?;
    for text in rest {
        whole.push(between)?;
        whole.push_str(text.as_str())?;
    }
    Ok(Text::from_string(whole))
}

/// The fields of a set, as a packed text has them.
pub fn fields_joined(alloc: Global, fields: &[&str]) -> Result<Text, AllocError>
    ensures { IfOk result (λ t. t ≡ join_with_byte 124 (map (λ x. x.now) fields.now)) }
{
    Ok(Text::from_string(fields.join(alloc, "|")?))
}

/// The texts with a character between each two.
pub fn joined(alloc: Global, texts: &[Text], between: char) -> Result<Text, AllocError>
    requires { between < 128 }
    ensures { IfOk result (λ t. t ≡ join_with_byte between texts.now) }
{
    match texts.split_first() {
        None => Ok(Text::new(alloc)),
        Some((first, rest)) => joined_to(alloc, first, rest, between),
    }
}
