//! The texts that a connection is sent.
ghost use Rattle.std.specs.Prelude.{◌≡◌, IfOk};
ghost use Rattle.std.specs.Option.{option_copied};
ghost use Rattle.ps_base.specs.Messages.{texts_of};

use ps_base::msg::Msg;
use ps_base::text::Text;
use std::alloc::{AllocError, Global};

/// One text for each message, as [`Msg::text`].
pub(crate) fn texts_of(
    alloc: Global,
    room: Option<&str>,
    msgs: &[Msg],
) -> Result<Vec<Text>, AllocError>
    ensures { IfOk result (λ v. v.items ≡ texts_of (option_copied room.entry) msgs.now) }
{
    let mut texts = Vec::new(alloc);
    for msg in msgs {
        texts.push(msg.text(alloc, room)?)?;
    }
    Ok(texts)
}
