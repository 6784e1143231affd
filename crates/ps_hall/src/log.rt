//! What the hall keeps of its entries, for those who look later.
ghost use Rattle.std.specs.Prelude.{◌≡◌, ◌++◌, map, drop, OnOk, IfOk};
ghost use Rattle.ps_hall.specs.Halls.{lines_for, message_of, pulled};
ghost use Rattle.ps_base.specs.Messages.{sent, msg_lines};

use crate::notice::Notice;
use ps_base::list::List;
use ps_base::msg::{Msg, push_message};
use ps_base::number::ConnNo;
use ps_base::text::{Text, push_copies};
use std::alloc::{AllocError, Global};

fn push_notice(
    alloc: Global,
    lines: &mut Vec<Text>,
    conn: ConnNo,
    notice: &Notice,
) -> Result<(), AllocError>
    ensures { OnOk result (lines.new.items ≡ lines.old.items ++ lines_for conn notice.now) }
{
    if notice.conn == conn {
        push_copies(alloc, lines, notice.lines.as_slice())?;
    }
    Ok(())
}

fn push_notices(
    alloc: Global,
    lines: &mut Vec<Text>,
    conn: ConnNo,
    notices: &[Notice],
) -> Result<(), AllocError>
    ensures { OnOk result (lines.new.items ≡ lines.old.items ++ message_of conn notices.now) }
{
    for notice in notices {
        push_notice(alloc, lines, conn, notice)?;
    }
    Ok(())
}

/// What a connection is told by these notices.
pub(crate) fn message_of(
    alloc: Global,
    conn: ConnNo,
    notices: &[Notice],
) -> Result<List<Text>, AllocError>
    ensures { IfOk result (λ l. l ≡ message_of conn notices.now) }
{
    let mut lines = Vec::new(alloc);
    push_notices(alloc, &mut lines, conn, notices)?;
    Ok(List::from_vec(lines))
}

/// What is kept past an index.
pub(crate) fn past(log: &[List<Notice>], at: usize) -> &[List<Notice>]
    ensures { result.now ≡ drop at log.now }
{
    if at < log.len() { &log[at..] } else { &[] }
}

/// Puts the messages of what was kept, to a connection, behind the others.
pub(crate) fn push_pulled(
    alloc: Global,
    messages: &mut Vec<Msg>,
    conn: ConnNo,
    log: &[List<Notice>],
) -> Result<(), AllocError>
    ensures { OnOk result (map msg_lines messages.new.items ≡ map msg_lines messages.old.items ++ pulled conn log.now) }
{
    for notices in log {
        let lines = message_of(alloc, conn, notices.as_slice())?;
        push_message(messages, lines)?;
    }
    Ok(())
}
