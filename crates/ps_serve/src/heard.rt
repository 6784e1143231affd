//! What a session tells the operator of the server: what came of a text, as far as everybody may know of it.
ghost use Rattle.std.specs.Prelude.{◌≡◌};

use ps_base::badge::Badge;
use ps_base::id::Id;
use ps_base::text::Text;
use ps_hub::out::HubOut;
use ps_lines::command::Command;
use ps_lines::order::Order;
use ps_outside::link::{Link, News};
use ps_room::outcome::{Ending, Verdict};
use std::alloc::Global;

// An act of staff: in which room, what, and to whom, if to somebody.
#[derive(Drop)]
struct Act {
    room: Text,
    word: &'static str,
    user: Option<Text>,
}

/// What came of the last text that a session heard.
#[derive(Drop)]
pub(crate) struct Heard {
    // The act that it asked for, if memory lasted for that.
    act: Option<Act>,
    is_applied: bool,
    is_named: bool,
    began: Option<u32>,
    ended: Option<Ending>,
}

// The word of a command that is an act of staff, and whom it is done to.
fn act_in(cmd: &Command) -> Option<(&'static str, Option<&Id>)> {
    match cmd {
        Command::Warn { user, reason: _ } => Some(("warn", Some(user))),
        Command::Mute { user, reason: _ } => Some(("mute", Some(user))),
        Command::Unmute { user } => Some(("unmute", Some(user))),
        Command::Ban { user, reason: _ } => Some(("ban", Some(user))),
        Command::Unban { user } => Some(("unban", Some(user))),
        Command::Promote { user, symbol: _ } => Some(("roompromote", Some(user))),
        Command::Modchat { symbol: _ } => Some(("modchat", None)),
        _ => None,
    }
}

// The act of staff that an order asks for. `None` also if out of memory.
fn act_of(alloc: Global, order: &Order) -> Option<Act> {
    let Order::Room { id, cmd } = order else {
        return None;
    };
    let (word, user) = act_in(cmd)?;
    let user = match user {
        None => None,
        Some(user) => Some(Text::copy_of(alloc, user.as_str()).ok()?),
    };
    let room = id.copy(alloc).ok()?;
    Some(Act { room, word, user })
}

// Whether an entry of a room was applied.
fn is_applied(verdict: Option<Verdict>) -> bool {
    match verdict {
        Some(Verdict::Applied) => true,
        Some(Verdict::Refused(_)) => false,
        None => false,
    }
}

// Tells of an act.
fn report_act<L: Link>(link: &mut L, act: &Act)
    ensures talk { L.talk link.new ≡ L.talk link.old }
    ensures counts { L.counts link.new ≡ L.counts link.old }
{
    link.report(News::Moderated {
        room: act.room.as_str(),
        act: act.word,
        user: match &act.user {
            None => None,
            Some(user) => Some(user.as_str()),
        },
    });
}

impl Heard {
    /// Before the first text.
    pub(crate) fn nothing() -> Heard {
        Heard {
            act: None,
            is_applied: false,
            is_named: false,
            began: None,
            ended: None,
        }
    }

    /// What a text asks for, of which nothing has come yet.
    pub(crate) fn asked(alloc: Global, order: &Order) -> Heard {
        Heard {
            act: act_of(alloc, order),
            is_applied: false,
            is_named: false,
            began: None,
            ended: None,
        }
    }

    /// Takes note of what its entry gave.
    pub(crate) fn note(&mut self, out: &HubOut) {
        self.is_applied = is_applied(out.verdict);
        self.is_named = out.badge.is_some();
        self.began = match &out.start {
            None => None,
            Some(start) => Some(start.number),
        };
        self.ended = out.ended;
    }

    /// Tells the operator of it. `badge` is the one that the connection has now.
    pub(crate) fn report<L: Link>(&self, badge: Option<&Badge>, link: &mut L)
        ensures talk { L.talk link.new ≡ L.talk link.old }
        ensures counts { L.counts link.new ≡ L.counts link.old }
    {
        if self.is_named {
            self.report_name(badge, link);
        }
        if self.is_applied {
            self.report_entry(link);
        }
        if let Some(number) = self.began {
            link.report(News::Began { number });
        }
    }

    // Tells of the name that was taken.
    fn report_name<L: Link>(&self, badge: Option<&Badge>, link: &mut L)
        ensures talk { L.talk link.new ≡ L.talk link.old }
        ensures counts { L.counts link.new ≡ L.counts link.old }
    {
        if let Some(badge) = badge {
            let name = badge.name.text().as_str();
            link.report(News::Named { name });
        }
    }

    // Tells of an entry of a room that was applied.
    fn report_entry<L: Link>(&self, link: &mut L)
        ensures talk { L.talk link.new ≡ L.talk link.old }
        ensures counts { L.counts link.new ≡ L.counts link.old }
    {
        if let Some(act) = &self.act {
            report_act(link, act);
        }
        if let Some(ending) = self.ended {
            link.report(News::Ended {
                number: ending.number,
                winner: ending.winner,
            });
        }
    }
}
