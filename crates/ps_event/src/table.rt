//! The table of events: who sees each, and which stay in the backlog.
ghost use Rattle.std.specs.Prelude.{◌≡◌};
ghost use Rattle.ps_event.specs.Table.{audience_of, is_logged};

use crate::audience::Audience;
use crate::event::Event;

/// Who sees an event. What tells a member's health is split: its side sees it exactly, all others as a share.
pub fn audience(event: &Event) -> Audience
    ensures { result ≡ audience_of event.now }
{
    match event {
        Event::Switch { who, .. } | Event::Damage { who, .. } | Event::Heal { who, .. } => {
            Audience::Split(who.side)
        }
        Event::Request { side } => Audience::Side(*side),
        _ => Audience::All,
    }
}

/// Whether an event stays in the battle's log, which who joins later is shown: all but requests.
pub fn logged(event: &Event) -> bool
    ensures { result ≡ is_logged event.now }
{
    !matches!(event, Event::Request { .. })
}
