//! What tests of battles run on: who acts, and nicknames.
use ps_base::list::List;
use ps_base::text::Text;
use ps_event::event::Who;
use ps_event::side::Side;
use std::alloc::Global;
use std::process::Abort;

/// P1's first member.
pub(crate) const ANN: Who = Who {
    side: Side::P1,
    member: 0,
};

/// The second member of the same side.
pub(crate) const ANN_2: Who = Who {
    side: Side::P1,
    member: 1,
};

/// P2's first member.
pub(crate) const BOB: Who = Who {
    side: Side::P2,
    member: 0,
};

/// A text of its own that says that.
pub(crate) fn text_of(rt: &impl Abort, alloc: Global, text: &str) -> Text {
    Text::copy_of(alloc, text).expect(rt, "memory")
}

fn put_nick(rt: &impl Abort, nicks: &mut Vec<Text>, text: Text) {
    nicks.push(text).expect(rt, "memory");
}

/// The nicknames of a team.
pub(crate) fn nicks(rt: &impl Abort, alloc: Global, names: &[&str]) -> List<Text> {
    let mut list = Vec::new(alloc);
    for name in names {
        put_nick(rt, &mut list, text_of(rt, alloc, name));
    }
    List::from_vec(list)
}
