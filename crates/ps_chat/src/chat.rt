//! The machine of a chat room.
ghost use Rattle.std.specs.Prelude.{◌≡◌, ◌<◌, List, length, IfOk, OnOk, OnErr, None};
ghost use Rattle.std.specs.Option.{option_copied};
ghost use Rattle.ps_chat.specs.Lookups.{member};
ghost use Rattle.ps_chat.specs.Rooms.{presents, room_of};
ghost use Rattle.ps_chat.specs.Verdicts.{verdict};
ghost use Rattle.ps_chat.specs.Steps.{opened, after};
ghost use Rattle.ps_chat.specs.Told.{lines, joiner};
ghost use Rattle.ps_chat.specs.Changes.{record_after};

use crate::change::change;
use crate::line::ChatLine;
use crate::members::Members;
use crate::present::Present;
use crate::room::Room;
use crate::told::{joiner, room_lines};
use crate::verdict::room_verdict;
use ps_base::badge::Badge;
use ps_base::id_map::IdMap;
use ps_base::number::{ConnNo, Moment};
use ps_base::text::Text;
use ps_base::why::Why;
use ps_group::groups::Groups;
use ps_lines::command::Command;
use std::alloc::{AllocError, Global};
use std::marker::Model;

/// The chat of a room: its members, their rights and what they say. Contracts see what it was opened
/// with, its record, and the lines of the entry that `apply` applied last.
pub struct Chat {
    room: Room,
    lines: Vec<ChatLine>,
}

// By hand, so that who drops one has one call to prove.
impl Drop for Chat {
    fn drop(self) {
        let Chat { room: _, lines: _ } = self;
    }
}

impl Model for Chat {
    ghost use Rattle.ps_chat.specs.Steps.{Seen};
    ghost use Rattle.ps_chat.specs.Rooms.{opening_of, record_of};
    ghost use Rattle.ps_chat.specs.RoomChanges.{Settled};
    ghost use Rattle.std.specs.Coded.{codes, coded_ℕ};
    ghost use base.Stored.{coded_unit};
    ghost use Rattle.ps_base.specs.ById.{by_id_code};

    ghost Value = { Seen };

    ghost coded = { Prim.hlevel (codes, by_id_code coded_ℕ, by_id_code coded_unit) };

    ghost view = { λ c. record { opening = opening_of c.room; state = record_of c.room; lines = c.lines.items } };

    ghost invariant = { λ c. Settled c.room };
}

impl Chat {
    /// A room with nobody in it. `battle` says whether it is a battle's room, and `staff` is the lowest
    /// rank that sees staff notes, an index in the list of groups.
    pub fn new(
        alloc: Global,
        title: &str,
        battle: bool,
        groups: &Groups,
        staff: u8,
    ) -> Result<Chat, AllocError>
        requires { staff < length groups.now }
        ensures { IfOk result (λ c. c ≡ opened (record { title = title.now; battle = battle; groups = groups.now; staff = staff })) }
    {
        Ok(Chat {
            room: Room {
                title: Text::copy_of(alloc, title)?,
                battle,
                groups: groups.copy(alloc)?,
                staff,
                members: Members::new(alloc),
                ranks: IdMap::new(alloc),
                mutes: IdMap::new(alloc),
                bans: IdMap::new(alloc),
                modchat: None,
            },
            lines: Vec::new(alloc),
        })
    }

    /// Why an entry is refused: the first reason of its command's row that holds; `None` where it is
    /// allowed. In a battle's room a member's Choose, Undo and Forfeit are allowed here: the battle
    /// tells the rest of their rows. Takes no memory.
    pub fn verdict(&self, conn: ConnNo, badge: &Badge, moment: Moment, cmd: &Command) -> Option<Why>
        ensures { result ≡ verdict self.now.opening self.now.state conn badge.now moment cmd.now }
    {
        room_verdict(&self.room, conn, badge, moment, cmd)
    }

    /// The lines of an entry that is allowed. A battle's commands have none here.
    pub fn told(
        &self,
        alloc: Global,
        conn: ConnNo,
        badge: &Badge,
        moment: Moment,
        cmd: &Command,
    ) -> Result<Vec<ChatLine>, AllocError>
        ensures { IfOk result (λ v. v.items ≡ lines self.now.opening self.now.state conn badge.now moment cmd.now) }
    {
        room_lines(alloc, &self.room, conn, badge, moment, cmd)
    }

    /// The member that a connection becomes by a Join with this badge.
    pub fn joiner(&self, alloc: Global, conn: ConnNo, badge: &Badge) -> Result<Present, AllocError>
        ensures { IfOk result (λ p. p ≡ joiner (room_of self.now.opening self.now.state) conn badge.now) }
    {
        joiner(alloc, &self.room, conn, badge)
    }

    /// Changes the record as an entry that is allowed does, and makes no lines: `lines` tells those that it
    /// told before. Where memory fails nothing changes. A battle's commands change nothing here.
    pub fn change(
        &mut self,
        alloc: Global,
        conn: ConnNo,
        badge: &Badge,
        moment: Moment,
        cmd: &Command,
    ) -> Result<(), AllocError>
        requires { verdict self.old.opening self.old.state conn badge.now moment cmd.now ≡ None }
        ensures ok { OnOk result (self.new ≡ record self.old
            { state = record_after self.old.opening.groups self.old.state conn badge.now moment cmd.now }) }
        ensures err { OnErr result (self.new ≡ self.old) }
    {
        change(alloc, &mut self.room, conn, badge, moment, cmd)?;
        Ok(())
    }

    /// Applies an entry that is allowed: changes the record and makes the entry's lines. Where memory
    /// fails nothing changes. A battle's commands change nothing here and have no line.
    pub fn apply(
        &mut self,
        alloc: Global,
        conn: ConnNo,
        badge: &Badge,
        moment: Moment,
        cmd: &Command,
    ) -> Result<(), AllocError>
        requires { verdict self.old.opening self.old.state conn badge.now moment cmd.now ≡ None }
        ensures ok { OnOk result (self.new ≡ after self.old conn badge.now moment cmd.now) }
        ensures err { OnErr result (self.new ≡ self.old) }
    {
        let lines = self.told(alloc, conn, badge, moment, cmd)?;
        self.change(alloc, conn, badge, moment, cmd)?;
        self.lines = lines;
        Ok(())
    }

    /// The lines of the entry that `apply` applied last, none before the first. An entry of `change` has no
    /// part in them. Takes no memory.
    pub fn lines(&self) -> &[ChatLine]
        ensures { result.now ≡ self.now.lines }
    {
        self.lines.as_slice()
    }

    /// The members in join order, each with the badge of its Join and with the higher of that badge's
    /// rank and its room rank. Takes no memory.
    pub fn members(&self) -> &[Present]
        ensures { result.now ≡ presents self.now.opening self.now.state }
    {
        self.room.members.as_slice()
    }

    /// The member of a connection, if it has one. Takes no memory and no walk of the members.
    pub fn member(&self, conn: ConnNo) -> Option<&Present>
        ensures { option_copied result ≡ member conn (presents self.now.opening self.now.state) }
    {
        self.room.members.get(conn)
    }

    /// The title.
    pub fn title(&self) -> &str
        ensures { result.now ≡ self.now.opening.title }
    {
        self.room.title.as_str()
    }

    /// Whether it is a battle's room.
    pub fn is_battle(&self) -> bool
        ensures { result ≡ self.now.opening.battle }
    {
        self.room.battle
    }

    /// The groups.
    pub fn groups(&self) -> &Groups
        ensures { result.now ≡ self.now.opening.groups }
    {
        &self.room.groups
    }
}
