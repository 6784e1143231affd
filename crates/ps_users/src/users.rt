//! The users of a hall.
ghost use Rattle.std.specs.Prelude.{◌≡◌, IfOk, OnOk, OnErr, Some, None, is_some};
ghost use Rattle.std.specs.Option.{option_copied, option_map};
ghost use Rattle.std.specs.FinMap.{get};
ghost use Rattle.ps_base.specs.Ids.{id_of};
ghost use Rattle.ps_users.specs.Assertions.{challstr_of};
ghost use Rattle.ps_users.specs.Ranks.{rank_of};
ghost use Rattle.ps_users.specs.Records.{nobody, seated, with_seats};
ghost use Rattle.ps_users.specs.Refusals.{read_of, wanted, is_taken, refusal_of_id, refusal_of_read, refusal_of_name, refusal};
ghost use Rattle.ps_users.specs.Seats.{Agrees, badge_in, is_seat, named};
ghost use Rattle.ps_lines.specs.declared.command.HallCmd.TheVariants.{Open, Quit};
ghost use Rattle.ps_users.specs.Steps.{badge_for, with_name, after, granted};

use crate::account::Account;
use crate::assertion::{challstr_of, is_same, wanted_by};
use crate::rank::{capped, registered_rank};
use crate::read::read_of;
use crate::seating::Seating;
use ps_base::badge::Badge;
use ps_base::hall_why::HallWhy;
use ps_base::id_map::IdMap;
use ps_base::name::Name;
use ps_base::number::ConnNo;
use ps_base::text::Text;
use ps_lines::command::HallCmd;
use std::alloc::{AllocError, Global};
use std::marker::Model;

/// The users of a hall: the registered names, the ranks, and who is connected under which name.
pub struct Users {
    nonce: Text,
    accounts: IdMap<Account>,
    ranks: IdMap<u8>,
    lowest: u8,
    seating: Seating,
}

// By hand, so that who drops one has one call to prove.
impl Drop for Users {
    fn drop(self) {
        let Users {
            nonce: _,
            accounts: _,
            ranks: _,
            lowest: _,
            seating: _,
        } = self;
    }
}

impl Model for Users {
    ghost use Rattle.std.specs.Coded.{codes};
    ghost use Rattle.ps_base.specs.ById.{by_id_code};
    ghost use Rattle.ps_users.specs.ByConn.{by_conn_code};
    ghost use Rattle.ps_users.specs.Records.{Record};

    ghost Value = { Record };

    ghost coded = { Prim.hlevel (codes, by_id_code, by_conn_code) };

    ghost view = { λ u. record {
      nonce = u.nonce;
      accounts = u.accounts;
      ranks = u.ranks;
      lowest = u.lowest;
      seats = u.seating.seats;
      online = u.seating.online;
    } };
}

impl Users {
    /// Nobody is connected. The nonce is the text that challenges begin with, and `accounts` are the
    /// registered names by id. The ranks go before those of the registered names, and everyone else has
    /// the lowest; a rank past it counts as the lowest. Takes no memory.
    pub fn new(
        alloc: Global,
        nonce: Text,
        accounts: IdMap<Account>,
        ranks: IdMap<u8>,
        lowest: u8,
    ) -> Users
        ensures { result ≡ nobody nonce accounts ranks lowest }
    {
        Users {
            nonce,
            accounts,
            ranks,
            lowest,
            seating: Seating::new(alloc),
        }
    }

    /// Whether a connection is open. Takes no memory.
    pub fn is_open(&self, conn: ConnNo) -> bool
        ensures { result ≡ is_seat self.now.seats conn }
    {
        self.seating.is_open(conn)
    }

    /// The badge of a connection: `None` exactly where it isn't open or has no name. Takes no memory.
    pub fn badge(&self, conn: ConnNo) -> Option<&Badge>
        ensures value { option_copied result ≡ badge_in self.now.seats conn }
        ensures agrees { Agrees (seated self.now) }
    {
        self.seating.badge(conn)
    }

    /// The open connection that has an id: `None` exactly where none has. Takes no memory.
    pub fn conn(&self, id: &str) -> Option<ConnNo>
        ensures value { result ≡ get self.now.online id.now }
        ensures agrees { Agrees (seated self.now) }
    {
        self.seating.conn(id)
    }

    /// The challenge of a connection, which the assertion of a registered name signs.
    pub fn challstr(&self, alloc: Global, conn: ConnNo) -> Result<Text, AllocError>
        ensures { IfOk result (λ t. t ≡ challstr_of self.now.nonce conn) }
    {
        challstr_of(alloc, &self.nonce, conn)
    }

    /// The rank of an id, an index in the list of groups. Takes no memory.
    pub fn rank_of(&self, id: &str) -> u8
        ensures { result ≡ rank_of self.now id.now }
    {
        match self.ranks.get(id) {
            Some(rank) => capped(self.lowest, rank),
            None => capped(
                self.lowest,
                registered_rank(self.lowest, self.accounts.find(id)),
            ),
        }
    }

    fn badge_for(&self, name: Name) -> Badge
        ensures { result ≡ badge_for self.now name }
    {
        Badge {
            rank: self.rank_of(name.id().as_str()),
            name,
        }
    }

    fn wanted(&self, alloc: Global, conn: ConnNo, id: &str) -> Result<Text, AllocError>
        ensures { IfOk result (λ t. t ≡ wanted self.now conn id.now) }
    {
        wanted_by(alloc, &self.nonce, conn, self.accounts.find(id))
    }

    fn is_taken(&self, id: &str) -> bool
        ensures { result ≡ is_taken self.now id.now }
    {
        self.seating.conn(id).is_some()
    }

    fn refusal_of_id(
        &self,
        alloc: Global,
        conn: ConnNo,
        id: &str,
        assertion: &str,
    ) -> Result<Option<HallWhy>, AllocError>
        ensures { IfOk result (λ o. o ≡ refusal_of_id self.now conn id.now assertion.now) }
    {
        let wanted = self.wanted(alloc, conn, id)?;
        if is_same(assertion, wanted.as_str()) {
            if self.is_taken(id) {
                Ok(Some(HallWhy::NameTaken))
            } else {
                Ok(None)
            }
        } else {
            Ok(Some(HallWhy::BadAssertion))
        }
    }

    fn refusal_of_read(
        &self,
        alloc: Global,
        conn: ConnNo,
        name: &Option<Name>,
        assertion: &str,
    ) -> Result<Option<HallWhy>, AllocError>
        ensures { IfOk result (λ o. o ≡ refusal_of_read self.now conn name.now assertion.now) }
    {
        match name {
            None => Ok(Some(HallWhy::BadName)),
            Some(name) => self.refusal_of_id(alloc, conn, name.id().as_str(), assertion),
        }
    }

    fn refusal_of_name(
        &self,
        alloc: Global,
        conn: ConnNo,
        text: &str,
        assertion: &str,
    ) -> Result<Option<HallWhy>, AllocError>
        ensures { IfOk result (λ o. o ≡ refusal_of_name self.now conn (get self.now.seats conn) text.now assertion.now) }
    {
        match self.seat(conn) {
            None => Ok(Some(HallWhy::NotNamed)),
            Some(Some(_)) => Ok(Some(HallWhy::AlreadyNamed)),
            Some(None) => {
                let name = read_of(alloc, text)?;
                self.refusal_of_read(alloc, conn, &name, assertion)
            }
        }
    }

    fn seat(&self, conn: ConnNo) -> Option<&Option<Badge>>
        ensures { option_copied result ≡ get self.now.seats conn }
    {
        self.seating.seat(conn)
    }

    /// Why a command is refused; `None` where it is allowed. Open and Quit always are. A Name has, in this
    /// order: `NotNamed` where the connection isn't open, `AlreadyNamed` where it has a name, `BadName`
    /// where the text is no name, `BadAssertion` where the assertion isn't the one that the name takes, and
    /// `NameTaken` where an open connection has the id. An unregistered name takes the empty assertion; a
    /// registered one takes SHA-256 over the challenge of the connection, `:` and its secret, in lower hex.
    /// The other commands aren't judged here: `None`.
    pub fn verdict(
        &self,
        alloc: Global,
        conn: ConnNo,
        cmd: &HallCmd,
    ) -> Result<Option<HallWhy>, AllocError>
        ensures { IfOk result (λ o. o ≡ refusal self.now conn cmd.now) }
    {
        match cmd {
            HallCmd::Name { name, assertion } => {
                self.refusal_of_name(alloc, conn, name.as_str(), assertion.as_str())
            }
            _ => Ok(None),
        }
    }

    fn open(&mut self, conn: ConnNo) -> Result<(), AllocError>
        ensures ok { OnOk result (self.new ≡ after self.old conn Open) }
        ensures err { OnErr result (self.new ≡ self.old) }
    {
        self.seating.open(conn)
    }

    /// A connection ends: it and its id are taken away. Takes no memory.
    pub fn close(&mut self, conn: ConnNo)
        ensures { self.new ≡ after self.old conn Quit }
    {
        self.seating.close(conn);
    }

    fn seat_badge(&mut self, alloc: Global, conn: ConnNo, badge: Badge) -> Result<(), AllocError>
        requires open { get self.old.seats conn ≡ Some None }
        requires free { get self.old.online (id_of badge.name) ≡ None }
        ensures ok { OnOk result (self.new ≡ with_seats self.old (named (seated self.old) conn badge)) }
        ensures err { OnErr result (self.new ≡ self.old) }
    {
        self.seating.name(alloc, conn, badge)
    }

    fn give_name(&mut self, alloc: Global, conn: ConnNo, name: Name) -> Result<Badge, AllocError>
        requires open { get self.old.seats conn ≡ Some None }
        requires free { get self.old.online (id_of name) ≡ None }
        ensures badge { IfOk result (λ b. b ≡ badge_for self.old name) }
        ensures ok { OnOk result (self.new ≡ with_name self.old conn (Some name)) }
        ensures err { OnErr result (self.new ≡ self.old) }
    {
        let badge = self.badge_for(name);
        let given = badge.copy(alloc)?;
        self.seat_badge(alloc, conn, badge)?;
        Ok(given)
    }

    fn take_name(
        &mut self,
        alloc: Global,
        conn: ConnNo,
        text: &str,
        assertion: &str,
    ) -> Result<Option<Badge>, AllocError>
        requires { refusal_of_name self.old conn (get self.old.seats conn) text.now assertion.now ≡ None }
        ensures badge { IfOk result (λ o. o ≡ option_map (badge_for self.old) (read_of text.now)) }
        ensures ok { OnOk result (self.new ≡ with_name self.old conn (read_of text.now)) }
        ensures err { OnErr result (self.new ≡ self.old) }
    {
        match read_of(alloc, text)? {
            None => Ok(None),
            Some(name) => {
                let badge = self.give_name(alloc, conn, name)?;
                Ok(Some(badge))
            }
        }
    }

    /// Applies a command that isn't refused, and answers a copy of the badge that a Name gives: the name as
    /// it was read, with the rank of its id. An Open of an open connection changes nothing; a Quit takes the
    /// connection and its id away; the other commands change nothing here. Where memory fails nothing
    /// changes.
    pub fn apply(
        &mut self,
        alloc: Global,
        conn: ConnNo,
        cmd: &HallCmd,
    ) -> Result<Option<Badge>, AllocError>
        requires allowed { refusal self.old conn cmd.now ≡ None }
        ensures badge { IfOk result (λ o. o ≡ granted self.old cmd.now) }
        ensures ok { OnOk result (self.new ≡ after self.old conn cmd.now) }
        ensures err { OnErr result (self.new ≡ self.old) }
    {
        match cmd {
            HallCmd::Open => {
                self.open(conn)?;
                Ok(None)
            }
            HallCmd::Quit => {
                self.close(conn);
                Ok(None)
            }
            HallCmd::Name { name, assertion } => {
                self.take_name(alloc, conn, name.as_str(), assertion.as_str())
            }
            _ => Ok(None),
        }
    }
}
