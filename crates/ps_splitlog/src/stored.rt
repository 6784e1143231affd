//! A line as the log holds it.
ghost use Rattle.std.specs.Prelude.{◌≡◌, ◌++◌, ◌∷◌, [], IfOk, if◌then◌else◌};
ghost use Rattle.std.specs.Option.{option_copied};
ghost use Rattle.ps_splitlog.specs.Lines.{sees, shown, is_logged_line, split_line, same_line, stored_by, stored_of_event, stored_of_line};

use ps_base::number::ConnNo;
use ps_base::text::Text;
use ps_dex::dex::Dex;
use ps_event::audience::Audience;
use ps_event::event::Event;
use ps_event::line::ChatLine;
use ps_event::side::Side;
use ps_event::table::{audience, logged};
use ps_view::line::line_for;
use ps_view::names::Names;
use ps_view::role::{Role, has_role, reads_exactly};
use std::alloc::{AllocError, Global};
use std::marker::Model;

/// A line of an entry, each text once.
#[derive(Debug, Drop)]
pub enum Stored {
    /// One text for all who see it.
    Same {
        /// Who sees it.
        audience: Audience,
        /// Whether it stands in the backlog from then on.
        logged: bool,
        /// The text, without a newline.
        text: Text,
    },
    /// A text for the player of a side, and one for all other members.
    Split {
        /// The side whose player reads the secret text.
        side: Side,
        /// Whether it stands in the backlog from then on.
        logged: bool,
        /// What the player of the side reads.
        secret: Text,
        /// What every other member reads.
        public: Text,
    },
}

/// The lines of an entry. Contracts see the list of them.
#[derive(Debug, Drop)]
pub struct Lines {
    inner: Vec<Stored>,
}

impl Model for Lines {
    ghost use Rattle.std.specs.Prelude as prelude;
    ghost use Rattle.ps_splitlog.specs.declared.stored.Stored.{Stored};

    ghost Value = { prelude.List Stored };

    ghost view = { λ l. l.inner.items };
}

// Shares the text of a line, if several may be shown it: not one that is for a connection alone, and not what one side alone reads.
fn share_line(alloc: Global, line: &mut Stored)
    ensures { line.new ≡ line.old }
{
    match line {
        Stored::Same { audience, text, .. } => match *audience {
            Audience::One(_) | Audience::Side(_) => {}
            _ => text.share(alloc),
        },
        Stored::Split { public, .. } => public.share(alloc),
    }
}

impl Lines {
    /// The same lines. Takes no memory.
    pub fn from_vec(inner: Vec<Stored>) -> Lines
        ensures { result ≡ inner.items }
    {
        Lines { inner }
    }

    /// The lines as a slice.
    pub fn as_slice(&self) -> &[Stored]
        ensures { result.now ≡ self.now }
    {
        self.inner.as_slice()
    }

    /// Lets each text that several may be shown share its bytes with the copies that they are sent. Contracts see no difference.
    pub fn share(&mut self, alloc: Global)
        ensures { self.new ≡ self.old }
    {
        for i in 0..self.inner.len() {
            share_line(alloc, &mut self.inner[i]);
        }
    }

    /// The lines themselves.
    pub fn into_vec(self) -> Vec<Stored>
        ensures { result.items ≡ self }
    {
        self.inner
    }
}

// ---- what is shown

/// Whether a connection in this role sees what has this audience. One connection's own line is seen by it
/// whether it is a member or not.
pub fn sees(conn: ConnNo, role: Role, audience: Audience) -> bool
    ensures { result ≡ sees conn role audience }
{
    match audience {
        Audience::One(other) => conn.0 == other,
        other => has_role(other, role),
    }
}

fn one_of<'a>(is_secret: bool, secret: &'a Text, public: &'a Text) -> &'a Text
    ensures { result.now ≡ (if is_secret then secret.now else public.now) }
{
    if is_secret { secret } else { public }
}

/// The text of a stored line that a connection in this role is shown. Takes no memory.
pub fn shown<'a>(conn: ConnNo, role: Role, line: &'a Stored) -> Option<&'a Text>
    ensures { option_copied result ≡ shown conn role line.now }
{
    match line {
        Stored::Same { audience, text, .. } => {
            if sees(conn, role, *audience) {
                Some(text)
            } else {
                None
            }
        }
        Stored::Split {
            side,
            secret,
            public,
            ..
        } => {
            let audience = Audience::Split(*side);
            if has_role(audience, role) {
                Some(one_of(reads_exactly(audience, role), secret, public))
            } else {
                None
            }
        }
    }
}

/// Whether a line stands in the backlog.
pub fn is_logged_line(line: &Stored) -> bool
    ensures { result ≡ is_logged_line line.now }
{
    match line {
        Stored::Same { logged, .. } => *logged,
        Stored::Split { logged, .. } => *logged,
    }
}

// ---- what is stored

fn split_line(
    side: Side,
    logged: bool,
    secret: Option<Text>,
    public: Option<Text>,
) -> Option<Stored>
    ensures { result ≡ split_line side logged secret public }
{
    match secret {
        None => None,
        Some(secret) => match public {
            None => None,
            Some(public) => Some(Stored::Split {
                side,
                logged,
                secret,
                public,
            }),
        },
    }
}

fn same_line(audience: Audience, logged: bool, text: Option<Text>) -> Option<Stored>
    ensures { result ≡ same_line audience logged text }
{
    match text {
        None => None,
        Some(text) => Some(Stored::Same {
            audience,
            logged,
            text,
        }),
    }
}

/// What is stored of an event: of one whose audience is split by a side two texts, of a request nothing.
#[tactic(auto, unfolding(crate::specs::Lines::stored_of_event))]
pub fn stored_of_event(
    alloc: Global,
    names: &Names,
    dex: &Dex,
    event: &Event,
) -> Result<Option<Stored>, AllocError>
    ensures { IfOk result (λ s. s ≡ stored_of_event names.now dex.now event.now) }
{
    let public = line_for(alloc, event, Role::Spectator { rank: 0 }, names, dex)?;
    match audience(event) {
        Audience::Split(side) => {
            let secret = line_for(alloc, event, Role::Player { side, rank: 0 }, names, dex)?;
            Ok(split_line(side, logged(event), secret, public))
        }
        other => Ok(same_line(other, logged(event), public)),
    }
}

/// What is stored of a line that is text already. Takes no memory.
pub fn stored_of_line(line: ChatLine<Text>) -> Stored
    ensures { result ≡ stored_of_line line }
{
    Stored::Same {
        audience: line.audience,
        logged: line.logged,
        text: line.text,
    }
}
