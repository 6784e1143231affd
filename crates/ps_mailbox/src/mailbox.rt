//! The mailbox, its tickets and its drain, and the calls.
ghost use Rattle.std.specs.Prelude.{◌≡◌, ◌+◌, ◌<◌, ℕ, length, IfOk, OnOk, IfErr, OnErr, IfSome, IfNone};
ghost use mathlib.Core.List.{IsPrefix};
ghost use Rattle.ps_mailbox.specs.Posts.{posts_of, AreAllTaken};
ghost use Rattle.ps_mailbox.specs.declared.mailbox.TheConstants.{MOST_POSTS};
ghost use Rattle.ps_mailbox.specs.Tickets.{new_sender, new_receiver, after_post, after_take, after_empty, after_meeting, IsSplit};

use crate::post::Post;
use crate::rule::{Compare, CountEmpty, InOrder, Meet, Part, Pop, Push, Share};
use crate::view::{Numbered, View};
use crossbeam_queue::{RuledSegQueue, SegPass};
use std::alloc::{AllocError, Global};
use std::marker::Model;
use std::sync::Wait;

/// How many posts may be posted with one ticket: 2^62.
pub const MOST_POSTS: u64 = 4_611_686_018_427_387_904;

/// With a ticket that is split off goes one of so many parts of the numbers.
const SHARES: u64 = 65_536;

/// A queue of posts. Contracts see a name, which its tickets and its drain share.
pub struct Mailbox<T = Post> {
    queue: RuledSegQueue<Numbered<T>, View<T>, InOrder>,
}

impl<T> Model for Mailbox<T> {
    ghost use Rattle.std.specs.declared.alloc.Global.{Global};
    ghost use Rattle.crossbeam_queue.specs.SegTies.{SegId};

    ghost Value = { SegId Global };

    ghost view = { λ m. m.queue };
}

/// The right to post under one number, which no other ticket of the mailbox has. Contracts see its mailbox, its number, the end of
/// the numbers that it may give away, and what was posted with it.
#[derive(Drop)]
pub struct Ticket<T = Post> {
    pass: SegPass<Numbered<T>, View<T>>,
    number: u64,
    end: u64,
    posts: u64,
}

impl<T> Model for Ticket<T> {
    ghost use Rattle.std.specs.Prelude.{◌≡◌, None};
    ghost use Rattle.ps_mailbox.specs.Tickets.{Sender};
    ghost use Rattle.ps_mailbox.specs.Views.{sender_of, IsPoster};

    ghost Value = { Sender T };

    ghost view = { λ t. sender_of (record { web = t.pass.web; heap = t.pass.heap }) t.number t.end t.pass.me.view.client };

    ghost invariant = { λ t. (t.pass.me.hand ≡ None) × (t.pass.me.spare ≡ None) × IsPoster t.number t.end t.posts t.pass.me.view.client };
}

/// The right to take, of which a mailbox has one. Contracts see its mailbox, what was taken, the tickets that it has met, and how
/// often nothing was there to take.
#[derive(Drop)]
pub struct Drain<T = Post> {
    pass: SegPass<Numbered<T>, View<T>>,
}

impl<T> Model for Drain<T> {
    ghost use Rattle.std.specs.Prelude.{◌≡◌, None};
    ghost use Rattle.ps_mailbox.specs.Tickets.{Receiver};
    ghost use Rattle.ps_mailbox.specs.Views.{receiver_of, IsTaker};

    ghost Value = { Receiver T };

    ghost view = { λ d. receiver_of (record { web = d.pass.web; heap = d.pass.heap }) d.pass.me.view.client };

    ghost invariant = { λ d. (d.pass.me.hand ≡ None) × (d.pass.me.spare ≡ None) × IsTaker d.pass.me.view.client };
}

/// A mailbox that is new, its first ticket, and its drain.
#[derive(Drop)]
pub struct NewMailbox<T = Post> {
    pub mailbox: Mailbox<T>,
    pub ticket: Ticket<T>,
    pub drain: Drain<T>,
}

impl<T: Drop> Mailbox<T> {
    /// An empty mailbox. `AllocError` if out of memory, or if a post has 2^31 bytes or more.
    #[tactic(auto, using(crate::proofs::Steps::begins, crate::proofs::Steps::parts))]
    pub fn new(alloc: Global) -> Result<NewMailbox<T>, AllocError>
        ensures ticket { IfOk result (λ made. made.ticket ≡ new_sender made.mailbox) }
        ensures drain { IfOk result (λ made. made.drain ≡ new_receiver made.mailbox) }
    {
        let (queue, mut pass) = RuledSegQueue::with_rule(alloc)?;
        let other = queue.another::<Part>(&mut pass);
        let ticket = Ticket {
            pass,
            number: 0,
            end: u64::MAX,
            posts: 0,
        };
        let drain = Drain { pass: other };
        Ok(NewMailbox {
            mailbox: Mailbox { queue },
            ticket,
            drain,
        })
    }

    /// A ticket with a number that no other has. Takes no memory; `AllocError` exactly if the ticket has no number to give away.
    #[tactic(auto, using(crate::proofs::Steps::splits))]
    pub fn split(&self, ticket: &mut Ticket<T>) -> Result<Ticket<T>, AllocError>
        requires { ticket.old.mailbox ≡ self.now }
        ensures ok { IfOk result (λ other. IsSplit ticket.old ticket.new other) }
        ensures err { OnErr result ((ticket.new ≡ ticket.old) × (ticket.old.end ≡ ticket.old.number + 1)) }
    {
        let (number, end) = (ticket.number, ticket.end);
        if end - number < 2 {
            return Err(AllocError);
        }
        let middle = end - ((end - number - 1) / SHARES + 1);
        let pass = self.queue.another::<Share>(&mut ticket.pass);
        ticket.end = middle;
        Ok(Ticket {
            pass,
            number: middle,
            end,
            posts: 0,
        })
    }

    /// Appends a post. It comes back if out of memory, if `MOST_POSTS` were posted with this ticket, or if the queue is at the end
    /// of its indices: that is some 2^57 posts before 2^62, from all tickets together.
    pub fn post<R: Wait>(&self, rt: &R, ticket: &mut Ticket<T>, post: T) -> Result<(), T>
        requires { ticket.old.mailbox ≡ self.now }
        ensures ok { OnOk result (ticket.new ≡ after_post ticket.old post) }
        ensures limit { OnOk result (length ticket.old.posted < MOST_POSTS) }
        ensures err { IfErr result (λ back. (back ≡ post) × (ticket.new ≡ ticket.old)) }
    {
        if ticket.posts >= MOST_POSTS {
            return Err(post);
        }
        let number = ticket.number;
        let numbered = Numbered { number, post };
        match self
            .queue
            .push_as::<Push, R>(rt, &mut ticket.pass, numbered)
        {
            Ok(()) => {
                ticket.posts += 1;
                Ok(())
            }
            Err(numbered) => Err(numbered.post),
        }
    }

    /// Takes the oldest post. None only if nothing was there at a moment of this call: by then all was taken that was posted with
    /// the tickets that the drain has met.
    #[tactic(auto, using(crate::proofs::Steps::counts))]
    pub fn take<R: Wait>(&self, rt: &R, drain: &mut Drain<T>) -> Option<T>
        requires { drain.old.mailbox ≡ self.now }
        ensures some { IfSome result (λ post. (number : ℕ) × (drain.new ≡ after_take drain.old number post)) }
        ensures none { IfNone result (drain.new ≡ after_empty drain.old) }
        ensures empty { IfNone result (AreAllTaken drain.new.taken drain.new.met) }
    {
        match self.queue.pop_as::<Pop, R>(rt, &mut drain.pass) {
            Some(numbered) => Some(numbered.post),
            None => {
                self.queue.another::<CountEmpty>(&mut drain.pass);
                None
            }
        }
    }

    /// The drain meets a ticket, with which nothing is posted any more: what was taken under its number is, in order, the first so
    /// many of its posts.
    pub fn meet<R: Wait>(&self, rt: &R, drain: &mut Drain<T>, ticket: Ticket<T>)
        requires { (drain.old.mailbox ≡ self.now) × (ticket.mailbox ≡ self.now) }
        ensures met { drain.new ≡ after_meeting drain.old ticket }
        ensures prefix { IsPrefix (posts_of ticket.number drain.new.taken) ticket.posted }
    {
        let Ticket {
            pass,
            number: _,
            end: _,
            posts: _,
        } = ticket;
        self.queue.absorb::<Meet>(&mut drain.pass, pass);
        self.queue.len_as::<Compare, R>(rt, &mut drain.pass);
    }
}

impl<T: Drop> Drop for Mailbox<T> {
    fn drop(self) {
        let Mailbox { queue } = self;
        queue.destroy();
    }
}
