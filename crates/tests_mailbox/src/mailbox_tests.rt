//! What two senders post in two threads comes out in the order of each, and numbers come to an end.
ghost use Rattle.std.specs.Prelude.{◌≡◌, IfOk};

use ps_base::badge::Badge;
use ps_base::name::Name;
use ps_base::number::{ConnNo, Moment};
use ps_lines::command::Command;
use ps_mailbox::{Drain, Mailbox, NewMailbox, Post, Ticket};
use std::alloc::{AllocError, Global};
use std::sync::Wait;
use std::test::Fail;
use std::thread;

fn post_at(alloc: Global, conn: u32, moment: u64) -> Result<Post, AllocError> {
    Ok(Post {
        conn: ConnNo(conn),
        badge: Badge {
            name: Name::new(alloc, "Ann")?,
            rank: 0,
        },
        moment: Moment(moment),
        cmd: Command::Undo,
    })
}

/// Whether the mailbox took a post.
fn post_one<R: Wait>(
    rt: &R,
    alloc: Global,
    mailbox: &Mailbox,
    ticket: &mut Ticket,
    conn: u32,
    moment: u64,
) -> bool
    requires { ticket.old.mailbox ≡ mailbox.now }
    ensures { ticket.new.mailbox ≡ ticket.old.mailbox }
{
    match post_at(alloc, conn, moment) {
        Ok(post) => mailbox.post(rt, ticket, post).is_ok(),
        Err(AllocError) => false,
    }
}

/// A ticket with which three posts were posted, at moments 0 to 2. Whether the mailbox took them.
fn post_three<R: Wait>(
    rt: &R,
    alloc: Global,
    mailbox: &Mailbox,
    mut ticket: Ticket,
    conn: u32,
) -> (Ticket, bool)
    requires { ticket.mailbox ≡ mailbox.now }
    ensures { result.0.mailbox ≡ ticket.mailbox }
{
    let first = post_one(rt, alloc, mailbox, &mut ticket, conn, 0);
    let second = post_one(rt, alloc, mailbox, &mut ticket, conn, 1);
    let third = post_one(rt, alloc, mailbox, &mut ticket, conn, 2);
    (ticket, first & second & third)
}

/// How many posts of connections 1 and 2 came out, and whether each at the moment after that of the one before.
#[derive(Drop)]
struct Seen {
    one: u64,
    other: u64,
    in_order: bool,
}

fn note(seen: &mut Seen, post: Post) {
    let Post {
        conn,
        badge: _,
        moment,
        cmd: _,
    } = post;
    if conn.0 == 1 {
        seen.in_order &= moment.0 == seen.one;
        seen.one = seen.one.saturating_add(1);
    } else {
        seen.in_order &= moment.0 == seen.other;
        seen.other = seen.other.saturating_add(1);
    }
}

fn take_all<R: Wait>(rt: &R, mailbox: &Mailbox, drain: &mut Drain) -> Seen
    requires { drain.old.mailbox ≡ mailbox.now }
    ensures { drain.new.mailbox ≡ drain.old.mailbox }
{
    let mut seen = Seen {
        one: 0,
        other: 0,
        in_order: true,
    };
    for _ in 0..100 {
        match mailbox.take(rt, drain) {
            Some(post) => note(&mut seen, post),
            None => return seen,
        }
    }
    seen
}

#[test]
fn each_sender_in_its_order(rt: HostRuntime) -> Result<(), Fail> {
    let alloc = rt.alloc();
    let NewMailbox {
        mailbox,
        ticket: mut first,
        mut drain,
    } = Mailbox::new(alloc)?;
    let second = mailbox.split(&mut first)?;
    let shared = &mailbox;
    let ((first, one), (second, other)) = thread::join(
        &rt,
        move ||
            requires { first.mailbox ≡ shared.now }
            ensures { result.0.mailbox ≡ shared.entry.now }
        { post_three(&rt, alloc, shared, first, 1) },
        move ||
            requires { second.mailbox ≡ shared.now }
            ensures { result.0.mailbox ≡ shared.entry.now }
        { post_three(&rt, alloc, shared, second, 2) },
    );
    assert!(rt; one & other);
    let seen = take_all(&rt, &mailbox, &mut drain);
    mailbox.meet(&rt, &mut drain, first);
    mailbox.meet(&rt, &mut drain, second);
    assert!(rt; mailbox.take(&rt, &mut drain).is_none());
    assert!(rt; seen.in_order);
    assert_eq!(rt; seen.one, 3);
    assert_eq!(rt; seen.other, 3);
    Ok(())
}

/// Of tickets that are each split off from the one before, the fifth has no number to give away, and the fourth still has.
#[test]
fn numbers_end(rt: HostRuntime) -> Result<(), Fail> {
    let NewMailbox {
        mailbox,
        ticket: mut first,
        drain: _,
    } = Mailbox::<Post>::new(rt.alloc())?;
    let mut second = mailbox.split(&mut first)?;
    let mut third = mailbox.split(&mut second)?;
    let mut fourth = mailbox.split(&mut third)?;
    let mut fifth = mailbox.split(&mut fourth)?;
    assert!(rt; mailbox.split(&mut fifth).is_err());
    assert!(rt; mailbox.split(&mut fourth).is_ok());
    Ok(())
}
