//! A chat by itself, which applies an entry and has its lines. A room takes its two steps apart.
use ps_base::badge::Badge;
use ps_base::name::Name;
use ps_base::number::{ConnNo, Moment};
use ps_chat::chat::Chat;
use ps_chat::line::ChatLine;
use ps_group::groups::Groups;
use ps_lines::command::{Command, Parsed};
use ps_lines::read::read_command;
use std::alloc::Global;
use std::process::Abort;

// Memory that is refused ends a test at once: what may return in between would be slow to prove. So would a value of many parts
// be that ends beside others: each kind of them has one function in which it ends alone.

fn parsed(rt: &impl Abort, alloc: Global, text: &str) -> Parsed {
    read_command(alloc, text).expect(rt, "a command")
}

/// In place of a command of the hall a room is told to undo.
fn room_command(parsed: Parsed) -> Command {
    match parsed {
        Parsed::Room(cmd) => cmd,
        Parsed::Hall(_) => Command::Undo,
    }
}

fn command(rt: &impl Abort, alloc: Global, text: &str) -> Command {
    room_command(parsed(rt, alloc, text))
}

/// Ann is staff.
fn badge(rt: &impl Abort, alloc: Global) -> Badge {
    Badge {
        name: Name::new(alloc, "Ann").expect(rt, "memory"),
        rank: 3,
    }
}

fn chat(rt: &impl Abort, alloc: Global) -> Chat {
    let groups = Groups::standard(alloc).expect(rt, "memory");
    let fit = 3 < groups.count();
    assert!(rt; fit);
    Chat::new(alloc, "Lobby", false, &groups, 3).expect(rt, "memory")
}

fn apply_allowed(rt: &impl Abort, alloc: Global, chat: &mut Chat, badge: &Badge, cmd: &Command) {
    match chat.verdict(ConnNo(1), badge, Moment(0), cmd) {
        Some(_) => {}
        None => {
            chat.apply(alloc, ConnNo(1), badge, Moment(0), cmd)
                .expect(rt, "memory");
        }
    }
}

fn discard(_cmd: Command) {}

fn enter_chat(rt: &impl Abort, alloc: Global, chat: &mut Chat, text: &str) {
    let cmd = command(rt, alloc, text);
    let badge = badge(rt, alloc);
    apply_allowed(rt, alloc, chat, &badge, &cmd);
    discard(cmd);
}

fn push_texts(rt: &impl Abort, lines: &[ChatLine], out: &mut String) {
    for line in lines {
        out.push_str(line.text.as_str()).expect(rt, "memory");
        out.push_str("/").expect(rt, "memory");
    }
}

fn push_lines_after(rt: &impl Abort, alloc: Global, chat: &mut Chat, text: &str, out: &mut String) {
    enter_chat(rt, alloc, chat, text);
    push_texts(rt, chat.lines(), out);
}

fn push_lines_after_all(
    rt: &impl Abort,
    alloc: Global,
    chat: &mut Chat,
    texts: &[&str],
    out: &mut String,
) {
    for text in texts {
        push_lines_after(rt, alloc, chat, text, out);
    }
}

fn close_chat(_chat: Chat) {}

/// What a chat's lines are after each of some texts.
fn lines_of(rt: &impl Abort, alloc: Global, texts: &[&str]) -> String {
    let mut chat = chat(rt, alloc);
    let mut out = String::new(alloc);
    push_lines_after_all(rt, alloc, &mut chat, texts, &mut out);
    close_chat(chat);
    out
}

/// The lines are those of the last entry that was allowed.
#[test]
fn chat_by_itself(rt: HostRuntime) {
    let lines = lines_of(&rt, rt.alloc(), &["/join lobby", "hi", "  "]);
    assert_eq!(rt; lines.as_str(), "|j|%Ann/|c:|0|%Ann|hi/|c:|0|%Ann|hi/");
}
