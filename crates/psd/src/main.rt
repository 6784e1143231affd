//! The program.
#![tactic(auto)]

mod door;
mod link;
mod random;
mod server;

use crate::server::{always_status, serve_status};
use program_commands::kept_words::read_kept_words;
use program_commands::status::Status;
use program_show::show::show;
use ps_keep::sql_keeper::SqlKeeper;
use ps_outside::host_files::HostFiles;
use ps_outside::sink::StdSink;
use ps_outside::source::StdSource;
use ps_replay::run::run;
use ps_replay::run_kept::run_kept;
use std::process::ExitCode;
use std::{env, io};

const HELP: &str = "\
psd, a battle server of the kind that Pokemon Showdown players connect to.

Usage:
  psd serve ADDRESS COUNT [--dex NAME] [--config NAME]
      listens at the address, as 127.0.0.1:8000, and serves the next COUNT
      connections over WebSocket, 1 to 1024; ends when all of them have ended.
      Once it listens it prints `listening on ADDRESS:PORT` on standard error;
      the port 0 lets the host choose one
  psd serve ADDRESS always [--at-once N] [--ping S] [--rate N] [--stop-at-end]
      [--log] [--dex NAME] [--config NAME]
      the same, but lets in connections as others end, N of them at once, 1024 if
      not said, at most 16384; further ones wait. A client that was silent for S
      seconds, 30 if not said, is pinged, and parted from after twice that. Of each
      client N messages a second are read, 5 if not said, after four times as many
      at once; 0 is no bound. With --stop-at-end the end of standard input ends it.
      With --log it prints a line on standard error when a connection opens or ends,
      takes a name or moderates a room, and when a battle begins or ends. A nonce or
      a seed that the configuration doesn't say is drawn at each start
  psd replay [--dex NAME] [--config NAME]
      reads a recorded script of connections from standard input, and writes what
      each connection is sent to standard output
  psd check FORMAT TEAMFILE [--dex NAME] [--config NAME]
      checks the packed team of a file against the rules of a format, and prints
      `legal`, or ends with the first rule that the team breaks
  psd import FILE
      reads a team as a teambuilder exports it, and prints its packed text; do this
      first: `psd import FILE > TEAMFILE`
  psd export FILE
      reads a packed team, and prints it as a teambuilder imports it
  psd show [FORMAT] [--json] [--dex NAME] [--config NAME]
      tells what the two files say, or what a format comes to; and where a file is
      wrong: the line, the column, and what was expected there
  psd drill N [--dex NAME] [--config NAME]
      makes a script of N steps, 1 to 4000, runs it, and prints six lines that say
      what came of it: the same on every machine, as long as the files are
  psd tour N SEED [--dex NAME] [--config NAME]
      plays a tournament of N users, 2 to 16, in an order that the seed draws, and
      prints the transcript of its battles, who beat whom, and the champion
  psd archive --keep NAME [--dex NAME] [--config NAME]
      does what `replay` does, and first notes in the database NAME each act of staff
      and each rated battle that was won; `sqlite3 NAME` reads it
  psd standings FORMAT --keep NAME
      prints the id and the rating of each user by the rated battles of the format
      that the database NAME has notes of, the best first
  psd --help
      prints this help
  psd --version
      prints the program's version, and the toolchain that proved it

  --dex NAME     the dex file: the types, moves and species of battles; without
                 one there are none
  --config NAME  the configuration: groups, rooms, users and formats; without one
                 there is no format

Where BadDex or BadConfig ends a run, `psd show` with the same files says more.

A run that does not end well prints one line on standard error, as
`psd: Usage word=1`, and ends with the number of that line's status. `word` is
the first word that can't stand: it counts from 0, which is the command, and is
the number of words if one is missing.

docs/PROTOCOL.md has every line of scripts and transcripts, and docs/DATA.md every
key of the files.
";

const VERSION: &str = "\
psd 0.1.0
rattle-kit-13f logic dac8208d650f15bf
";

/// Why there are no words: memory was refused, or one of them isn't UTF-8.
fn no_words(why: &io::Error) -> Status {
    match why.kind() {
        io::ErrorKind::OutOfMemory => Status::NoMemory,
        _ => Status::Usage { word: 0 },
    }
}

fn words(rt: &HostRuntime) -> io::Result<Vec<String>> {
    let mut words = Vec::new(rt.alloc());
    for word in env::args(rt)?.skip(1) {
        words
            .push(word)
            .map_err(|_| io::Error::from(io::ErrorKind::OutOfMemory))?;
    }
    Ok(words)
}

/// What the words ask for.
enum Asked {
    /// A text, which is printed.
    Text(&'static str),
    /// A server, and the words are its own to read.
    Server,
    /// A server that stays up, and the words are its own to read.
    Always,
    /// A page on the two files, and the words are its own to read.
    Page,
    /// A run, and the words are its own to read.
    Run,
    /// A run with notes that are kept, and the words are its own to read.
    Kept,
    /// Nothing: this word can't stand.
    Nothing { word: u32 },
}

/// The text is asked for by its word alone.
fn text_or_nothing(text: &'static str, rest: &[String]) -> Asked {
    match rest {
        [] => Asked::Text(text),
        _ => Asked::Nothing { word: 1 },
    }
}

/// What `serve` asks for, by the words behind it.
fn server_by(rest: &[String]) -> Asked {
    match rest {
        [_address, word, ..] if word.as_str() == "always" => Asked::Always,
        _ => Asked::Server,
    }
}

/// What the first word asks for.
fn asked_by(words: &[String]) -> Asked {
    match words {
        [] => Asked::Run,
        [first, rest @ ..] => match first.as_str() {
            "--help" => text_or_nothing(HELP, rest),
            "--version" => text_or_nothing(VERSION, rest),
            "serve" => server_by(rest),
            "show" => Asked::Page,
            "archive" | "standings" => Asked::Kept,
            _ => Asked::Run,
        },
    }
}

/// Prints a text in the place of a run.
fn text_status(rt: &HostRuntime, text: &str) -> Status {
    match print!(rt; "{text}") {
        Ok(()) => Status::Done,
        Err(_) => Status::WriteFault,
    }
}

fn show_status(rt: &HostRuntime, words: &[String]) -> Status {
    let mut files = HostFiles::new(rt);
    let mut out = StdSink::new(io::writer(rt));
    show(rt.alloc(), words, &mut files, &mut out)
}

fn run_status(rt: &HostRuntime, words: &[String]) -> Status {
    let mut files = HostFiles::new(rt);
    let mut input = StdSource::new(rt.reader());
    let mut out = StdSink::new(io::writer(rt));
    run(rt.alloc(), words, &mut files, &mut input, &mut out)
}

/// Words that name no database are at fault.
fn kept_status(rt: &HostRuntime, words: &[String]) -> Status {
    let command = match read_kept_words(words) {
        Err(word) => return Status::Usage { word },
        Ok(command) => command,
    };
    let mut files = HostFiles::new(rt);
    let mut input = StdSource::new(rt.reader());
    let mut out = StdSink::new(io::writer(rt));
    let mut keeper = SqlKeeper::in_file(rt, command.keep());
    run_kept(
        rt.alloc(),
        words,
        &mut files,
        &mut input,
        &mut out,
        &mut keeper,
    )
}

fn main(rt: HostRuntime) -> ExitCode {
    let status = match words(&rt) {
        Err(why) => no_words(&why),
        Ok(words) => match asked_by(&words) {
            Asked::Text(text) => text_status(&rt, text),
            Asked::Server => serve_status(rt, rt.alloc(), &words),
            Asked::Always => always_status(rt, rt.alloc(), &words, rt.stdin()),
            Asked::Page => show_status(&rt, &words),
            Asked::Run => run_status(&rt, &words),
            Asked::Kept => kept_status(&rt, &words),
            Asked::Nothing { word } => Status::Usage { word },
        },
    };
    match &status {
        Status::Done => {}
        _ => {
            let _ = eprintln!(rt; "psd: {status}");
        }
    }
    ExitCode::from(status.number())
}
