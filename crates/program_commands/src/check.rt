//! Checks a team against the rules of a format.
ghost use Rattle.std.specs.Prelude.{◌≡◌, ◌⊎◌, Ok, Err, Some, None, IfOk, IfErr};
ghost use Rattle.std.specs.Str.{IsUtf8, chars};
ghost use Rattle.std.specs.Io.BufRead.{strip_last};
ghost use Rattle.ps_outside.specs.Causes.{Rose};
ghost use Rattle.ps_packed.specs.Packed.{IsTeam};
ghost use Rattle.ps_valid.specs.TeamRows.{legal_in};
ghost use Rattle.program_commands.specs.Words.{checked_of};
ghost use Rattle.program_commands.specs.Setups.{EndsIfKnown, Gave, Ended, StepCause};
ghost use Rattle.program_commands.specs.Checks.{text_in, rules_in, TextEnds, TeamEnds, FormatEnds, ConfigEnds, CheckEnds, IsNamed};
ghost use Rattle.program_commands.specs.Checks.{CheckCause, WritesLegal, SettlesCheck};
ghost use Rattle.program_commands.specs.Ends.{FormatCause, IsOfText, Unpacks, RulesEnd};

use crate::config::config_or_standard;
use crate::dex::dex_or_none;
use crate::file::read_file;
use crate::status::Status;
use crate::words::CheckWords;
use ps_base::id::to_id;
use ps_base::pack_kind::PackKind;
use ps_dex::dex::Dex;
use ps_outside::files::Files;
use ps_outside::sink::{self, Sink};
use ps_packed::fault::PackFault;
use ps_packed::team::{Team, read_team};
use ps_rules::table::RuleTable;
use ps_valid::check::check_team;
use ps_valid::verdict::TeamFault;
use rules_config::config::Config;
use std::alloc::Global;
use std::str;

/// The most bytes of a team's file.
pub const MOST_TEAM: u32 = 8_192;

/// The bytes but for one newline at their end.
pub(crate) fn without_newline(bytes: Vec<u8>) -> Vec<u8>
    ensures { result.items ≡ strip_last 10 bytes.items }
{
    let mut bytes = bytes;
    if bytes.ends_with(b"\n") {
        bytes.truncate(bytes.len() - 1);
    }
    bytes
}

/// The team that the bytes of a packed text have. `Fault` comes exactly where they have none, at 0 where they are no UTF-8.
pub fn team_of(alloc: Global, text: &[u8]) -> Result<Team, PackFault>
    ensures found { IfOk result (λ t. IsUtf8 text.now × IsTeam (chars text.now) t) }
    ensures none { IfErr result (Unpacks text.now) }
{
    match str::from_utf8(text) {
        Err(_) => Err(PackFault::Fault {
            at: 0,
            kind: PackKind::Text,
        }),
        Ok(text) => match read_team(alloc, text) {
            Err(PackFault::NoMemory) => Err(PackFault::NoMemory),
            Err(PackFault::Fault { at, kind }) => Err(PackFault::Fault { at, kind }),
            Ok(team) => Ok(team),
        },
    }
}

fn write_legal<K: Sink>(out: &mut K) -> Status
    ensures of { IsOfText result }
    ensures ends { (result ≡ Status.Done) ⊎ (result ≡ Status.WriteFault) }
    ensures wrote { WritesLegal (K.written out.old) (K.written out.new) result }
    ensures write_fault { result ≡ Status.WriteFault → Rose (K.faults out.old) (K.faults out.new) }
{
    match sink::write_all(out, b"legal\n") {
        Err(_) => Status::WriteFault,
        Ok(()) => Status::Done,
    }
}

fn check_rules<K: Sink>(
    alloc: Global,
    dex: &Dex,
    rules: &RuleTable,
    team: &Team,
    out: &mut K,
) -> Status
    ensures of { IsOfText result }
    ensures ends { RulesEnd (legal_in dex.now rules.now team.now) result }
    ensures wrote { WritesLegal (K.written out.old) (K.written out.new) result }
    ensures write_fault { result ≡ Status.WriteFault → Rose (K.faults out.old) (K.faults out.new) }
{
    match check_team(alloc, dex, rules, team) {
        Err(TeamFault::NoMemory) => Status::NoMemory,
        Err(TeamFault::Verdict(verdict)) => Status::BadTeam {
            set: verdict.set,
            rule: verdict.rule,
            subject: verdict.subject,
        },
        Ok(_) => write_legal(out),
    }
}

fn check_text<K: Sink>(
    alloc: Global,
    dex: &Dex,
    rules: &RuleTable,
    text: &[u8],
    out: &mut K,
) -> Status
    ensures of { IsOfText result }
    ensures ends { (result ≡ Status.NoMemory) ⊎ TextEnds dex.now rules.now text.now result }
    ensures wrote { WritesLegal (K.written out.old) (K.written out.new) result }
    ensures write_fault { result ≡ Status.WriteFault → Rose (K.faults out.old) (K.faults out.new) }
{
    match team_of(alloc, text) {
        Err(PackFault::NoMemory) => Status::NoMemory,
        Err(PackFault::Fault { at, kind }) => Status::BadPack { at, kind },
        Ok(team) => check_rules(alloc, dex, rules, &team, out),
    }
}

// The bytes of a team's file, but for one newline at their end.
fn read_text<F: Files>(alloc: Global, files: &mut F, name: &str) -> Result<Vec<u8>, Status>
    ensures same { F.contents files.new ≡ F.contents files.old }
    ensures value { IfOk result (λ v. Gave (F.contents files.old) (λ lookup. text_in lookup name.now) v.items) }
    ensures counts { IfOk result (λ _. F.counts files.new ≡ F.counts files.old) }
    ensures ended { IfErr result (Ended (F.contents files.old) (Some name.now) (λ lookup. text_in lookup name.now)) }
    ensures cause { IfErr result (StepCause (Some name.now) (F.counts files.old) (F.counts files.new)) }
{
    match read_file(alloc, files, name, MOST_TEAM) {
        Err(status) => Err(status),
        Ok(bytes) => Ok(without_newline(bytes)),
    }
}

fn check_file<F: Files, K: Sink>(
    alloc: Global,
    dex: &Dex,
    rules: &RuleTable,
    words: CheckWords<'_>,
    files: &mut F,
    out: &mut K,
) -> Status
    ensures ends { EndsIfKnown (F.contents files.old) (λ lookup. TeamEnds lookup dex.now words.entry.team.now rules.now) result }
    ensures cause { CheckCause (IsNamed (checked_of words.entry)) (F.counts files.old) (F.counts files.new) result }
    ensures wrote { WritesLegal (K.written out.old) (K.written out.new) result }
    ensures write_fault { result ≡ Status.WriteFault → Rose (K.faults out.old) (K.faults out.new) }
{
    match read_text(alloc, files, words.team) {
        Err(status) => status,
        Ok(text) => check_text(alloc, dex, rules, &text, out),
    }
}

// The rules of the format with the id that a text has.
fn rules_of<'a>(alloc: Global, config: &'a Config, format: &str) -> Result<&'a RuleTable, Status>
    ensures value { IfOk result (λ t. rules_in config.now format.now ≡ Ok t.now) }
    ensures ended { IfErr result (λ s. (s ≡ Status.NoMemory) ⊎ (rules_in config.now format.now ≡ Err s)) }
    ensures cause { IfErr result FormatCause }
{
    let id = match to_id(alloc, format) {
        Err(_) => return Err(Status::NoMemory),
        Ok(id) => id,
    };
    match config.formats().format(&id) {
        None => Err(Status::UnknownFormat { id }),
        Some(format) => Ok(&format.table),
    }
}

fn check_format<F: Files, K: Sink>(
    alloc: Global,
    dex: &Dex,
    config: &Config,
    words: CheckWords<'_>,
    files: &mut F,
    out: &mut K,
) -> Status
    ensures ends { EndsIfKnown (F.contents files.old) (λ lookup. FormatEnds lookup (checked_of words.entry) dex.now config.now) result }
    ensures cause { CheckCause (IsNamed (checked_of words.entry)) (F.counts files.old) (F.counts files.new) result }
    ensures wrote { WritesLegal (K.written out.old) (K.written out.new) result }
    ensures write_fault { result ≡ Status.WriteFault → Rose (K.faults out.old) (K.faults out.new) }
{
    match rules_of(alloc, config, words.format) {
        Err(status) => status,
        Ok(rules) => check_file(alloc, dex, rules, words, files, out),
    }
}

fn check_config<F: Files, K: Sink>(
    alloc: Global,
    dex: &Dex,
    words: CheckWords<'_>,
    files: &mut F,
    out: &mut K,
) -> Status
    ensures ends { EndsIfKnown (F.contents files.old) (λ lookup. ConfigEnds lookup (checked_of words.entry) dex.now) result }
    ensures cause { CheckCause (IsNamed (checked_of words.entry)) (F.counts files.old) (F.counts files.new) result }
    ensures wrote { WritesLegal (K.written out.old) (K.written out.new) result }
    ensures write_fault { result ≡ Status.WriteFault → Rose (K.faults out.old) (K.faults out.new) }
{
    match config_or_standard(alloc, files, dex, words.config) {
        Err(status) => status,
        Ok(config) => check_format(alloc, dex, &config, words, files, out),
    }
}

fn check_dex<F: Files, K: Sink>(
    alloc: Global,
    words: CheckWords<'_>,
    files: &mut F,
    out: &mut K,
) -> Status
    ensures ends { EndsIfKnown (F.contents files.old) (λ lookup. CheckEnds lookup (checked_of words.entry)) result }
    ensures cause { CheckCause (IsNamed (checked_of words.entry)) (F.counts files.old) (F.counts files.new) result }
    ensures wrote { WritesLegal (K.written out.old) (K.written out.new) result }
    ensures write_fault { result ≡ Status.WriteFault → Rose (K.faults out.old) (K.faults out.new) }
{
    match dex_or_none(alloc, files, words.dex) {
        Err(status) => status,
        Ok(dex) => check_config(alloc, &dex, words, files, out),
    }
}

/// Checks the team of a file against the rules of a format, and writes `legal` and a newline where it
/// keeps them. In this order the dex file and its value, the configuration and its value, the format, the
/// team's file, its grammar and its rules may end the check.
pub fn check<F: Files, K: Sink>(
    alloc: Global,
    words: CheckWords<'_>,
    files: &mut F,
    out: &mut K,
) -> Status
    ensures ends { EndsIfKnown (F.contents files.old) (λ lookup. CheckEnds lookup (checked_of words.entry)) result }
    ensures cause { CheckCause (IsNamed (checked_of words.entry)) (F.counts files.old) (F.counts files.new) result }
    ensures wrote { WritesLegal (K.written out.old) (K.written out.new) result }
    ensures write_fault { result ≡ Status.WriteFault → Rose (K.faults out.old) (K.faults out.new) }
    ensures settles { SettlesCheck (F.contents files.old) (Rose (F.counts files.old).faults (F.counts files.new).faults)
        (Rose (K.faults out.old) (K.faults out.new)) (checked_of words.entry) result }
{
    check_dex(alloc, words, files, out)
}
