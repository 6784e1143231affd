//! Teams between their packed text and the export text that players copy to and from a teambuilder.
ghost use Rattle.std.specs.Prelude.{◌≡◌, ◌++◌, ◌∷◌, [], IfOk, IfErr};
ghost use Rattle.ps_outside.specs.Causes.{Rose};
ghost use Rattle.ps_packed.specs.Canon.{canon};
ghost use Rattle.program_commands.specs.Conversions.{HasExport, MakesExport, MakesPacked, StopsExport, StopsImport, ExportCause};
ghost use Rattle.program_commands.specs.Conversions.{ImportCause, WritesConversion, SettlesConversion, IsExportOf, StopsTeam, Stops};
ghost use Rattle.program_commands.specs.Conversions.{BytesCause, WritesOfBytes, WritesText};

use crate::check::{MOST_TEAM, team_of, without_newline};
use crate::file::read_file;
use crate::status::Status;
use ps_base::text::Text;
use ps_export::fault::{ExportFault, WriteExportFault};
use ps_export::read::read_export;
use ps_export::write::write_export;
use ps_outside::files::Files;
use ps_outside::sink::{self, Sink};
use ps_packed::fault::PackFault;
use ps_packed::team::Team;
use ps_packed::write::write_team;
use std::alloc::{AllocError, Global};
use std::str;

// ---- what is made

fn export_of_team(alloc: Global, team: &Team) -> Result<Text, Status>
    ensures made { IfOk result (IsExportOf team.now) }
    ensures stops { IfErr result (StopsTeam team.now) }
{
    match write_export(alloc, team) {
        Err(WriteExportFault::NoMemory) => Err(Status::NoMemory),
        Err(WriteExportFault::Unwritable { set }) => Err(Status::NoExport { set }),
        Err(WriteExportFault::Long { .. }) => Err(Status::NoExport { set: 0 }),
        Ok(text) => Ok(text),
    }
}

// The export text of the packed team that the bytes have, but for one newline at their end.
fn export_of(alloc: Global, bytes: Vec<u8>) -> Result<Text, Status>
    ensures made { IfOk result (MakesExport bytes.items) }
    ensures stops { IfErr result (Stops (StopsExport bytes.items)) }
{
    let text = without_newline(bytes);
    match team_of(alloc, &text) {
        Err(PackFault::NoMemory) => Err(Status::NoMemory),
        Err(PackFault::Fault { at, kind }) => Err(Status::BadPack { at, kind }),
        Ok(team) => export_of_team(alloc, &team),
    }
}

fn packed_line(alloc: Global, team: &Team) -> Result<Text, AllocError>
    ensures { IfOk result (λ t. t ≡ canon team.now ++ 10 ∷ []) }
{
    let mut line = write_team(alloc, team)?;
    line.push_str("\n")?;
    Ok(line)
}

// The packed text of the team whose export text the bytes are, and a newline.
fn packed_of(alloc: Global, bytes: Vec<u8>) -> Result<Text, Status>
    ensures made { IfOk result (MakesPacked bytes.items) }
    ensures stops { IfErr result (Stops (StopsImport bytes.items)) }
{
    let text = match str::from_utf8(&bytes) {
        Err(_) => return Err(Status::BadExport { line: 0 }),
        Ok(text) => text,
    };
    let team = match read_export(alloc, text) {
        Err(ExportFault::NoMemory) => return Err(Status::NoMemory),
        Err(ExportFault::Fault { line }) => return Err(Status::BadExport { line }),
        Ok(team) => team,
    };
    match packed_line(alloc, &team) {
        Err(_) => Err(Status::NoMemory),
        Ok(line) => Ok(line),
    }
}

// ---- what is written

fn write_text<K: Sink>(text: &Text, out: &mut K) -> Status
    ensures wrote { WritesText text.now (K.written out.old) (K.written out.new) result }
    ensures write_fault { result ≡ Status.WriteFault → Rose (K.faults out.old) (K.faults out.new) }
{
    match sink::write_all(out, text.as_str().as_bytes()) {
        Err(_) => Status::WriteFault,
        Ok(()) => Status::Done,
    }
}

fn export_bytes<K: Sink>(alloc: Global, bytes: Vec<u8>, out: &mut K) -> Status
    ensures cause { BytesCause (StopsExport bytes.items) result }
    ensures wrote { WritesOfBytes (MakesExport bytes.items) (K.written out.old) (K.written out.new) result }
    ensures write_fault { result ≡ Status.WriteFault → Rose (K.faults out.old) (K.faults out.new) }
{
    match export_of(alloc, bytes) {
        Err(status) => status,
        Ok(text) => write_text(&text, out),
    }
}

fn import_bytes<K: Sink>(alloc: Global, bytes: Vec<u8>, out: &mut K) -> Status
    ensures cause { BytesCause (StopsImport bytes.items) result }
    ensures wrote { WritesOfBytes (MakesPacked bytes.items) (K.written out.old) (K.written out.new) result }
    ensures write_fault { result ≡ Status.WriteFault → Rose (K.faults out.old) (K.faults out.new) }
{
    match packed_of(alloc, bytes) {
        Err(status) => status,
        Ok(text) => write_text(&text, out),
    }
}

fn export_file<F: Files, K: Sink>(alloc: Global, name: &str, files: &mut F, out: &mut K) -> Status
    ensures cause { ExportCause (F.contents files.old) name.now (F.counts files.old) (F.counts files.new) result }
    ensures wrote { WritesConversion (F.contents files.old) name.now MakesExport (K.written out.old) (K.written out.new) result }
    ensures write_fault { result ≡ Status.WriteFault → Rose (K.faults out.old) (K.faults out.new) }
{
    match read_file(alloc, files, name, MOST_TEAM) {
        Err(status) => status,
        Ok(bytes) => export_bytes(alloc, bytes, out),
    }
}

fn import_file<F: Files, K: Sink>(alloc: Global, name: &str, files: &mut F, out: &mut K) -> Status
    ensures cause { ImportCause (F.contents files.old) name.now (F.counts files.old) (F.counts files.new) result }
    ensures wrote { WritesConversion (F.contents files.old) name.now MakesPacked (K.written out.old) (K.written out.new) result }
    ensures write_fault { result ≡ Status.WriteFault → Rose (K.faults out.old) (K.faults out.new) }
{
    match read_file(alloc, files, name, MOST_TEAM) {
        Err(status) => status,
        Ok(bytes) => import_bytes(alloc, bytes, out),
    }
}

// ---- the commands

/// Writes the export text of the packed team in the file of this name: what is pasted into a teambuilder. One newline at the
/// file's end is dropped.
pub fn export<F: Files, K: Sink>(alloc: Global, name: &str, files: &mut F, out: &mut K) -> Status
    ensures cause { ExportCause (F.contents files.old) name.now (F.counts files.old) (F.counts files.new) result }
    ensures wrote { WritesConversion (F.contents files.old) name.now MakesExport (K.written out.old) (K.written out.new) result }
    ensures write_fault { result ≡ Status.WriteFault → Rose (K.faults out.old) (K.faults out.new) }
    ensures settles { SettlesConversion (F.contents files.old) HasExport
        (Rose (F.counts files.old).faults (F.counts files.new).faults) (Rose (K.faults out.old) (K.faults out.new)) name.now result }
{
    export_file(alloc, name, files, out)
}

/// Writes the packed text of the team whose export text is in the file of this name, and a newline: what a client gives its
/// server, and what `check` reads.
pub fn import<F: Files, K: Sink>(alloc: Global, name: &str, files: &mut F, out: &mut K) -> Status
    ensures cause { ImportCause (F.contents files.old) name.now (F.counts files.old) (F.counts files.new) result }
    ensures wrote { WritesConversion (F.contents files.old) name.now MakesPacked (K.written out.old) (K.written out.new) result }
    ensures write_fault { result ≡ Status.WriteFault → Rose (K.faults out.old) (K.faults out.new) }
    ensures settles { SettlesConversion (F.contents files.old) MakesPacked
        (Rose (F.counts files.old).faults (F.counts files.new).faults) (Rose (K.faults out.old) (K.faults out.new)) name.now result }
{
    import_file(alloc, name, files, out)
}
