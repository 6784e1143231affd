//! Tells a person what a dex file and a configuration say, and where they are wrong.
ghost use Rattle.std.specs.Prelude.{◌≡◌, ◌⊎◌, Ok, Err, Some, None, IfOk, IfErr, map, string_bytes};
ghost use Rattle.std.specs.Io.KnownBytes.{Keeps};
ghost use Rattle.ps_outside.specs.Causes.{Rose};
ghost use Rattle.program_commands.specs.Ends.{FormatCause};
ghost use Rattle.program_commands.specs.Setups.{EndsIfKnown, IsOption};
ghost use Rattle.program_show.specs.Asked.{show_words_in, show_of, IfShow, IfUsage};
ghost use Rattle.program_show.specs.Shows.{chosen, Tells, IsWritten, ToldEnds, OverDexEnds, ShowEnds, ShowCause, IsPageFront};
ghost use Rattle.program_show.specs.Shows.{TellsFault, CountsAfter, WritesShown, IsToldOver, IsTold, WritesPage, WritesMore};

use crate::summary::{format_summary, summary};
use crate::words::{ShowWords, read_show_words};
use file_help::page::{Section, page_of};
use program_commands::config::config_or_standard;
use program_commands::dex::dex_or_none;
use program_commands::status::Status;
use ps_base::id::to_id;
use ps_dex::dex::Dex;
use ps_outside::files::Files;
use ps_outside::sink::{self, Sink};
use ps_rules::table::Format;
use rules_config::config::Config;
use show_help::fault::{Names, fault_page};
use show_help::notes::{NoteWords, notes};
use std::alloc::{AllocError, Global};

// ---- what is written

fn write_page<K: Sink>(alloc: Global, as_json: bool, sections: &[Section], out: &mut K) -> Status
    ensures ends { (result ≡ Status.NoMemory) ⊎ IsWritten result }
    ensures wrote { WritesPage as_json sections.now (K.written out.old) (K.written out.new) result }
    ensures write_fault { result ≡ Status.WriteFault → Rose (K.faults out.old) (K.faults out.new) }
{
    match page_of(alloc, as_json, sections) {
        Err(_) => Status::NoMemory,
        Ok(page) => match sink::write_all(out, page.as_str().as_bytes()) {
            Err(_) => Status::WriteFault,
            Ok(()) => Status::Done,
        },
    }
}

fn write_more<K: Sink>(
    alloc: Global,
    as_json: bool,
    sections: Vec<Section>,
    help: Vec<Section>,
    out: &mut K,
) -> Status
    ensures ends { (result ≡ Status.NoMemory) ⊎ IsWritten result }
    ensures wrote { WritesMore as_json sections.items (K.written out.old) (K.written out.new) result }
    ensures write_fault { result ≡ Status.WriteFault → Rose (K.faults out.old) (K.faults out.new) }
{
    let mut sections = sections;
    let mut help = help;
    match sections.append(&mut help) {
        Err(_) => Status::NoMemory,
        Ok(()) => write_page(alloc, as_json, &sections, out),
    }
}

// ---- a fault of a file

fn names_of(words: ShowWords<'_>) -> Names<'_> {
    Names {
        dex: words.options.dex,
        config: words.options.config,
    }
}

fn write_front<K: Sink>(alloc: Global, as_json: bool, sections: &[Section], out: &mut K)
    ensures { IsPageFront as_json (K.written out.old) (K.written out.new) }
{
    let _status = write_page(alloc, as_json, sections, out);
}

fn write_fault_page<K: Sink>(
    alloc: Global,
    as_json: bool,
    told: Result<Vec<Section>, AllocError>,
    out: &mut K,
)
    ensures { IsPageFront as_json (K.written out.old) (K.written out.new) }
{
    match told {
        Err(_) => {}
        Ok(sections) => write_front(alloc, as_json, &sections, out),
    }
}

// Writes where the fault is, as far as memory and the sink allow: the status is reported whatever becomes of this.
fn tell_fault<F: Files, K: Sink>(
    alloc: Global,
    words: ShowWords<'_>,
    files: &mut F,
    status: &Status,
    out: &mut K,
)
    ensures told { TellsFault words.entry.as_json (K.written out.old) (K.written out.new) status.now }
    ensures counts { CountsAfter (F.counts files.old) (F.counts files.new) status.now }
{
    let names = names_of(words);
    match status {
        Status::BadDex { path, kind } => {
            let told = fault_page(alloc, files, names, true, path.as_str(), *kind);
            write_fault_page(alloc, words.as_json, told, out);
        }
        Status::BadConfig { path, kind } => {
            let told = fault_page(alloc, files, names, false, path.as_str(), *kind);
            write_fault_page(alloc, words.as_json, told, out);
        }
        _ => {}
    }
}

// ---- what is told

// The format of this name or id.
fn format_named<'a>(alloc: Global, config: &'a Config, name: &str) -> Result<&'a Format, Status>
    ensures value { IfOk result (λ f. chosen config.now (Some name.now) ≡ Ok (Some f.now)) }
    ensures ended { IfErr result (λ s. (s ≡ Status.NoMemory) ⊎ (chosen config.now (Some name.now) ≡ Err s)) }
    ensures cause { IfErr result FormatCause }
{
    let id = match to_id(alloc, name) {
        Err(_) => return Err(Status::NoMemory),
        Ok(id) => id,
    };
    match config.formats().format(&id) {
        None => Err(Status::UnknownFormat { id }),
        Some(format) => Ok(format),
    }
}

// What may help, behind what is told.
fn help_of<F: Files>(
    alloc: Global,
    dex: &Dex,
    config: &Config,
    words: ShowWords<'_>,
    files: &mut F,
) -> Result<Vec<Section>, AllocError> {
    let asked = NoteWords {
        format: words.format,
        dex: words.options.dex,
        config: words.options.config,
        is_default_nonce: config.nonce() == "0",
        is_default_seed: config.seed() == 0,
    };
    notes(alloc, dex, config.formats(), asked, files)
}

fn show_sections<F: Files, K: Sink>(
    alloc: Global,
    dex: &Dex,
    config: &Config,
    words: ShowWords<'_>,
    sections: Vec<Section>,
    files: &mut F,
    out: &mut K,
) -> Status
    ensures ends { (result ≡ Status.NoMemory) ⊎ IsWritten result }
    ensures wrote { WritesMore words.entry.as_json sections.items (K.written out.old) (K.written out.new) result }
    ensures write_fault { result ≡ Status.WriteFault → Rose (K.faults out.old) (K.faults out.new) }
{
    match help_of(alloc, dex, config, words, files) {
        Err(_) => Status::NoMemory,
        Ok(help) => write_more(alloc, words.as_json, sections, help, out),
    }
}

fn show_format<F: Files, K: Sink>(
    alloc: Global,
    dex: &Dex,
    config: &Config,
    words: ShowWords<'_>,
    name: &str,
    files: &mut F,
    out: &mut K,
) -> Status
    ensures ends { (result ≡ Status.NoMemory) ⊎ ToldEnds (Some name.now) config.now result }
    ensures cause { ShowCause (IsOption (show_of words.entry).options) (F.counts files.old) (F.counts files.new) result }
    ensures wrote { WritesShown (Tells dex.now config.now (Some name.now)) words.entry.as_json
        (K.written out.old) (K.written out.new) result }
    ensures write_fault { result ≡ Status.WriteFault → Rose (K.faults out.old) (K.faults out.new) }
{
    match format_named(alloc, config, name) {
        Err(status) => status,
        Ok(format) => match format_summary(alloc, dex, format) {
            Err(_) => Status::NoMemory,
            Ok(sections) => show_sections(alloc, dex, config, words, sections, files, out),
        },
    }
}

fn show_whole<F: Files, K: Sink>(
    alloc: Global,
    dex: &Dex,
    config: &Config,
    words: ShowWords<'_>,
    files: &mut F,
    out: &mut K,
) -> Status
    ensures ends { (result ≡ Status.NoMemory) ⊎ ToldEnds None config.now result }
    ensures cause { ShowCause (IsOption (show_of words.entry).options) (F.counts files.old) (F.counts files.new) result }
    ensures wrote { WritesShown (Tells dex.now config.now None) words.entry.as_json (K.written out.old) (K.written out.new) result }
    ensures write_fault { result ≡ Status.WriteFault → Rose (K.faults out.old) (K.faults out.new) }
{
    match summary(alloc, dex, config) {
        Err(_) => Status::NoMemory,
        Ok(sections) => show_sections(alloc, dex, config, words, sections, files, out),
    }
}

fn show_told<F: Files, K: Sink>(
    alloc: Global,
    dex: &Dex,
    config: &Config,
    words: ShowWords<'_>,
    files: &mut F,
    out: &mut K,
) -> Status
    ensures ends { (result ≡ Status.NoMemory) ⊎ ToldEnds (show_of words.entry).format config.now result }
    ensures cause { ShowCause (IsOption (show_of words.entry).options) (F.counts files.old) (F.counts files.new) result }
    ensures wrote { WritesShown (Tells dex.now config.now (show_of words.entry).format) words.entry.as_json
        (K.written out.old) (K.written out.new) result }
    ensures write_fault { result ≡ Status.WriteFault → Rose (K.faults out.old) (K.faults out.new) }
{
    match words.format {
        None => show_whole(alloc, dex, config, words, files, out),
        Some(name) => show_format(alloc, dex, config, words, name, files, out),
    }
}

fn show_config<F: Files, K: Sink>(
    alloc: Global,
    dex: &Dex,
    words: ShowWords<'_>,
    files: &mut F,
    out: &mut K,
) -> Status
    ensures ends { EndsIfKnown (F.contents files.old) (λ lookup. OverDexEnds lookup (show_of words.entry) dex.now) result }
    ensures cause { ShowCause (IsOption (show_of words.entry).options) (F.counts files.old) (F.counts files.new) result }
    ensures wrote { WritesShown (IsToldOver (F.contents files.old) (show_of words.entry) dex.now) words.entry.as_json
        (K.written out.old) (K.written out.new) result }
    ensures write_fault { result ≡ Status.WriteFault → Rose (K.faults out.old) (K.faults out.new) }
{
    match config_or_standard(alloc, files, dex, words.options.config) {
        Err(status) => {
            tell_fault(alloc, words, files, &status, out);
            status
        }
        Ok(config) => show_told(alloc, dex, &config, words, files, out),
    }
}

fn show_dex<F: Files, K: Sink>(
    alloc: Global,
    words: ShowWords<'_>,
    files: &mut F,
    out: &mut K,
) -> Status
    ensures ends { EndsIfKnown (F.contents files.old) (λ lookup. ShowEnds lookup (show_of words.entry)) result }
    ensures cause { ShowCause (IsOption (show_of words.entry).options) (F.counts files.old) (F.counts files.new) result }
    ensures wrote { WritesShown (IsTold (F.contents files.old) (show_of words.entry)) words.entry.as_json
        (K.written out.old) (K.written out.new) result }
    ensures write_fault { result ≡ Status.WriteFault → Rose (K.faults out.old) (K.faults out.new) }
{
    match dex_or_none(alloc, files, words.options.dex) {
        Err(status) => {
            tell_fault(alloc, words, files, &status, out);
            status
        }
        Ok(dex) => show_config(alloc, &dex, words, files, out),
    }
}

/// Tells a person what the dex file and the configuration of the words say: `show [FORMAT] [--json] [--dex NAME]
/// [--config NAME]`. Without a format it tells of both files, with one of that format and of what may stand in it; and
/// behind that what may help: keys that mean nothing, formats that nobody can play. `Usage` comes exactly at words that
/// can't stand. In this order the dex file and its value, the configuration and its value, and the format may end it; a
/// file that isn't in its form is told of by a page, too, which shows the place.
pub fn show<F: Files, K: Sink>(
    alloc: Global,
    words: &[String],
    files: &mut F,
    out: &mut K,
) -> Status
    ensures usage { IfUsage (show_words_in (map string_bytes words.now))
        (λ at. (result ≡ Status.Usage at) × Keeps (K.written out.old) (K.written out.new)) }
    ensures ends { IfShow (show_words_in (map string_bytes words.now))
        (λ asked. EndsIfKnown (F.contents files.old) (λ lookup. ShowEnds lookup asked) result) }
    ensures cause { IfShow (show_words_in (map string_bytes words.now))
        (λ asked. ShowCause (IsOption asked.options) (F.counts files.old) (F.counts files.new) result) }
    ensures wrote { IfShow (show_words_in (map string_bytes words.now))
        (λ asked. WritesShown (IsTold (F.contents files.old) asked) asked.as_json (K.written out.old) (K.written out.new) result) }
    ensures write_fault { result ≡ Status.WriteFault → Rose (K.faults out.old) (K.faults out.new) }
{
    match read_show_words(words) {
        Err(word) => Status::Usage { word },
        Ok(words) => show_dex(alloc, words, files, out),
    }
}
