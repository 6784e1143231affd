//! The formats of a configuration.
ghost use Rattle.std.specs.Prelude.{◌≡◌, ◌<◌, length, option_map, IfOk, IfSome};
ghost use Rattle.serde_json.specs.View.{view};
ghost use Rattle.ps_data.specs.FileFaults.{GivesFile};
ghost use Rattle.ps_data.specs.Reading.{Gives};
ghost use Rattle.ps_rules.specs.Reading.{said_in, said_of};
ghost use Rattle.ps_rules.specs.Resolve.{no_formats, format_index, format_of, plain, alone, resolved};
ghost use Rattle.ps_rules.specs.Faults.{Finds};

use crate::fault::{FormatFault, RuleFault};
use crate::read::read_said;
use crate::table::{Format, Rule, RuleTable, Ruleset, Said};
use crate::version::{Version, read_version};
use crate::walk::clauses_of;
use ps_base::id::Id;
use ps_base::list::List;
use ps_data::fault::Refusal;
use ps_data::file_fault::reported;
use ps_data::table::Table;
use ps_dex::dex::Dex;
use serde_json::Value;
use std::alloc::{AllocError, Global};
use std::marker::Model;

/// The rulesets and the formats of a configuration, with the rule list of each format resolved.
/// Contracts see what the configuration says.
#[derive(Debug)]
pub struct Formats {
    said: Said,
}

impl Model for Formats {
    ghost use Rattle.ps_rules.specs.declared.table.Said.{Said};

    ghost Value = { Said };

    ghost view = { λ f. f.said };
}

// By hand, so that whoever drops formats has one step of its proof for that.
impl Drop for Formats {
    fn drop(self) {
        let Formats { said: _ } = self;
    }
}

#[tactic(auto, unfolding(crate::specs::Resolve::format_index))]
fn format_index(formats: &Table<Format>, id: &str) -> Option<usize>
    ensures index { result ≡ format_index id.now formats.now }
    ensures within { IfSome result (λ i. i < length formats.now) }
{
    formats.index_of(id)
}

fn copies(alloc: Global, ids: &[Id]) -> Result<Vec<Id>, AllocError>
    ensures { IfOk result (λ v. v.items ≡ ids.now) }
{
    let mut copies = Vec::new(alloc);
    for id in ids {
        copies.push(id.copy(alloc)?)?;
    }
    Ok(copies)
}

impl RuleTable {
    /// The same table.
    pub fn copy(&self, alloc: Global) -> Result<RuleTable, AllocError>
        ensures { IfOk result (λ t. t ≡ self.now) }
    {
        let bans = copies(alloc, self.bans.as_slice())?;
        Ok(RuleTable {
            clauses: self.clauses,
            bans: List::from_vec(bans),
            min: self.min,
            max: self.max,
            levels: self.levels,
            rated: self.rated,
        })
    }
}

/// The clauses, and the defaults for the rest.
fn plain(alloc: Global, clauses: u8) -> RuleTable
    ensures { result ≡ plain clauses }
{
    RuleTable {
        clauses,
        bans: List::from_vec(Vec::new(alloc)),
        min: 1,
        max: 6,
        levels: [1, 100],
        rated: true,
    }
}

/// The table of a format whose one rule is an id.
#[tactic(auto, unfolding(crate::specs::Resolve::alone))]
fn alone(alloc: Global, said: &Said, id: &Id) -> Result<RuleTable, RuleFault>
    ensures { Finds result (alone said.now id.now) }
{
    let rule = Rule {
        id: id.copy(alloc)?,
        repeals: false,
    };
    let clauses = clauses_of(alloc, said.version, &said.rulesets, &[rule])?;
    Ok(plain(alloc, clauses))
}

/// The formats of a value, whose version is read first.
#[tactic(auto, unfolding(crate::specs::Reading::said_of))]
fn read_whole(alloc: Global, value: &Value, dex: &Dex) -> Result<Formats, Refusal>
    ensures { Gives result (said_of dex.now (view value.now)) }
{
    let version = read_version(alloc, value)?;
    Formats::read(alloc, version, value, dex)
}

impl Formats {
    /// No ruleset and no format, as where a configuration of this version names none. Takes no memory.
    pub fn none(alloc: Global, version: Version) -> Formats
        ensures { result ≡ no_formats version }
    {
        Formats {
            said: Said {
                version,
                rulesets: Table::new(alloc),
                formats: Table::new(alloc),
            },
        }
    }

    /// The formats that the value of a configuration of this version says: an object with the keys
    /// `rulesets` and `formats`, each of which may be missing. A fault has its path from the object on.
    pub fn read(
        alloc: Global,
        version: Version,
        value: &Value,
        dex: &Dex,
    ) -> Result<Formats, Refusal>
        ensures { Gives result (said_in version dex.now (view value.now)) }
    {
        let said = read_said(alloc, version, dex, value)?;
        Ok(Formats { said })
    }

    /// The formats of a configuration's value under the version that it says at `version`, before all else. A fault has its
    /// path as a text.
    pub fn from_value(alloc: Global, value: &Value, dex: &Dex) -> Result<Formats, FormatFault>
        ensures { GivesFile result (said_of dex.now (view value.now)) }
    {
        match read_whole(alloc, value, dex) {
            Ok(formats) => Ok(formats),
            Err(refusal) => Err(reported(alloc, refusal)),
        }
    }

    /// The rulesets, in byte order of their keys.
    pub fn rulesets(&self) -> &[Ruleset]
        ensures { result.now ≡ self.now.rulesets }
    {
        self.said.rulesets.as_slice()
    }

    /// The formats, in the configuration's order.
    pub fn list(&self) -> &[Format]
        ensures { result.now ≡ self.now.formats }
    {
        self.said.formats.as_slice()
    }

    /// The format with an id. `None` exactly where no format has it.
    pub fn format(&self, id: &Id) -> Option<&Format>
        ensures { option_map (λ f. f.now) result ≡ format_of id.now self.now.formats }
    {
        let formats = &self.said.formats;
        match format_index(formats, id.as_str()) {
            None => None,
            Some(index) => Some(&formats.as_slice()[index]),
        }
    }
}

/// What is played under the format with an id. An id that no format has is taken as a format whose
/// one rule is that id, with 1 to 6 members of the levels 1 to 100, no ban, and rated. The rule
/// list is walked in order, each ruleset where it stands depth first: `UnknownRule`, `Cycle` and
/// `Contradiction` come exactly at the first such id of the walk, `NoMemory` where memory ran out.
pub fn resolve(alloc: Global, formats: &Formats, id: &Id) -> Result<RuleTable, RuleFault>
    ensures { Finds result (resolved formats.now id.now) }
{
    match formats.format(id) {
        Some(format) => Ok(format.table.copy(alloc)?),
        None => alone(alloc, &formats.said, id),
    }
}
