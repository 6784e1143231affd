//! What a configuration says of rules.
ghost use Rattle.std.specs.Prelude.{◌≡◌};

use crate::version::Version;
use ps_base::id::Id;
use ps_base::list::List;
use ps_base::text::Text;
use ps_data::ids::HasId;
use ps_data::table::Table;

/// A rule text, as `!sleepclausemod`.
#[derive(Debug)]
pub struct Rule {
    /// The id of the text.
    pub id: Id,
    /// Whether `!` stands before it, so that it repeals the clause.
    pub repeals: bool,
}

// By hand, so that who drops one has one call to prove.
impl Drop for Rule {
    fn drop(self) {
        let Rule { id: _, repeals: _ } = self;
    }
}

/// A rule list with an id, by which other lists name it.
#[derive(Debug)]
pub struct Ruleset {
    /// The id.
    pub id: Id,
    /// Its rule texts, in order.
    pub rules: List<Rule>,
}

// By hand, so that who drops one has one call to prove.
impl Drop for Ruleset {
    fn drop(self) {
        let Ruleset { id: _, rules: _ } = self;
    }
}

impl HasId for Ruleset {
    ghost id_of = { λ s. s.id };

    fn id(&self) -> &str {
        self.id.as_str()
    }
}

/// What is played under a format.
#[derive(Debug)]
pub struct RuleTable {
    /// The clauses that are on, each by its bit (`Clause::bit`).
    pub clauses: u8,
    /// The ids of the banned species and moves; an id that is both bans both.
    pub bans: List<Id>,
    /// The least number of members, 1 to 6.
    pub min: u8,
    /// The greatest number of members, 1 to 6.
    pub max: u8,
    /// The least and the greatest level, each 1 to 100.
    pub levels: [u8; 2],
    /// Whether its battles count for ratings.
    pub rated: bool,
}

// By hand, so that who drops one has one call to prove.
impl Drop for RuleTable {
    fn drop(self) {
        let RuleTable {
            clauses: _,
            bans: _,
            min: _,
            max: _,
            levels: _,
            rated: _,
        } = self;
    }
}

/// A format.
#[derive(Debug)]
pub struct Format {
    /// The name for people: 1 to 32 characters without `|` and control characters.
    pub name: Text,
    /// The id of the name.
    pub id: Id,
    /// What is played under it.
    pub table: RuleTable,
}

// By hand, so that who drops one has one call to prove.
impl Drop for Format {
    fn drop(self) {
        let Format {
            name: _,
            id: _,
            table: _,
        } = self;
    }
}

impl HasId for Format {
    ghost id_of = { λ f. f.id };

    fn id(&self) -> &str {
        self.id.as_str()
    }
}

/// The rulesets and the formats of a configuration.
#[derive(Debug, Drop)]
pub struct Said {
    /// The form of the configuration.
    pub version: Version,
    /// The rulesets, in byte order of their keys.
    pub rulesets: Table<Ruleset>,
    /// The formats, in order.
    pub formats: Table<Format>,
}
