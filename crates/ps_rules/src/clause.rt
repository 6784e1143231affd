//! The clauses that a rule list may name.
ghost use Rattle.std.specs.Prelude.{◌≡◌};
ghost use Rattle.ps_rules.specs.Clauses.{clause_of, bit_of, name_of};
ghost use Rattle.ps_mon.specs.Clauses.{has_clause};

/// What a rule list can put on.
#[derive(Clone, Copy, Debug, PartialEq, Eq)]
pub enum Clause {
    /// No species twice in a team.
    Species,
    /// No second member of a side is put to sleep.
    Sleep,
    /// No second member of a side is frozen.
    Freeze,
    /// No move that takes all health at once.
    Ohko,
    /// No move that raises its user's evasion.
    Evasion,
    /// No nickname twice in a team.
    Nickname,
    /// Both sides see species and level of all members at the start, and order their teams.
    Preview,
    /// Others see health in hundredths, and not in 48ths.
    Percentage,
}

impl Clause {
    /// The clause with an id.
    pub fn from_id(id: &str) -> Option<Clause>
        ensures { result ≡ clause_of id.now }
    {
        clause_of(id)
    }

    /// The bit that stands for the clause in a set of clauses: 1 for the first, 128 for the last.
    pub fn bit(self) -> u8
        ensures { result ≡ bit_of self }
    {
        match self {
            Clause::Species => 1,
            Clause::Sleep => 2,
            Clause::Freeze => 4,
            Clause::Ohko => 8,
            Clause::Evasion => 16,
            Clause::Nickname => 32,
            Clause::Preview => 64,
            Clause::Percentage => 128,
        }
    }

    /// The name, as the lines of a battle print it.
    pub fn name(self) -> &'static str
        ensures { result.now ≡ name_of self }
    {
        match self {
            Clause::Species => "Species Clause",
            Clause::Sleep => "Sleep Clause Mod",
            Clause::Freeze => "Freeze Clause Mod",
            Clause::Ohko => "OHKO Clause",
            Clause::Evasion => "Evasion Moves Clause",
            Clause::Nickname => "Nickname Clause",
            Clause::Preview => "Team Preview",
            Clause::Percentage => "HP Percentage Mod",
        }
    }

    /// Whether the clause is on in a set of clauses.
    pub fn is_in(self, clauses: u8) -> bool
        ensures { result ≡ has_clause clauses (bit_of self) }
    {
        has(clauses, self.bit())
    }
}

#[tactic(auto, unfolding(crate::specs::Clauses::clause_of))]
fn clause_of(id: &str) -> Option<Clause>
    ensures { result ≡ clause_of id.now }
{
    if id == "speciesclause" {
        return Some(Clause::Species);
    }
    if id == "sleepclausemod" {
        return Some(Clause::Sleep);
    }
    if id == "freezeclausemod" {
        return Some(Clause::Freeze);
    }
    if id == "ohkoclause" {
        return Some(Clause::Ohko);
    }
    if id == "evasionmovesclause" {
        return Some(Clause::Evasion);
    }
    if id == "nicknameclause" {
        return Some(Clause::Nickname);
    }
    if id == "teampreview" {
        return Some(Clause::Preview);
    }
    if id == "hppercentagemod" {
        return Some(Clause::Percentage);
    }
    None
}

/// Whether a bit is in a set of bits.
pub(crate) fn has(set: u8, bit: u8) -> bool
    ensures { result ≡ has_clause set bit }
{
    set & bit != 0
}
