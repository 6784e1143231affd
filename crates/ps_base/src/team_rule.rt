//! Rules that a team has to meet.
ghost use Rattle.std.specs.Prelude.{◌≡◌};
ghost use Rattle.ps_base.specs.TeamRules.{team_rule_name};

/// The rules for a team, in the order in which they are reported: the first two speak of the whole team, the
/// last two of a set and an earlier one.
#[derive(Clone, Copy, Debug, PartialEq, Eq)]
pub enum TeamRule {
    /// Fewer sets than the format's least number.
    TooFew,
    /// More sets than the format's greatest number.
    TooMany,
    /// No species has the id.
    UnknownSpecies,
    /// The format bans the species.
    BannedSpecies,
    /// The level is below the format's lowest.
    LevelTooLow,
    /// The level is above the format's highest.
    LevelTooHigh,
    /// The set has no move.
    NoMoves,
    /// No move has the id.
    UnknownMove,
    /// The format bans the move.
    BannedMove,
    /// The species can't learn the move.
    NotLearned,
    /// The set has the move already.
    RepeatedMove,
    /// OHKO Clause bans the move.
    OhkoClause,
    /// Evasion Moves Clause bans the move.
    EvasionClause,
    /// An EV is above 252.
    EvTooHigh,
    /// An earlier set has the species: Species Clause.
    SpeciesClause,
    /// An earlier set has the nickname: Nickname Clause.
    NicknameClause,
}

impl TeamRule {
    /// The name of the rule, as a line gives it.
    pub fn name(self) -> &'static str
        ensures { result.now ≡ team_rule_name self }
    {
        match self {
            TeamRule::TooFew => "TooFew",
            TeamRule::TooMany => "TooMany",
            TeamRule::UnknownSpecies => "UnknownSpecies",
            TeamRule::BannedSpecies => "BannedSpecies",
            TeamRule::LevelTooLow => "LevelTooLow",
            TeamRule::LevelTooHigh => "LevelTooHigh",
            TeamRule::NoMoves => "NoMoves",
            TeamRule::UnknownMove => "UnknownMove",
            TeamRule::BannedMove => "BannedMove",
            TeamRule::NotLearned => "NotLearned",
            TeamRule::RepeatedMove => "RepeatedMove",
            TeamRule::OhkoClause => "OhkoClause",
            TeamRule::EvasionClause => "EvasionClause",
            TeamRule::EvTooHigh => "EvTooHigh",
            TeamRule::SpeciesClause => "SpeciesClause",
            TeamRule::NicknameClause => "NicknameClause",
        }
    }
}
