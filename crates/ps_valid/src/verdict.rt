//! The first rule that a team breaks.
ghost use Rattle.std.specs.Prelude.{◌≡◌, true, Some, IfOk, decimal};
ghost use Rattle.ps_valid.specs.declared.verdict.TeamFault.TheVariants.{NoMemory};
ghost use Rattle.ps_valid.specs.Verdicts.{Finds, keeps, require_known};

use ps_base::team_rule::TeamRule;
use ps_base::text::Text;
use std::alloc::{AllocError, AllocFailed, Global};

/// A rule that a team breaks.
#[derive(Debug, Drop)]
pub struct Verdict {
    /// The set that breaks it, counted from 1; 0 where the number of sets does.
    pub set: u8,
    /// The rule.
    pub rule: TeamRule,
    /// What breaks it: a number in decimal, the id of a species or a move as the team has it, or a
    /// nickname.
    pub subject: Text,
}

/// Why a team isn't legal.
#[derive(Debug, Drop)]
pub enum TeamFault {
    /// The first rule that the team breaks.
    Verdict(Verdict),
    /// Memory ran out.
    NoMemory,
}

impl From<AllocError> for TeamFault {
    ghost from_gives = { λ _ e. e ≡ NoMemory };

    fn from(_error: AllocError) -> TeamFault {
        TeamFault::NoMemory
    }
}

impl<T: Drop> From<AllocFailed<T>> for TeamFault {
    ghost from_gives = { λ _ e. e ≡ NoMemory };

    fn from(_error: AllocFailed<T>) -> TeamFault {
        TeamFault::NoMemory
    }
}

/// A rule with a text as its subject.
pub(crate) fn keeps(
    alloc: Global,
    set: u8,
    rule: TeamRule,
    subject: &str,
    kept: bool,
) -> Result<(), TeamFault>
    ensures finds { Finds result (keeps set rule subject.now kept) }
    ensures kept { IfOk result (λ _. kept ≡ true) }
{
    if kept {
        return Ok(());
    }
    Err(TeamFault::Verdict(Verdict {
        set,
        rule,
        subject: Text::copy_of(alloc, subject)?,
    }))
}

/// A rule with a number as its subject.
pub(crate) fn keeps_number(
    alloc: Global,
    set: u8,
    rule: TeamRule,
    subject: u8,
    kept: bool,
) -> Result<(), TeamFault>
    ensures { Finds result (keeps set rule (decimal subject) kept) }
{
    if kept {
        return Ok(());
    }
    let subject = format!(in alloc; "{subject}")?;
    Err(TeamFault::Verdict(Verdict {
        set,
        rule,
        subject: Text::from_string(subject),
    }))
}

/// The rule that the dex has something.
pub(crate) fn require_known(
    alloc: Global,
    set: u8,
    rule: TeamRule,
    subject: &str,
    number: Option<u16>,
) -> Result<u16, TeamFault>
    ensures finds { Finds result (require_known set rule subject.now number) }
    ensures same { IfOk result (λ n. number ≡ Some n) }
{
    match number {
        Some(number) => Ok(number),
        None => Err(TeamFault::Verdict(Verdict {
            set,
            rule,
            subject: Text::copy_of(alloc, subject)?,
        })),
    }
}
