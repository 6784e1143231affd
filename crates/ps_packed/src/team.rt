//! Packed teams.
ghost use Rattle.std.specs.Prelude as prelude;
ghost use Rattle.std.specs.Prelude.{◌≡◌, IfOk, IfErr, ℕ};
ghost use Rattle.std.specs.Str.{chars};
ghost use Rattle.ps_packed.specs.declared.set.Set.{Set};
ghost use Rattle.ps_packed.specs.Packed.{HasText, IsTeam, Refuses};
ghost use Rattle.ps_packed.specs.Canon.{canon};

use crate::fault::PackFault;
use crate::read::sets_of;
use crate::scan::scan_text;
use crate::set::Set;
use ps_base::characters::characters;
use ps_base::list::List;
use std::alloc::Global;
use std::marker::Model;

/// A team of 1 to 6 sets that some packed text has.
#[derive(Debug)]
pub struct Team {
    sets: List<Set>,
}

// By hand, so that who drops one has one call to prove.
impl Drop for Team {
    fn drop(self) {
        let Team { sets: _ } = self;
    }
}

impl Model for Team {
    ghost use Rattle.std.specs.Prelude as prelude;
    ghost use Rattle.ps_packed.specs.declared.set.Set.{Set};
    ghost use Rattle.ps_packed.specs.Packed.{HasText};

    ghost Value = { prelude.List Set };

    ghost view = { λ t. t.sets };

    ghost invariant = { λ t. HasText t.sets };
}

#[tactic(auto, using(crate::proofs::SetRanges::team_facts))]
impl Team {
    ghost use Rattle.std.specs.Prelude.{◌<◌, ◌≤◌, length, All};
    ghost use Rattle.ps_packed.specs.Packed.{HasText};
    ghost use Rattle.ps_packed.specs.Ranges.{HasRanges};

    /// The sets, in the order of the text.
    pub fn sets(&self) -> &[Set]
        ensures value { result.now ≡ self.now }
        ensures has_text { HasText self.now }
        ensures some { 0 < length self.now }
        ensures few { length self.now ≤ 6 }
        ensures ranges { All HasRanges self.now }
    {
        self.sets.as_slice()
    }
}

/// Reads a packed team (TEAMS.md of the simulator): 1 to 6 sets joined by `]`, in at most 4,096 bytes,
/// each of twelve fields joined by `|`.
///
/// `Fault` comes exactly where no team has the text: `at` is the byte where the longest part ends that
/// some packed text begins with, and `kind` says what is wrong there. `NoMemory` comes where an
/// allocation fails.
pub fn read_team(alloc: Global, text: &str) -> Result<Team, PackFault>
    // The team is the text's.
    ensures found { IfOk result (λ t. IsTeam (chars text.now) t) }
    // The text has no other.
    ensures alone { IfOk result (λ t. (other : prelude.List Set) → IsTeam (chars text.now) other → other ≡ t) }
    // A fault is the text's, which then has no team.
    ensures fault { IfErr result (Refuses (chars text.now)) }
{
    let text = characters(alloc, text)?;
    scan_text(alloc, text.as_slice())?;
    let sets = sets_of(alloc, text.as_slice())?;
    Ok(Team { sets })
}

/// No text has two teams.
pub fn one_team()
    ensures { (text : prelude.List ℕ) (a b : prelude.List Set) → IsTeam text a → IsTeam text b → a ≡ b }
{}

/// The canonical text of a team that some text has is a text of it.
pub fn canonical_is()
    ensures { (t : prelude.List Set) → HasText t → IsTeam (chars (canon t)) t }
{}
