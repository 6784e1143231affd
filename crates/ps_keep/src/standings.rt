//! Standings: the users of a format by their ratings.
ghost use Rattle.std.specs.Prelude.{◌≡◌, ◌<◌, ◌≤◌, ◌+◌, ◌++◌, ◌∷◌, [], length, Some, None, false, IfOk, IfSome, OnOk, OnErr, MatchOption};
ghost use Rattle.std.specs.Str.{bytes_eq};
ghost use Rattle.ps_base.specs.Limits.{most_battles};
ghost use Rattle.ps_ladder.specs.Ratings.{Standing, standing_of};
ghost use Rattle.ps_keep.specs.Results.{result_in, results_in};
ghost use Rattle.ps_keep.specs.Standings.{place_cmp, place_text, standing_with, places_with, places_in, AreStandings};

use crate::note::Note;
use ps_base::id::Id;
use ps_ladder::ladder::Ladder;
use std::alloc::{AllocError, Global};
use std::cmp::Ordering;
use std::fmt;

/// A user's place in the standings of a format. The higher rating stands first, and of equal ones the lower id.
#[derive(Drop)]
pub struct Place {
    /// Who it is.
    pub user: Id,
    /// Its rating.
    pub rating: i32,
}

impl PartialEq for Place {
    ghost use Rattle.std.specs.Ordering.{eq_by_cmp};
    ghost use Rattle.std.proofs.lemmas.Cmp.{eq_by_cmp_equiv};
    ghost use Rattle.std.specs.Cmp.{partial_equiv_from_equiv};
    ghost use Rattle.ps_keep.specs.Order.{place_cmp_total};

    ghost eq = { eq_by_cmp place_cmp };

    ghost laws = { partial_equiv_from_equiv (eq_by_cmp_equiv place_cmp_total) };

    fn eq(&self, other: &Place) -> bool {
        self.cmp(other).is_eq()
    }
}

impl Eq for Place {
    ghost use Rattle.std.proofs.lemmas.Cmp.{eq_by_cmp_equiv};
    ghost use Rattle.ps_keep.specs.Order.{place_cmp_total};

    ghost laws = { eq_by_cmp_equiv place_cmp_total };
}

impl PartialOrd for Place {
    ghost use Rattle.std.specs.Ordering.{as_partial_cmp};
    ghost use Rattle.std.specs.Cmp.{partial_order_from_own_ties};
    ghost use Rattle.std.specs.Cmp.Rules.{comparing};
    ghost use Rattle.std.proofs.Common.{rules};
    ghost use Rattle.ps_keep.specs.Order.{place_cmp_total};

    ghost partial_cmp = { as_partial_cmp place_cmp };

    ghost laws = { partial_order_from_own_ties (Prim.search (comparing, rules, place_cmp_total)) (Prim.search (comparing, rules)) };

    fn partial_cmp(&self, other: &Place) -> Option<Ordering> {
        Some(self.cmp(other))
    }
}

impl Ord for Place {
    ghost use Rattle.std.specs.Prelude.{refl};
    ghost use Rattle.ps_keep.specs.Order.{place_cmp_total};

    ghost cmp = { place_cmp };

    ghost total = { place_cmp_total };

    ghost matches_partial_cmp = { λ x y. refl };

    ghost matches_eq = { λ x y. refl };

    fn cmp(&self, other: &Place) -> Ordering {
        other
            .rating
            .cmp(&self.rating)
            .then(self.user.as_str().cmp(other.user.as_str()))
    }
}

impl fmt::Display for Place {
    ghost use Rattle.std.specs.Prelude.{Some};

    ghost output = { λ p. Some (place_text p) };

    fn fmt<W: fmt::Write>(&self, f: &mut fmt::Formatter<W>) -> fmt::Result {
        write!(f, "{} {}", self.user, self.rating)
    }
}

// The users of a rated battle of the format that was won, winner first, if the note is of one.
fn result_in<'a>(note: &'a Note, format: &Id) -> Option<(&'a Id, &'a Id)>
    ensures { MatchOption result (result_in format.now note.now ≡ None)
        (λ users. result_in format.now note.now ≡ Some (record { winner = users.0.now; loser = users.1.now })) }
{
    match note {
        Note::Won {
            format: other,
            winner,
            loser,
        } => {
            if other == format && winner != loser {
                Some((winner, loser))
            } else {
                None
            }
        }
        Note::Act { .. } => None,
    }
}

// Settles a rated battle, if the note is of one.
fn settle_note(
    alloc: Global,
    ladder: &mut Ladder,
    note: &Note,
    format: &Id,
) -> Result<(), AllocError>
    requires { ladder.old.count < most_battles }
    ensures after { OnOk result (ladder.new ≡ standing_with ladder.old (result_in format.now note.now)) }
{
    match result_in(note, format) {
        None => Ok(()),
        Some((winner, loser)) => {
            ladder.settle(alloc, winner, loser)?;
            Ok(())
        }
    }
}

// The ladder after the results of a format.
fn ladder_of(alloc: Global, notes: &[Note], format: &Id) -> Result<Ladder, AllocError>
    requires { length notes.now ≤ most_battles }
    ensures { IfOk result (λ l. l ≡ standing_of (results_in format.now notes.now)) }
{
    let mut ladder = Ladder::new(alloc);
    for note in notes {
        settle_note(alloc, &mut ladder, note, format)?;
    }
    Ok(ladder)
}

// Puts the places of both users of a rated battle behind the others, if the note is of one.
fn push_places(
    alloc: Global,
    places: &mut Vec<Place>,
    ladder: &Ladder,
    note: &Note,
    format: &Id,
) -> Result<(), AllocError>
    ensures { OnOk result (places.new.items ≡ places.old.items ++ places_with ladder.now.ratings (result_in format.now note.now)) }
{
    let Some((winner, loser)) = result_in(note, format) else {
        return Ok(());
    };
    places.push(Place {
        user: winner.copy(alloc)?,
        rating: ladder.rating(winner),
    })?;
    places.push(Place {
        user: loser.copy(alloc)?,
        rating: ladder.rating(loser),
    })?;
    Ok(())
}

// The places of both users of each rated battle.
fn all_places(
    alloc: Global,
    ladder: &Ladder,
    notes: &[Note],
    format: &Id,
) -> Result<Vec<Place>, AllocError>
    ensures { IfOk result (λ v. v.items ≡ places_in ladder.now.ratings format.now notes.now) }
{
    let mut places = Vec::new(alloc);
    for note in notes {
        push_places(alloc, &mut places, ladder, note, format)?;
    }
    Ok(places)
}

/// The standings of a format after the rated battles of these notes: who won or lost one, each once, with its rating, by falling
/// rating and then by id. A battle that a user won against itself doesn't count.
pub fn standings(alloc: Global, notes: &[Note], format: &Id) -> Result<Vec<Place>, AllocError>
    requires { length notes.now ≤ most_battles }
    ensures { IfOk result (λ v. AreStandings (results_in format.now notes.now) v.items) }
{
    let ladder = ladder_of(alloc, notes, format)?;
    let mut places = all_places(alloc, &ladder, notes, format)?;
    places.sort_unstable();
    places.dedup();
    Ok(places)
}
