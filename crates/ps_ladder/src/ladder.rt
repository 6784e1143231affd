//! The ladder of one format: the ratings after the results of its rated battles.
ghost use Rattle.std.specs.Prelude.{◌≡◌, ◌<◌, ◌≤◌, ◌++◌, ◌∷◌, [], ℕ, List, pos, ◌+ℤ◌, ◌-ℤ◌, OnOk, OnErr, IfOk, false};
ghost use Rattle.std.specs.FinMap.{contains_key, empty};
ghost use Rattle.std.specs.List.{All, list_any};
ghost use Rattle.std.specs.Str.{bytes_eq};
ghost use Rattle.ps_base.specs.Limits.{most_battles};
ghost use Rattle.ps_ladder.specs.Gains.{gain_of};
ghost use Rattle.ps_ladder.specs.Ratings.{Won, rating, settled, ratings_of, rating_of, standing_of, standing_after, IsBalanced};
ghost use Rattle.ps_ladder.specs.Ratings.{IsNear, IsOfTwo, has_played};

use crate::gain::gain_of;
use crate::scores::{Scores, set_both};
use ps_base::id::Id;
use std::alloc::{AllocError, Global};
use std::marker::Model;

/// The ratings of one format. Contracts see how many results there were, and the ratings after them.
pub struct Ladder {
    scores: Scores,
    count: u32,
}

// By hand, so that who drops one has one call to prove.
impl Drop for Ladder {
    fn drop(self) {
        let Ladder {
            scores: _,
            count: _,
        } = self;
    }
}

impl Model for Ladder {
    ghost use Rattle.std.specs.Coded.{codes, coded_ℤ};
    ghost use Rattle.ps_base.specs.ById.{by_id_code};
    ghost use Rattle.ps_ladder.specs.Ratings.{Standing, IsSound};

    ghost Value = { Standing };

    ghost coded = { Prim.hlevel (codes, by_id_code coded_ℤ) };

    ghost view = { λ l. record { count = l.count; ratings = l.scores } };

    ghost invariant = { λ l. IsSound (record { count = l.count; ratings = l.scores }) };
}

// The new ratings of a winner and a loser at these.
fn new_ratings(winner: i32, loser: i32) -> (i32, i32)
    requires winner { IsNear 65535 winner }
    requires loser { IsNear 65535 loser }
    ensures winner { result.0 ≡ winner +ℤ pos (gain_of winner loser) }
    ensures loser { result.1 ≡ loser -ℤ pos (gain_of winner loser) }
    ensures gain { gain_of winner loser ≤ 32 }
{
    let gain = gain_of(winner, loser);
    (winner + gain, loser - gain)
}

// The two new ratings, winner's first, before they are settled.
fn preview(scores: &Scores, winner: &Id, loser: &Id) -> (i32, i32)
    requires winner { IsNear 65535 (rating scores.now winner.now) }
    requires loser { IsNear 65535 (rating scores.now loser.now) }
    requires apart { bytes_eq winner.now loser.now ≡ false }
    ensures winner { result.0 ≡ rating (settled scores.now winner.now loser.now) winner.now }
    ensures loser { result.1 ≡ rating (settled scores.now winner.now loser.now) loser.now }
    ensures higher { result.0 ≡ rating scores.now winner.now +ℤ pos (gain_of (rating scores.now winner.now) (rating scores.now loser.now)) }
    ensures lower { result.1 ≡ rating scores.now loser.now -ℤ pos (gain_of (rating scores.now winner.now) (rating scores.now loser.now)) }
    ensures gain { gain_of (rating scores.now winner.now) (rating scores.now loser.now) ≤ 32 }
{
    let higher = scores.rating(winner.as_str());
    let lower = scores.rating(loser.as_str());
    let (higher, lower) = new_ratings(higher, lower);
    (higher, lower)
}

// Settles them, and gives the two new ratings, winner's first.
fn settle(
    scores: &mut Scores,
    alloc: Global,
    winner: &Id,
    loser: &Id,
) -> Result<(i32, i32), AllocError>
    requires winner { IsNear 65535 (rating scores.old winner.now) }
    requires loser { IsNear 65535 (rating scores.old loser.now) }
    requires apart { bytes_eq winner.now loser.now ≡ false }
    ensures winner { IfOk result (λ new. new.0 ≡ rating (settled scores.old winner.now loser.now) winner.now) }
    ensures loser { IfOk result (λ new. new.1 ≡ rating (settled scores.old winner.now loser.now) loser.now) }
    ensures ok { OnOk result (scores.new ≡ settled scores.old winner.now loser.now) }
    ensures err { OnErr result (scores.new ≡ scores.old) }
    ensures gain { gain_of (rating scores.old winner.now) (rating scores.old loser.now) ≤ 32 }
{
    let (higher, lower) = preview(scores, winner, loser);
    set_both(
        scores,
        alloc,
        winner.as_str(),
        higher,
        loser.as_str(),
        lower,
    )?;
    Ok((higher, lower))
}

impl Ladder {
    /// Nobody was rated. Takes no memory.
    pub fn new(alloc: Global) -> Ladder
        ensures value { result ≡ record { count = 0; ratings = empty } }
        ensures history { result ≡ standing_of [] }
    {
        Ladder {
            scores: Scores::new(alloc),
            count: 0,
        }
    }

    /// How many results there were, at most 65,536.
    pub fn count(&self) -> u32
        ensures { result ≡ self.now.count }
    {
        self.count
    }

    /// The rating of a user: 1000 for who was never rated.
    pub fn rating(&self, user: &Id) -> i32
        ensures value { result ≡ rating self.now.ratings user.now }
        ensures history { (results : List Won) → self.now ≡ standing_of results → result ≡ rating_of user.now results }
        ensures near { IsNear self.now.count result }
        ensures sum { IsBalanced self.now.ratings }
    {
        self.scores.rating(user.as_str())
    }

    /// The two new ratings that a rated battle will give, the winner's first, before it is settled. Takes no memory.
    pub fn preview(&self, winner: &Id, loser: &Id) -> (i32, i32)
        requires apart { bytes_eq winner.now loser.now ≡ false }
        requires few { self.now.count < most_battles }
        ensures winner { result.0 ≡ rating (standing_after self.now winner.now loser.now).ratings winner.now }
        ensures loser { result.1 ≡ rating (standing_after self.now winner.now loser.now).ratings loser.now }
    {
        preview(&self.scores, winner, loser)
    }

    /// Settles a rated battle that was won: the gain goes from loser to winner. It gives the two new ratings,
    /// the winner's first. Where memory fails nothing changes.
    pub fn settle(
        &mut self,
        alloc: Global,
        winner: &Id,
        loser: &Id,
    ) -> Result<(i32, i32), AllocError>
        requires apart { bytes_eq winner.now loser.now ≡ false }
        requires few { self.old.count < most_battles }
        ensures winner { IfOk result (λ new. new.0 ≡ rating (settled self.old.ratings winner.now loser.now) winner.now) }
        ensures loser { IfOk result (λ new. new.1 ≡ rating (settled self.old.ratings winner.now loser.now) loser.now) }
        ensures after { OnOk result (self.new ≡ standing_after self.old winner.now loser.now) }
        ensures history { OnOk result ((results : List Won) → self.old ≡ standing_of results
            → self.new ≡ standing_of (results ++ record { winner = winner.now; loser = loser.now } ∷ [])) }
        ensures sum { IsBalanced self.new.ratings }
        ensures err { OnErr result (self.new ≡ self.old) }
    {
        let ratings = settle(&mut self.scores, alloc, winner, loser)?;
        self.count += 1;
        Ok(ratings)
    }
}

/// After any results between two users each, the sum of all ratings is 1000 times the number of those who
/// were rated.
pub fn law_of_sums()
    ensures { (results : List Won) → All IsOfTwo results → IsBalanced (ratings_of results) }
{}

/// Who was rated after any results: those who played one of these battles.
pub fn law_of_rated()
    ensures { (results : List Won) → (user : List ℕ) → contains_key (ratings_of results) user ≡ list_any (has_played user) results }
{}
