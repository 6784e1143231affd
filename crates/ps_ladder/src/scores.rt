//! Ratings by user.
ghost use Rattle.std.specs.Prelude.{◌≡◌, OnOk, OnErr, IfOk, not, true, pos};
ghost use Rattle.std.specs.FinMap as map;
ghost use Rattle.ps_ladder.specs.Ratings.{rating};

use std::alloc::{AllocError, Global};
use std::collections::BTreeMap;
use std::marker::Model;

/// The ratings of those who were rated, by id. Contracts see the finite map.
pub struct Scores {
    tree: BTreeMap<String, i32>,
}

// By hand, so that who drops one has one call to prove.
impl Drop for Scores {
    fn drop(self) {
        let Scores { tree: _ } = self;
    }
}

impl Model for Scores {
    ghost use Rattle.std.specs.Coded.{coded_ℤ};
    ghost use Rattle.ps_base.specs.ById.{by_id, by_id_code};
    ghost use Rattle.ps_ladder.specs.Ratings.{Ratings};

    ghost Value = { Ratings };

    ghost coded = { by_id_code coded_ℤ };

    ghost view = { λ s. by_id s.tree.entries };
}

impl Scores {
    /// Nobody was rated. Takes no memory.
    pub fn new(alloc: Global) -> Scores
        ensures { result ≡ map.empty }
    {
        Scores {
            tree: BTreeMap::new(alloc),
        }
    }

    /// The rating of a user: 1000 for who was never rated.
    pub fn rating(&self, user: &str) -> i32
        ensures { result ≡ rating self.now user.now }
    {
        self.tree.get(user).copied().unwrap_or(1000)
    }

    /// Notes the rating of a user, also of one who was never rated, and whether it was never rated. Where
    /// memory fails nothing changes.
    pub fn enter(&mut self, alloc: Global, user: &str) -> Result<bool, AllocError>
        ensures ok { OnOk result (self.new ≡ map.insert self.old user.now (rating self.old user.now)) }
        ensures fresh { IfOk result (λ b. b ≡ not (map.contains_key self.old user.now)) }
        ensures err { OnErr result (self.new ≡ self.old) }
    {
        if self.tree.contains_key(user) {
            return Ok(false);
        }
        let key = String::from_str(alloc, user)?;
        self.tree.insert(key, 1000)?;
        Ok(true)
    }

    /// Sets the rating of a user that has one. Takes no memory.
    pub fn set(&mut self, user: &str, value: i32)
        requires { map.contains_key self.old user.now ≡ true }
        ensures { self.new ≡ map.insert self.old user.now value }
    {
        let score = self.tree.get_mut(user).unwrap();
        *score = value;
    }

    /// Takes away the rating of a user.
    pub fn remove(&mut self, user: &str)
        ensures { self.new ≡ map.remove self.old user.now }
    {
        let _ = self.tree.remove(user);
    }
}

/// Gives two users their new ratings. Where memory fails nothing changes.
pub fn set_both(
    scores: &mut Scores,
    alloc: Global,
    winner: &str,
    higher: i32,
    loser: &str,
    lower: i32,
) -> Result<(), AllocError>
    ensures ok { OnOk result (scores.new ≡ map.insert (map.insert scores.old winner.now higher) loser.now lower) }
    ensures err { OnErr result (scores.new ≡ scores.old) }
{
    let fresh = scores.enter(alloc, winner)?;
    match scores.enter(alloc, loser) {
        Err(end) => {
            if fresh {
                scores.remove(winner);
            }
            Err(end)
        }
        Ok(_) => {
            scores.set(winner, higher);
            scores.set(loser, lower);
            Ok(())
        }
    }
}
