//! Lists as they will be after a command, by reference.
ghost use Rattle.std.specs.Prelude.{◌≡◌, ◌++◌, ◌∷◌, [], not, map, OnOk, IfOk, option_to_list};
ghost use Rattle.std.specs.List.{filter};
ghost use Rattle.std.specs.Option.{option_copied};
ghost use Rattle.ps_pms.specs.Lookups.{is_by, is_of, is_with};
ghost use Rattle.ps_ladder.specs.Waiting.{has_user, found, without, cancelled};
ghost use Rattle.ps_hall.specs.Lookups.{games_of};
ghost use Rattle.ps_hall.specs.Coming.{games_after, staying, has_matched, own_but, own_left, own_without, searches_after};
ghost use Rattle.ps_hall.specs.Steps.{without_game};

use crate::game::{Game, plays};
use crate::games::Games;
use ps_base::id::Id;
use ps_ladder::searches::{Search, Searches, has_user, suits};
use ps_pms::asked::Asked;
use std::alloc::{AllocError, Global};

// ---- challenges

/// All challenges.
fn all_asked<'a>(alloc: Global, list: &'a [Asked]) -> Result<Vec<&'a Asked>, AllocError>
    ensures { IfOk result (λ v. map (λ x. x.now) v.items ≡ list.now) }
{
    let mut found = Vec::new(alloc);
    for asked in list {
        found.push(asked)?;
    }
    Ok(found)
}

/// The challenges with one more.
pub(crate) fn asked_and<'a>(
    alloc: Global,
    list: &'a [Asked],
    new: &'a Asked,
) -> Result<Vec<&'a Asked>, AllocError>
    ensures { IfOk result (λ v. map (λ x. x.now) v.items ≡ list.now ++ new.now ∷ []) }
{
    let mut found = all_asked(alloc, list)?;
    found.push(new)?;
    Ok(found)
}

/// The challenges without what a user made.
pub(crate) fn asked_not_by<'a>(
    alloc: Global,
    list: &'a [Asked],
    by: &Id,
) -> Result<Vec<&'a Asked>, AllocError>
    ensures { IfOk result (λ v. map (λ x. x.now) v.items ≡ filter (λ a. not (is_by by.now a)) list.now) }
{
    let mut found = Vec::new(alloc);
    for asked in list {
        if !asked.is_by(by) {
            found.push(asked)?;
        }
    }
    Ok(found)
}

/// The challenges without what the one user made to the other.
pub(crate) fn asked_not_of<'a>(
    alloc: Global,
    list: &'a [Asked],
    by: &Id,
    to: &Id,
) -> Result<Vec<&'a Asked>, AllocError>
    ensures { IfOk result (λ v. map (λ x. x.now) v.items ≡ filter (λ a. not (is_of by.now to.now a)) list.now) }
{
    let mut found = Vec::new(alloc);
    for asked in list {
        if !asked.is_of(by, to) {
            found.push(asked)?;
        }
    }
    Ok(found)
}

/// The challenges without what a user made or got.
pub(crate) fn asked_not_with<'a>(
    alloc: Global,
    list: &'a [Asked],
    user: &Id,
) -> Result<Vec<&'a Asked>, AllocError>
    ensures { IfOk result (λ v. map (λ x. x.now) v.items ≡ filter (λ a. not (is_with user.now a)) list.now) }
{
    let mut found = Vec::new(alloc);
    for asked in list {
        if !asked.is_with(user) {
            found.push(asked)?;
        }
    }
    Ok(found)
}

// ---- searches

/// Which searches go with a command.
#[derive(Drop)]
pub(crate) enum Gone<'a> {
    /// None.
    Nobody,
    /// Those of a user.
    Own {
        user: &'a Id,
    },
    /// The one that a user at a rating is matched with.
    Matched {
        user: &'a Id,
        format: &'a Id,
        rating: i32,
    },
}

/// The searches as they will be after a command.
#[derive(Drop)]
pub(crate) struct ComingSearches<'a> {
    searches: &'a Searches,
    gone: Gone<'a>,
    new: Option<&'a Search>,
}

/// All searches.
#[tactic(auto, using(crate::proofs::ComingLemmas::coming))]
pub(crate) fn all_searches(searches: &Searches) -> ComingSearches<'_>
    ensures { searches_after result ≡ searches.now }
{
    ComingSearches {
        searches,
        gone: Gone::Nobody,
        new: None,
    }
}

/// The searches without those of a user.
#[tactic(auto, using(crate::proofs::ComingLemmas::coming))]
pub(crate) fn searches_not_of<'a>(searches: &'a Searches, user: &'a Id) -> ComingSearches<'a>
    ensures { searches_after result ≡ cancelled searches.now user.now }
{
    ComingSearches {
        searches,
        gone: Gone::Own { user },
        new: None,
    }
}

/// The searches without the one that has waited longest of those that suit.
#[tactic(auto, using(crate::proofs::ComingLemmas::coming))]
pub(crate) fn searches_but<'a>(
    searches: &'a Searches,
    user: &'a Id,
    format: &'a Id,
    rating: i32,
) -> ComingSearches<'a>
    ensures { searches_after result ≡ without searches.now user.now format.now rating }
{
    ComingSearches {
        searches,
        gone: Gone::Matched {
            user,
            format,
            rating,
        },
        new: None,
    }
}

/// The searches with one more.
pub(crate) fn searches_and<'a>(searches: &'a Searches, new: &'a Search) -> ComingSearches<'a>
    ensures { searches_after result ≡ searches.now ++ new.now ∷ [] }
{
    ComingSearches {
        searches,
        gone: Gone::Nobody,
        new: Some(new),
    }
}

// Searches without the one that has waited longest of those that suit.
fn without_found<'a>(
    alloc: Global,
    list: &[&'a Search],
    user: &Id,
    format: &Id,
    rating: i32,
) -> Result<Vec<&'a Search>, AllocError>
    ensures { IfOk result (λ v. map (λ x. x.now) v.items ≡ without (map (λ x. x.now) list.now) user.now format.now rating) }
{
    let mut found = Vec::new(alloc);
    let mut is_out = false;
    for entry in list {
        if is_out {
            found.push(*entry)?;
            continue;
        }
        if suits(*entry, user, format, rating) {
            is_out = true;
            continue;
        }
        found.push(*entry)?;
    }
    Ok(found)
}

// Whether the search that a user at a rating is matched with is of another user.
fn is_matched(searches: &Searches, user: &Id, format: &Id, rating: i32, other: &Id) -> bool
    ensures { result ≡ has_matched (found searches.now user.now format.now rating) other.now }
{
    match searches.find(user, format, rating) {
        None => false,
        Some(entry) => has_user(entry, other),
    }
}

// A user's searches without the one that another user is matched with.
fn own_unmatched<'a>(
    alloc: Global,
    searches: &Searches,
    own: Vec<&'a Search>,
    user: &Id,
    format: &Id,
    rating: i32,
    id: &Id,
) -> Result<Vec<&'a Search>, AllocError>
    ensures { IfOk result (λ v. map (λ x. x.now) v.items
        ≡ own_without searches.now user.now format.now rating id.now (map (λ x. x.now) own.entry.items)) }
{
    if is_matched(searches, user, format, rating, id) {
        return without_found(alloc, own.as_slice(), user, format, rating);
    }
    Ok(own)
}

// A user's searches, if it isn't the one whose searches go.
fn own_unless<'a>(alloc: Global, own: Vec<&'a Search>, user: &Id, id: &Id) -> Vec<&'a Search>
    ensures { map (λ x. x.now) result.items ≡ own_but user.now id.now (map (λ x. x.now) own.entry.items) }
{
    if user.as_str() == id.as_str() {
        return Vec::new(alloc);
    }
    own
}

// What is left of a user's searches.
fn own_left<'a>(
    alloc: Global,
    searches: &Searches,
    gone: &Gone,
    own: Vec<&'a Search>,
    id: &Id,
) -> Result<Vec<&'a Search>, AllocError>
    ensures { IfOk result (λ v. map (λ x. x.now) v.items
        ≡ own_left gone.now searches.now id.now (map (λ x. x.now) own.entry.items)) }
{
    match gone {
        Gone::Nobody => Ok(own),
        Gone::Own { user } => Ok(own_unless(alloc, own, *user, id)),
        Gone::Matched {
            user,
            format,
            rating,
        } => own_unmatched(alloc, searches, own, *user, *format, *rating, id),
    }
}

// The search that comes, if one does that is of the user.
fn push_coming<'a>(
    found: &mut Vec<&'a Search>,
    new: Option<&'a Search>,
    id: &Id,
) -> Result<(), AllocError>
    ensures { OnOk result (map (λ x. x.now) found.new.items ≡ map (λ x. x.now) found.old.items
        ++ filter (has_user id.now) (option_to_list (option_copied new.entry))) }
{
    match new {
        None => Ok(()),
        Some(search) => {
            if has_user(search, id) {
                found.push(search)?;
                return Ok(());
            }
            Ok(())
        }
    }
}

/// The searches of a user, in order of search.
#[tactic(auto, using(crate::proofs::ComingLemmas::coming))]
pub(crate) fn own_searches<'a>(
    alloc: Global,
    searches: &ComingSearches<'a>,
    id: &Id,
) -> Result<Vec<&'a Search>, AllocError>
    ensures { IfOk result (λ v. map (λ x. x.now) v.items ≡ filter (has_user id.now) (searches_after searches.now)) }
{
    let own = searches.searches.of(alloc, id)?;
    let mut found = own_left(alloc, searches.searches, &searches.gone, own, id)?;
    push_coming(&mut found, searches.new, id)?;
    Ok(found)
}

// ---- battles

/// The battles as they will be after a command.
#[derive(Drop)]
pub(crate) struct ComingGames<'a> {
    games: &'a Games,
    new: Option<&'a Game>,
    gone: Option<u32>,
}

/// All battles.
#[tactic(auto, using(crate::proofs::ComingLemmas::coming))]
pub(crate) fn all_games(games: &Games) -> ComingGames<'_>
    ensures { games_after result ≡ games.now.list }
{
    ComingGames {
        games,
        new: None,
        gone: None,
    }
}

/// The battles with one that starts, if one does.
pub(crate) fn games_and<'a>(games: &'a Games, new: Option<&'a Game>) -> ComingGames<'a>
    ensures { games_after result ≡ games.now.list ++ option_to_list (option_copied new.entry) }
{
    ComingGames {
        games,
        new,
        gone: None,
    }
}

/// The battles without the one with a number.
#[tactic(auto, using(crate::proofs::ComingLemmas::coming))]
pub(crate) fn games_but(games: &Games, number: u32) -> ComingGames<'_>
    ensures { games_after result ≡ without_game games.now.list number }
{
    ComingGames {
        games,
        new: None,
        gone: Some(number),
    }
}

// The battles without the one that goes, if one does.
fn staying<'a>(
    alloc: Global,
    games: &[&'a Game],
    gone: Option<u32>,
) -> Result<Vec<&'a Game>, AllocError>
    ensures { IfOk result (λ v. map (λ x. x.now) v.items ≡ staying gone (map (λ x. x.now) games.now)) }
{
    match gone {
        None => all_of(alloc, games),
        Some(number) => all_but(alloc, games, number),
    }
}

fn all_of<'a>(alloc: Global, games: &[&'a Game]) -> Result<Vec<&'a Game>, AllocError>
    ensures { IfOk result (λ v. map (λ x. x.now) v.items ≡ map (λ x. x.now) games.now) }
{
    let mut found = Vec::new(alloc);
    for game in games {
        found.push(*game)?;
    }
    Ok(found)
}

fn all_but<'a>(alloc: Global, games: &[&'a Game], number: u32) -> Result<Vec<&'a Game>, AllocError>
    ensures { IfOk result (λ v. map (λ x. x.now) v.items ≡ without_game (map (λ x. x.now) games.now) number) }
{
    let mut found = Vec::new(alloc);
    for game in games {
        if game.number != number {
            found.push(*game)?;
        }
    }
    Ok(found)
}

// The battle that starts, if one does that the user plays.
fn push_new<'a>(found: &mut Vec<&'a Game>, new: Option<&'a Game>, id: &Id) -> Result<(), AllocError>
    ensures { OnOk result (map (λ x. x.now) found.new.items ≡ map (λ x. x.now) found.old.items
        ++ games_of (option_to_list (option_copied new.entry)) id.now) }
{
    match new {
        None => Ok(()),
        Some(game) => {
            if plays(id.as_str(), game) {
                found.push(game)?;
                return Ok(());
            }
            Ok(())
        }
    }
}

/// The battles of a user.
#[tactic(auto, using(crate::proofs::ComingLemmas::coming))]
pub(crate) fn own_games<'a>(
    alloc: Global,
    games: &ComingGames<'a>,
    id: &Id,
) -> Result<Vec<&'a Game>, AllocError>
    ensures { IfOk result (λ v. map (λ x. x.now) v.items ≡ games_of (games_after games.now) id.now) }
{
    let own = games.games.of(alloc, id)?;
    let mut found = staying(alloc, own.as_slice(), games.gone)?;
    push_new(&mut found, games.new, id)?;
    Ok(found)
}
