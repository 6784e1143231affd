//! Ratings that are far apart, which takes more battles than a script should have.
use crate::made;
use ps_ladder::gain::gain_of;
use ps_ladder::searches::{AddFault, Found, Searches};
use std::alloc::{AllocError, Global};
use std::process::Abort;

/// Who searches a format at a rating, in order, and what it learns.
const SEARCHES: &[(&str, &str, i32, &str)] = &[
    ("ann", "ou", 1000, "waits"),
    ("ann", "ou", 1000, "already"),
    ("bob", "ou", 1301, "waits"),
    ("cy", "ubers", 1000, "waits"),
    ("dan", "ou", 1300, "ann 1000"),
    ("eve", "ou", 1601, "bob 1301"),
    ("ann", "ou", 1000, "waits"),
];

/// A rating far above, one far below, and what it gains.
const GAINS: &[(i32, i32, i32)] = &[(1400, 1000, 2), (1000, 1400, 29), (-50, -50, 16)];

#[test]
fn unequal_results(rt: HostRuntime) {
    for (winner, loser, gain) in GAINS {
        assert_eq!(rt; gain_of(*winner, *loser), *gain);
    }
}

fn learned(alloc: Global, found: Result<Found, AddFault>) -> Result<String, AllocError> {
    match found {
        Ok(Found::Waiting) => String::from_str(alloc, "waits"),
        Ok(Found::Matched { user, rating }) => format!(in alloc; "{user} {rating}"),
        Err(AddFault::Already) => String::from_str(alloc, "already"),
        Err(AddFault::NoMemory) => Err(AllocError),
    }
}

/// What a user learns that begins to search.
fn search(
    rt: &impl Abort,
    alloc: Global,
    searches: &mut Searches,
    names: (&str, &str),
    rating: i32,
) -> Result<Found, AddFault> {
    let (user, format) = names;
    let user = made::id(rt, alloc, user);
    let format = made::id(rt, alloc, format);
    searches.add(alloc, &user, &format, rating)
}

fn cancel(rt: &impl Abort, alloc: Global, searches: &mut Searches, user: &str) -> bool {
    let user = made::id(rt, alloc, user);
    searches.cancel(alloc, &user)
}

/// How many searches a user has.
fn count_of(rt: &impl Abort, alloc: Global, searches: &Searches, user: &str) -> usize {
    let user = made::id(rt, alloc, user);
    searches.of(alloc, &user).expect(rt, "memory").len()
}

fn search_all(rt: &impl Abort, alloc: Global, searches: &mut Searches) {
    for (user, format, rating, wanted) in SEARCHES {
        let found = search(rt, alloc, searches, (user, format), *rating);
        made::assert_told(rt, learned(alloc, found), wanted);
    }
}

/// Who searches can cancel it once, and the others go on.
fn assert_cancels(rt: &impl Abort, alloc: Global, searches: &mut Searches) {
    assert!(rt; cancel(rt, alloc, searches, "cy"));
    assert!(rt; !cancel(rt, alloc, searches, "cy"));
    assert_eq!(rt; count_of(rt, alloc, searches, "cy"), 0);
    assert_eq!(rt; count_of(rt, alloc, searches, "ann"), 1);
}

#[test]
fn searches(rt: HostRuntime) {
    let mut searches = Searches::new(rt.alloc());
    search_all(&rt, rt.alloc(), &mut searches);
    assert_cancels(&rt, rt.alloc(), &mut searches);
}
