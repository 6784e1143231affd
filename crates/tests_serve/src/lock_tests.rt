//! A lock round numbers, one pass and several, in one thread and in two.
ghost use Rattle.std.specs.Prelude.{◌≡◌, IfOk};

use ps_histlock::{HistLock, Kept, OWN_LIMIT, Pass, Turn, TurnOf};
use std::alloc::{AllocError, Global};
use std::sync::Wait;
use std::test::Fail;
use std::thread;

/// Numbers, which stand for themselves. A reader's cursor is how many it has been told.
#[derive(Drop)]
struct Numbers {
    alloc: Global,
    first: u64,
    log: Vec<u64>,
}

impl Kept for Numbers {
    ghost use Rattle.std.specs.Prelude.{◌≡◌, length, drop, None};

    type Origin = u64;

    type Cmd = u64;

    type Out = u64;

    type Cursor = usize;

    type Msg = u64;

    ghost origin = { λ n. n.first };

    ghost nowhere = { 0 };

    ghost signer = { λ _. None };

    ghost stands = { λ log n. n.log.items ≡ log };

    ghost answers = { λ o log cmd out. out ≡ length log };

    ghost pulls = { λ o log x msgs y. (msgs ≡ drop x log) × (y ≡ length log) };

    fn signed_by(_cmd: &u64) -> Option<u64> {
        None
    }

    fn apply(&mut self, cmd: u64) -> Result<u64, AllocError> {
        let count = self.log.len();
        if count >= 1 << 61 {
            return Err(AllocError);
        }
        self.log.push(cmd)?;
        Ok(count as u64)
    }

    fn pull(&self, cursor: &mut usize) -> Result<Vec<u64>, AllocError> {
        let from = self.log.len().min(*cursor);
        let msgs = self.log[from..].to_vec(self.alloc)?;
        *cursor = self.log.len();
        Ok(msgs)
    }
}

fn lock_of_numbers(alloc: Global) -> Result<(HistLock<Numbers>, Pass<Numbers>), AllocError>
    ensures { IfOk result (λ r. r.1.0 ≡ r.0.0) }
{
    let kept = Numbers {
        alloc,
        first: 0,
        log: Vec::new(alloc),
    };
    HistLock::new(alloc, kept)
}

/// What a turn answered, in one value that tests compare.
#[derive(PartialEq, Eq, Debug, Drop)]
enum Answer {
    Done { out: Option<u64>, told: usize },
    Late,
    Busy { word: u64, cmd: Option<u64> },
    OwnLimit { cmd: Option<u64> },
    Taken { cmd: Option<u64> },
    NoMemory,
}

fn answer_of(turn: Turn<Numbers>) -> Answer {
    match turn {
        TurnOf::Done { out, msgs } => Answer::Done {
            out,
            told: msgs.len(),
        },
        TurnOf::Late { out: _ } => Answer::Late,
        TurnOf::Busy { word, cmd } => Answer::Busy { word, cmd },
        TurnOf::OwnLimit { cmd } => Answer::OwnLimit { cmd },
        TurnOf::Taken { cmd } => Answer::Taken { cmd },
        TurnOf::NoMemory => Answer::NoMemory,
    }
}

fn done(out: Option<u64>, told: usize) -> Answer {
    Answer::Done { out, told }
}

fn busy(word: u64, cmd: Option<u64>) -> Answer {
    Answer::Busy { word, cmd }
}

fn try_one(
    lock: &HistLock<Numbers>,
    pass: &mut Pass<Numbers>,
    cursor: &mut usize,
    cmd: Option<u64>,
) -> Answer
    requires { pass.old.0 ≡ lock.now.0 }
    ensures { pass.new.0 ≡ pass.old.0 }
{
    answer_of(lock.try_turn(pass, cursor, cmd))
}

/// Makes entries of its own, `from` and the numbers after it. Says how many of its turns were Done, and hands its pass out.
fn make<R: Wait>(rt: &R, lock: &HistLock<Numbers>, from: u64, count: u64) -> (u64, Pass<Numbers>)
    ensures { result.1.0 ≡ lock.now.0 }
{
    let mut pass = lock.fresh();
    let mut cursor = 0;
    let mut done: u64 = 0;
    for n in 0..count {
        let cmd = from.wrapping_add(n);
        if let TurnOf::Done { .. } = lock.turn(rt, &mut pass, &mut cursor, Some(cmd)) {
            done = done.wrapping_add(1);
        }
    }
    (done, pass)
}

/// Whether both kinds of number, below 10,000 and from there on, stand in their own order.
fn is_merged(msgs: &[u64]) -> bool {
    let mut low = 0;
    let mut high = 10000;
    for n in msgs {
        if *n == low {
            low = low.wrapping_add(1);
        } else if *n == high {
            high = high.wrapping_add(1);
        } else {
            return false;
        }
    }
    true
}

#[test]
fn two_threads_leave_one_history(rt: HostRuntime) -> Result<(), Fail> {
    let (lock, mut pass) = lock_of_numbers(rt.alloc())?;
    let shared = &lock;
    let ((low, mut one), (high, mut other)) = thread::join(
        &rt,
        move ||
            ensures { result.1.0 ≡ shared.entry.now.0 }
        { make(&rt, shared, 0, 4000) },
        move ||
            ensures { result.1.0 ≡ shared.entry.now.0 }
        { make(&rt, shared, 10000, 4000) },
    );
    assert_eq!(rt; low, 4000);
    assert_eq!(rt; high, 4000);
    lock.meet(&mut one, &mut other);
    assert_eq!(rt; lock.look(&mut one), 8000);
    assert_eq!(rt; lock.look(&mut other), 8000);
    assert_eq!(rt; lock.look(&mut pass), 8000);
    match lock.turn(&rt, &mut pass, &mut 0, None) {
        TurnOf::Done { out: _, msgs } => {
            assert_eq!(rt; msgs.len(), 8000);
            assert!(rt; is_merged(&msgs));
        }
        _ => return Err("a turn that reads".into()),
    }
    Ok(())
}

#[test]
fn a_closed_lock_is_busy_until_it_opens(rt: HostRuntime) -> Result<(), Fail> {
    let alloc = rt.alloc();
    let kept = Numbers {
        alloc,
        first: 0,
        log: Vec::new(alloc),
    };
    let (lock, opener) = HistLock::closed(alloc, kept)?;
    let mut other = lock.fresh();
    let mut cursor = 0;
    let early = try_one(&lock, &mut other, &mut cursor, Some(7));
    assert_eq!(rt; early, busy(1, Some(7)));
    assert_eq!(rt; lock.look(&mut other), 0);
    let mut first = lock.open(opener);
    let wrote = try_one(&lock, &mut other, &mut cursor, Some(7));
    assert_eq!(rt; wrote, done(Some(0), 1));
    assert_eq!(rt; lock.look(&mut first), 1);
    Ok(())
}

/// Makes as many entries as one pass may, and says how many of its turns were Done.
fn fill(lock: &HistLock<Numbers>, pass: &mut Pass<Numbers>, cursor: &mut usize) -> u64
    requires { pass.old.0 ≡ lock.now.0 }
    ensures { pass.new.0 ≡ pass.old.0 }
{
    let mut done: u64 = 0;
    for n in 0..OWN_LIMIT {
        if let TurnOf::Done { .. } = lock.try_turn(pass, cursor, Some(n)) {
            done = done.wrapping_add(1);
        }
    }
    done
}

/// A pass that made as many entries as one may makes no more, and reads what one that is split off it makes.
#[test]
fn own_limit_counts_each_pass(rt: HostRuntime) -> Result<(), Fail> {
    let (lock, mut pass) = lock_of_numbers(rt.alloc())?;
    let mut cursor = 0;
    assert_eq!(rt; fill(&lock, &mut pass, &mut cursor), OWN_LIMIT);
    let refused = try_one(&lock, &mut pass, &mut cursor, Some(9));
    assert_eq!(rt; refused, Answer::OwnLimit { cmd: Some(9) });
    let mut other = lock.split(&mut pass);
    let mut ahead = cursor;
    let wrote = try_one(&lock, &mut other, &mut ahead, Some(9));
    assert_eq!(rt; wrote, done(Some(OWN_LIMIT), 1));
    let read = try_one(&lock, &mut pass, &mut cursor, None);
    assert_eq!(rt; read, done(None, 1));
    assert_eq!(rt; lock.look(&mut lock.fresh()), OWN_LIMIT.saturating_add(1));
    Ok(())
}
