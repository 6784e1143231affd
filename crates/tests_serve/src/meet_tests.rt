//! A lock whose entries are signed by a name: who may sign, who comes after, and passes that meet.
ghost use Rattle.std.specs.Prelude.{◌≡◌, [], IfOk};

use ps_histlock::{HistLock, Kept, Pass, TurnOf};
use std::alloc::{AllocError, Global};
use std::test::Fail;

/// Visits, each of which is signed by 0.
#[derive(Drop)]
struct Visits {
    alloc: Global,
    log: Vec<u64>,
}

impl Kept for Visits {
    ghost use Rattle.std.specs.Prelude.{◌≡◌, length, Some};

    type Origin = ();

    type Cmd = u64;

    type Out = ();

    type Cursor = ();

    type Msg = ();

    ghost origin = { λ _. tt };

    ghost nowhere = { tt };

    ghost signer = { λ _. Some 0 };

    ghost stands = { λ log v. v.log.items ≡ log };

    ghost answers = { λ o log cmd out. out ≡ tt };

    ghost pulls = { λ o log x msgs y. y ≡ x };

    fn signed_by(_cmd: &u64) -> Option<u64> {
        Some(0)
    }

    fn apply(&mut self, cmd: u64) -> Result<(), AllocError> {
        if self.log.len() >= 1 << 61 {
            return Err(AllocError);
        }
        self.log.push(cmd)?;
        Ok(())
    }

    fn pull(&self, _cursor: &mut ()) -> Result<Vec<()>, AllocError> {
        Ok(Vec::new(self.alloc))
    }
}

fn lock_of_visits(alloc: Global) -> Result<(HistLock<Visits>, Pass<Visits>), AllocError>
    ensures { IfOk result (λ r. (r.1.0 ≡ r.0.0) × (r.1.1.said ≡ [])) }
{
    let kept = Visits {
        alloc,
        log: Vec::new(alloc),
    };
    HistLock::new(alloc, kept)
}

/// Once a pass has taken the name, no other takes it. One that meets it has seen its entry, and so has its heir.
#[test]
fn a_name_is_taken_once(rt: HostRuntime) -> Result<(), Fail> {
    let (lock, mut first) = lock_of_visits(rt.alloc())?;
    let mut second = lock.fresh();
    let came = lock.try_turn(&mut first, &mut (), Some(7));
    assert!(rt; matches!(came, TurnOf::Done { .. }));
    let came = lock.try_turn(&mut second, &mut (), Some(8));
    assert!(rt; matches!(came, TurnOf::Taken { cmd: Some(8) }));
    lock.meet(&mut second, &mut first);
    assert_eq!(rt; lock.look(&mut second), 1);
    let mut heir = lock.heir(first);
    assert_eq!(rt; lock.look(&mut heir), 1);
    Ok(())
}
