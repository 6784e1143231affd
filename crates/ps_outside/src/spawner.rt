//! Leave to start jobs in threads.
ghost use Rattle.std.specs.Prelude.{◌≡◌, ℕ, IfErr, IsErr};
ghost use Rattle.std.specs.Result.{is_err};
ghost use Rattle.ps_outside.specs.Counts.{CountsErr, is_listed, one_more};

use crate::Failed;
use std::marker::Model;
use std::thread;
use std::thread::Threads;

/// Who gives leave to start jobs, and counts those that were not started.
pub trait Spawner {
    /// How often it has failed. The count stands still at the last value of a `u64`.
    ghost faults: { Self → ℕ };

    /// Leave to start one job in a thread. `Failed` comes only where the count rose.
    fn permit(&mut self) -> Result<(), Failed>
        ensures { CountsErr (faults self.old) (faults self.new) result };

    /// Says that the host gave no thread. After `Failed`, for which the count rose, the job goes
    /// back to who asked; else it is run where it is.
    fn refused(&mut self) -> Result<(), Failed>
        ensures { CountsErr (faults self.old) (faults self.new) result };
}

/// Starts a job in a thread that nobody waits for, where the spawner gives leave. The job comes
/// back only where the spawner's count rose, and is then to be called by the caller. Where the host
/// gives no thread, and the spawner takes that for no fault, the job is called here.
pub fn start<R: Threads, P: Spawner, J: FnOnce() + Send + Drop + 'static>(
    rt: &R,
    spawner: &mut P,
    job: J,
) -> Result<(), J>
    requires { J.pre job }
    ensures back { IfErr result (λ back. back ≡ job) }
    ensures cause { CountsErr (P.faults spawner.old) (P.faults spawner.new) result }
{
    if spawner.permit().is_err() {
        return Err(job);
    }
    match thread::spawn(rt, job) {
        Ok(_handle) => Ok(()),
        Err(error) => {
            let job = error.value;
            match spawner.refused() {
                Ok(()) => {
                    job();
                    Ok(())
                }
                Err(Failed) => Err(job),
            }
        }
    }
}

/// A spawner whose leaves fail at the numbers of a list, counted from 1.
#[derive(Drop)]
pub struct MemSpawner {
    calls: u64,
    faults: u64,
    failing: Vec<u64>,
}

impl Model for MemSpawner {
    ghost use Rattle.ps_outside.specs.Spawners.{Leaves};

    ghost Value = { Leaves };

    ghost view = { λ s. record { calls = s.calls; faults = s.faults; failing = s.failing.items } };
}

impl MemSpawner {
    /// A spawner that was asked for nothing yet. Takes no memory.
    pub fn new(failing: Vec<u64>) -> MemSpawner
        ensures { result ≡ record { calls = 0; faults = 0; failing = failing.items } }
    {
        MemSpawner {
            calls: 0,
            faults: 0,
            failing,
        }
    }
}

impl Spawner for MemSpawner {
    ghost faults = { λ s. s.faults };

    fn permit(&mut self) -> Result<(), Failed>
        ensures cause { CountsErr self.old.faults self.new.faults result }
        ensures listed { is_err result ≡ is_listed self.old.calls self.old.failing }
        ensures calls { self.new.calls ≡ one_more self.old.calls }
    {
        self.calls = self.calls.saturating_add(1);
        if self.failing.contains(&self.calls) {
            self.faults = self.faults.saturating_add(1);
            return Err(Failed);
        }
        Ok(())
    }

    fn refused(&mut self) -> Result<(), Failed>
        ensures cause { CountsErr self.old.faults self.new.faults result }
        ensures failed { IsErr result }
    {
        self.faults = self.faults.saturating_add(1);
        Err(Failed)
    }
}

/// A spawner that never fails: a job for which the host gives no thread is run where it is.
#[derive(Drop)]
pub struct SureSpawner;

impl Spawner for SureSpawner {
    ghost faults = { λ _. 0 };

    fn permit(&mut self) -> Result<(), Failed> {
        Ok(())
    }

    fn refused(&mut self) -> Result<(), Failed> {
        Ok(())
    }
}

/// A spawner that gives leave to every job, and counts each thread that the host didn't give.
#[derive(Drop)]
pub struct ThreadSpawner {
    faults: u64,
}

impl Model for ThreadSpawner {
    ghost use Rattle.std.specs.Prelude.{ℕ};

    ghost Value = { ℕ };

    ghost view = { λ s. s.faults };
}

impl ThreadSpawner {
    /// A spawner without faults.
    pub fn new() -> ThreadSpawner
        ensures { result ≡ 0 }
    {
        ThreadSpawner { faults: 0 }
    }
}

impl Spawner for ThreadSpawner {
    ghost faults = { λ s. s };

    fn permit(&mut self) -> Result<(), Failed> {
        Ok(())
    }

    fn refused(&mut self) -> Result<(), Failed>
        ensures cause { CountsErr self.old self.new result }
        ensures failed { IsErr result }
    {
        self.faults = self.faults.saturating_add(1);
        Err(Failed)
    }
}
