//! The machine of blocks and challenges.
ghost use Rattle.std.specs.Prelude.{◌≡◌, IfOk, OnOk, OnErr};
ghost use Rattle.std.specs.Option.{option_copied};
ghost use Rattle.ps_pms.specs.Records.{nothing};
ghost use Rattle.ps_pms.specs.Lookups.{blocks, asked_by, asked_of, asked_to, partners};
ghost use Rattle.ps_pms.specs.Refusals.{refusal_of_asking, refusal_of_challenge, refusal_of_cancel, refusal_of_answer};
ghost use Rattle.ps_pms.specs.Refusals.{refusal_of_whisper, refusal_of_block, refusal_of_unblock, refusal};
ghost use Rattle.ps_pms.specs.Changes.{after, after_answer};

use crate::asked::Asked;
use crate::blocks::{Blocks, add_block, end_block, has_block};
use crate::challenges;
use ps_base::hall_why::HallWhy;
use ps_base::id::Id;
use ps_base::id_map::IdMap;
use ps_base::list::List;
use ps_lines::command::HallCmd;
use std::alloc::{AllocError, Global};
use std::marker::Model;

/// Who blocks whom, and the open challenges. Contracts see the record.
pub struct Pms {
    blocks: Blocks,
    asked: Vec<Asked>,
}

// By hand, so that who drops one has one call to prove.
impl Drop for Pms {
    fn drop(self) {
        let Pms {
            blocks: _,
            asked: _,
        } = self;
    }
}

impl Model for Pms {
    ghost use Rattle.std.specs.Coded.{codes};
    ghost use base.Stored.{coded_unit};
    ghost use Rattle.ps_base.specs.ById.{by_id_code};
    ghost use Rattle.ps_pms.specs.Records.{Record};

    ghost Value = { Record };

    ghost coded = { Prim.hlevel (codes, by_id_code (by_id_code coded_unit)) };

    ghost view = { λ p. record { blocks = p.blocks; asked = p.asked.items } };
}

impl Pms {
    /// Nobody blocks anybody, and no challenge is open. Takes no memory.
    pub fn new(alloc: Global) -> Pms
        ensures { result ≡ nothing }
    {
        Pms {
            blocks: IdMap::new(alloc),
            asked: Vec::new(alloc),
        }
    }

    /// Whether the owner blocks the target. Takes no memory.
    pub fn blocks(&self, owner: &str, target: &str) -> bool
        ensures { result ≡ blocks self.now owner.now target.now }
    {
        has_block(&self.blocks, owner, target)
    }

    /// The open challenges in the order in which they were made. Takes no memory.
    pub fn challenges(&self) -> &[Asked]
        ensures { result.now ≡ self.now.asked }
    {
        self.asked.as_slice()
    }

    /// The open challenge that a user made, if it made one. Takes no memory.
    pub fn asked_by(&self, by: &Id) -> Option<&Asked>
        ensures { option_copied result ≡ asked_by self.now by.now }
    {
        challenges::made_by(self.asked.as_slice(), by)
    }

    /// The open challenge that the one user made to the other, if it made one. Takes no memory.
    pub fn asked(&self, by: &Id, to: &Id) -> Option<&Asked>
        ensures { option_copied result ≡ asked_of self.now by.now to.now }
    {
        challenges::made_to(self.asked.as_slice(), by, to)
    }

    /// The open challenges that a user got, in the order in which they were made.
    pub fn asked_to(&self, alloc: Global, to: &Id) -> Result<List<Asked>, AllocError>
        ensures { IfOk result (λ l. l ≡ asked_to self.now to.now) }
    {
        Ok(List::from_vec(challenges::got(alloc, self.asked.as_slice(), to)?))
    }

    /// With whom a user has an open challenge, each once, in the order of the challenges.
    pub fn partners(&self, alloc: Global, user: &Id) -> Result<List<Id>, AllocError>
        ensures { IfOk result (λ l. l ≡ partners self.now user.now) }
    {
        Ok(List::from_vec(challenges::partners(alloc, self.asked.as_slice(), user)?))
    }

    /// Why the actor can't challenge this other user: Blocked, then AlreadyChallenged. Takes no memory.
    pub fn refusal_of_asking(&self, actor: &Id, user: &Id) -> Option<HallWhy>
        ensures { result ≡ refusal_of_asking self.now actor.now user.now }
    {
        if self.blocks(user.as_str(), actor.as_str()) {
            return Some(HallWhy::Blocked);
        }
        if self.asked_by(actor).is_some() {
            return Some(HallWhy::AlreadyChallenged);
        }
        None
    }

    fn refusal_of_challenge(&self, actor: &Id, user: &Id) -> Option<HallWhy>
        ensures { result ≡ refusal_of_challenge self.now actor.now user.now }
    {
        if user.as_str() == actor.as_str() {
            return Some(HallWhy::SelfTarget);
        }
        self.refusal_of_asking(actor, user)
    }

    /// Why the actor can't take its challenge back: NoChallenge where it made none. Takes no memory.
    pub fn refusal_of_cancel(&self, actor: &Id) -> Option<HallWhy>
        ensures { result ≡ refusal_of_cancel self.now actor.now }
    {
        if !self.asked_by(actor).is_some() {
            return Some(HallWhy::NoChallenge);
        }
        None
    }

    fn refusal_of_answer(&self, actor: &Id, user: &Id) -> Option<HallWhy>
        ensures { result ≡ refusal_of_answer self.now actor.now user.now }
    {
        if !self.asked(user, actor).is_some() {
            return Some(HallWhy::NoChallenge);
        }
        None
    }

    /// Why the actor can't whisper to this user: Blocked. Takes no memory.
    pub fn refusal_of_whisper(&self, actor: &Id, user: &Id) -> Option<HallWhy>
        ensures { result ≡ refusal_of_whisper self.now actor.now user.now }
    {
        if self.blocks(user.as_str(), actor.as_str()) {
            return Some(HallWhy::Blocked);
        }
        None
    }

    /// Why the actor can't block this user: SelfTarget, then AlreadyBlocked. Takes no memory.
    pub fn refusal_of_block(&self, actor: &Id, user: &Id) -> Option<HallWhy>
        ensures { result ≡ refusal_of_block self.now actor.now user.now }
    {
        if user.as_str() == actor.as_str() {
            return Some(HallWhy::SelfTarget);
        }
        if self.blocks(actor.as_str(), user.as_str()) {
            return Some(HallWhy::AlreadyBlocked);
        }
        None
    }

    /// Why the actor can't end its block of this user: NotBlocked where there is none. Takes no memory.
    pub fn refusal_of_unblock(&self, actor: &Id, user: &Id) -> Option<HallWhy>
        ensures { result ≡ refusal_of_unblock self.now actor.now user.now }
    {
        if !self.blocks(actor.as_str(), user.as_str()) {
            return Some(HallWhy::NotBlocked);
        }
        None
    }

    /// Why the actor's command is refused, as far as blocks and challenges can tell: the first reason of its
    /// row that holds, of SelfTarget, Blocked, AlreadyChallenged, NoChallenge, AlreadyBlocked and NotBlocked.
    /// `None` where they refuse nothing, and at a command that isn't about them. Takes no memory.
    pub fn verdict(&self, actor: &Id, cmd: &HallCmd) -> Option<HallWhy>
        ensures { result ≡ refusal self.now actor.now cmd.now }
    {
        match cmd {
            HallCmd::Challenge { user, .. } => self.refusal_of_challenge(actor, user),
            HallCmd::CancelChallenge => self.refusal_of_cancel(actor),
            HallCmd::Reject { user } => self.refusal_of_answer(actor, user),
            HallCmd::Accept { user } => self.refusal_of_answer(actor, user),
            HallCmd::Whisper { user, .. } => self.refusal_of_whisper(actor, user),
            HallCmd::Block { user } => self.refusal_of_block(actor, user),
            HallCmd::Unblock { user } => self.refusal_of_unblock(actor, user),
            _ => None,
        }
    }

    /// Changes blocks and open challenges as the command's row says, where it is applied: a Challenge comes
    /// behind the others, CancelChallenge takes away what the actor made, Reject and Accept what the user made
    /// to the actor, Quit what the actor made or got. Block and Unblock change the actor's blocks. Other
    /// commands change nothing. Where memory fails nothing changes.
    pub fn apply(&mut self, alloc: Global, actor: &Id, cmd: &HallCmd) -> Result<(), AllocError>
        ensures ok { OnOk result (self.new ≡ after self.old actor.now cmd.now) }
        ensures err { OnErr result (self.new ≡ self.old) }
    {
        match cmd {
            HallCmd::Quit => {
                challenges::end_all(&mut self.asked, actor);
                Ok(())
            }
            HallCmd::Challenge { user, format } => {
                challenges::add(alloc, &mut self.asked, actor, user, format)
            }
            HallCmd::CancelChallenge => {
                challenges::end_made(&mut self.asked, actor);
                Ok(())
            }
            HallCmd::Reject { user } => {
                challenges::end_of(&mut self.asked, user, actor);
                Ok(())
            }
            HallCmd::Accept { user } => {
                challenges::end_of(&mut self.asked, user, actor);
                Ok(())
            }
            HallCmd::Block { user } => add_block(
                alloc,
                &mut self.blocks,
                actor.as_str(),
                user.as_str(),
            ),
            HallCmd::Unblock { user } => {
                end_block(alloc, &mut self.blocks, actor.as_str(), user.as_str());
                Ok(())
            }
            _ => Ok(()),
        }
    }

    /// The challenge that the user made to the actor ends. Takes no memory.
    pub fn end(&mut self, actor: &Id, user: &Id)
        ensures { self.new ≡ after_answer self.old actor.now user.now }
    {
        challenges::end_of(&mut self.asked, user, actor);
    }
}
