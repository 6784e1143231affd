//! The rule of a mailbox's queue, and what each kind of step tells. There are no other steps.
use crate::view::{Numbered, View};
use crossbeam_queue::protocol::{Join, Lesson, Outcome, Protocol, Split};

/// The rule between any two steps: what was taken and is queued of each ticket, in order, is what was posted with it.
pub struct InOrder;

impl<T> Protocol<Numbered<T>, View<T>> for InOrder {
    ghost use Rattle.ps_mailbox.specs.Deliveries.{Delivers};
    ghost use Rattle.ps_mailbox.specs.Views.{founder};

    ghost holds = { Delivers };

    ghost first = { founder };
}

/// A drain is split from the first ticket.
pub struct Part;

impl<T> Split<View<T>> for Part {
    ghost use Rattle.ps_mailbox.specs.Views.{first_poster, first_taker};

    ghost left = { λ v. first_poster };

    ghost right = { λ v. first_taker };
}

/// A ticket is split from another, and has a part of its numbers.
pub struct Share;

impl<T> Split<View<T>> for Share {
    ghost use Rattle.ps_mailbox.specs.Views.{kept, given};

    ghost left = { kept };

    ghost right = { given };
}

/// A push.
pub struct Push;

impl<T> Outcome<Numbered<T>, View<T>> for Push {
    ghost use Rattle.std.specs.Prelude.{◌≡◌};
    ghost use Rattle.ps_mailbox.specs.Views.{posting};

    ghost then = { λ v x w. w ≡ posting v x.post };
}

/// A pop. Of an empty queue it tells that all was taken that was posted with the tickets that the drain has met.
pub struct Pop;

impl<T> Outcome<Numbered<T>, View<T>> for Pop {
    ghost use Rattle.std.specs.Prelude.{◌≡◌};
    ghost use Rattle.ps_mailbox.specs.Views.{taking};

    ghost then = { λ v x w. w ≡ taking v x };
}

impl<T> Lesson<Numbered<T>, View<T>> for Pop {
    ghost use Rattle.std.specs.Prelude.{◌≡◌, []};
    ghost use Rattle.ps_mailbox.specs.Posts.{AreAllTaken};

    ghost fact = { λ v items. items ≡ [] → AreAllTaken v.taken v.met };
}

/// A drain counts that the queue was empty. What is split from it is nothing.
pub struct CountEmpty;

impl<T> Split<View<T>> for CountEmpty {
    ghost use Rattle.ps_mailbox.specs.Views.{counting, nobody};

    ghost left = { counting };

    ghost right = { λ v. nobody };
}

/// The drain meets a ticket, of which nothing is left.
pub struct Meet;

impl<T> Join<View<T>> for Meet {
    ghost use Rattle.ps_mailbox.specs.Views.{meeting, nobody};

    ghost both = { meeting };

    ghost spent = { nobody };
}

/// A look at the queue, which tells what was taken of the tickets that the drain has met.
pub struct Compare;

impl<T> Lesson<Numbered<T>, View<T>> for Compare {
    ghost use Rattle.ps_mailbox.specs.Posts.{AreTakenInOrder};

    ghost fact = { λ v items. AreTakenInOrder v.taken v.met };
}
