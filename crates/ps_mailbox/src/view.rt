//! What a mailbox holds, and what is known of it.
use std::collections::LinkedList;

/// A post, and the number of the ticket that it was posted with.
#[derive(Drop)]
pub struct Numbered<T> {
    pub number: u64,
    pub post: T,
}

/// A ticket that the drain has met: all that was posted with it. Contracts alone speak of it: no value of it is ever made.
pub struct Met<T> {
    pub number: u64,
    pub posted: LinkedList<T>,
}

/// What a ticket or a drain knows of its mailbox. Contracts alone speak of it: no value of it is ever made.
pub struct View<T> {
    /// Whether it may post.
    pub sends: bool,
    /// The number under which it posts.
    pub number: u64,
    /// The numbers above its own and below this one are its to give away.
    pub end: u64,
    /// What was posted with it, the oldest first.
    pub posted: LinkedList<T>,
    /// Whether it may take.
    pub takes: bool,
    /// What was taken, the oldest first.
    pub taken: LinkedList<Numbered<T>>,
    /// The tickets that it has met.
    pub met: LinkedList<Met<T>>,
    /// How often nothing was there to take.
    pub empties: u64,
}
