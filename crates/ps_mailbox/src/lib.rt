//! A mailbox: many senders post to one receiver, who takes what each of them posted in that sender's order.
//!
//! A post comes out under the number of the ticket that it was posted with. What is posted is the caller's affair; that of a
//! room is a `Post`, a command that another than its sender may apply.
#![tactic(auto)]

mod mailbox;
mod post;
mod rule;
mod view;

pub use mailbox::{Drain, MOST_POSTS, Mailbox, NewMailbox, Ticket};
pub use post::Post;
pub use view::{Met, Numbered, View};
