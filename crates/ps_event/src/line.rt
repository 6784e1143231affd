//! Lines that are text already.
use crate::audience::Audience;

/// One line of an entry. `T` is the type of its text.
#[derive(Debug, Drop)]
pub struct ChatLine<T> {
    /// Who sees it.
    pub audience: Audience,
    /// Whether it stands in the room's backlog from now on.
    pub logged: bool,
    /// The text, without a newline.
    pub text: T,
}
