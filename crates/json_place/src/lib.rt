//! Where things are in a JSON text, for a person who has to mend it. All of this is help: no clause says what it answers.
#![tactic(auto)]

pub mod blank;
pub mod excerpt;
pub mod keys;
pub mod nearest;
pub mod place;
