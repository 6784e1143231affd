//! Groups: ranks, and what each of them may do.
#![tactic(auto)]

pub mod can;
pub mod defaults;
pub mod group;
pub mod groups;
pub mod rank;
pub mod read;
pub mod shown_name;

pub use ps_data::fault::DataKind;
