//! Texts, lists, ids, names, numbers and maps by id: what every other crate speaks of.
#![tactic(auto)]

pub mod badge;
pub mod characters;
pub mod cut;
pub mod decimal;
pub mod hall_why;
pub mod id;
pub mod id_map;
pub mod limit;
pub mod list;
pub mod msg;
pub mod name;
pub mod number;
pub mod pack_kind;
pub mod team_rule;
pub mod text;
pub mod why;
