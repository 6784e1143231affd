//! What a place was opened with, as contracts name it.
use ps_dex::dex::Dex;
use rules_config::config::Config;

/// With what a hall is opened. Contracts alone speak of it: no value of it is ever made.
pub struct Root {
    /// The configuration of the server.
    pub config: Config,
    /// The dex of the server.
    pub dex: Dex,
}

/// The place of a room. Contracts alone speak of it: no value of it is ever made.
pub struct Site {
    /// Its number: a chat room's place in the configuration, from 0, or that of a battle's room (`room_of_battle` of ps_room).
    pub number: u32,
    /// The configuration of the server.
    pub config: Config,
    /// The dex of the server.
    pub dex: Dex,
}
