//! Sets.
use ps_base::id::Id;
use ps_base::list::List;
use ps_base::text::Text;

/// One Pokemon of a team, as TEAMS.md of the simulator lists its parts.
#[derive(Debug)]
pub struct Set {
    /// The nickname; the species where the text names none. Up to 32 characters, 18 where it differs
    /// from the species.
    pub nick: Text,
    /// The species; the nickname where the text names none. Up to 32 characters.
    pub species: Text,
    /// Up to 32 characters, without effect.
    pub item: Text,
    /// Up to 32 characters, without effect.
    pub ability: Text,
    /// The ids of up to four moves, each of 1 to 32 characters.
    pub moves: List<Id>,
    /// Up to 32 characters, without effect.
    pub nature: Text,
    /// HP, Attack, Defense, Special Attack, Special Defense and Speed, each 0 to 255.
    pub evs: [u8; 6],
    /// `M`, `F` or `N`, without effect.
    pub gender: Option<char>,
    /// In the order of the EVs, each 0 to 31.
    pub ivs: [u8; 6],
    /// Without effect.
    pub shiny: bool,
    /// 1 to 100.
    pub level: u8,
    /// The happiness and what follows it: up to 64 characters, without effect.
    pub misc: Text,
}

// By hand, so that who drops one has one call to prove.
impl Drop for Set {
    fn drop(self) {
        let Set {
            nick: _,
            species: _,
            item: _,
            ability: _,
            moves: _,
            nature: _,
            evs: _,
            gender: _,
            ivs: _,
            shiny: _,
            level: _,
            misc: _,
        } = self;
    }
}
