//! What the lines of a battle name.
ghost use Rattle.std.specs.Prelude.{◌≡◌};
ghost use Rattle.ps_view.specs.Named.{nicks_of, player_of, nick_of};

use ps_base::list::List;
use ps_base::name::Name;
use ps_base::text::Text;
use ps_event::event::Who;
use ps_event::side::Side;

/// What the lines of a battle name: its players, its members and its format; and how they show health.
#[derive(Debug)]
pub struct Names {
    /// The players, that of the first side first.
    pub players: [Name; 2],
    /// The nicknames of each side's members, in the team's order.
    pub nicks: [List<Text>; 2],
    /// The name of the format.
    pub format: Text,
    /// Whether others see health in hundredths, as under HP Percentage Mod, and not in 48ths.
    pub percent: bool,
}

// By hand, so that who drops one has one call to prove.
impl Drop for Names {
    fn drop(self) {
        let Names {
            players: _,
            nicks: _,
            format: _,
            percent: _,
        } = self;
    }
}

impl Names {
    /// The player of a side.
    pub fn player(&self, side: Side) -> &Name
        ensures { result.now ≡ player_of self.now side }
    {
        match side {
            Side::P1 => &self.players[0],
            Side::P2 => &self.players[1],
        }
    }

    /// The nicknames of the members of a side.
    pub fn nicks(&self, side: Side) -> &[Text]
        ensures { result.now ≡ nicks_of self.now side }
    {
        match side {
            Side::P1 => self.nicks[0].as_slice(),
            Side::P2 => self.nicks[1].as_slice(),
        }
    }

    /// The nickname of a member, and the empty text past the team.
    pub fn nick(&self, who: Who) -> &str
        ensures { result.now ≡ nick_of self.now who }
    {
        match self.nicks(who.side).get(usize::from(who.member)) {
            None => "",
            Some(nick) => nick.as_str(),
        }
    }
}
