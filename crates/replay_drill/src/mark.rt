//! Where in a line a text ends, as far as beginnings of messages go.
ghost use Rattle.std.specs.Prelude.{◌≡◌};
ghost use Rattle.replay_drill.specs.Messages.{next_mark, begins};

/// How far the line that a text ends in has come.
#[derive(Clone, Copy, Debug, PartialEq, Eq)]
pub enum Mark {
    /// Nothing of the line is there.
    Start,
    /// Digits alone.
    Number,
    /// Digits and then `<`.
    Sign,
    /// Anything else: no message begins in the line any more.
    Inside,
}

impl Mark {
    /// After one byte more.
    #[tactic(auto, unfolding(crate::specs::Messages::next_mark))]
    pub(crate) fn next(self, b: u8) -> Mark
        ensures { result ≡ next_mark self b }
    {
        if b == b'\n' {
            return Mark::Start;
        }
        match self {
            Mark::Start => {
                if b.is_ascii_digit() {
                    return Mark::Number;
                }
                Mark::Inside
            }
            Mark::Number => {
                if b.is_ascii_digit() {
                    return Mark::Number;
                }
                if b == b'<' {
                    return Mark::Sign;
                }
                Mark::Inside
            }
            _ => Mark::Inside,
        }
    }

    /// How many messages the byte begins: one, where it is the space of `N< `.
    pub(crate) fn begins(self, b: u8) -> u64
        ensures { result ≡ begins self b }
    {
        match self {
            Mark::Sign => {
                if b == b' ' {
                    return 1;
                }
                0
            }
            _ => 0,
        }
    }
}
