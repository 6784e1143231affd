//! The words of the commands.
ghost use Rattle.std.specs.Prelude.{◌≡◌};
ghost use Rattle.ps_lines.specs.Words.{speaking_word, staff_word, rank_or_battle_word, own_word, challenge_word, user_word};
ghost use Rattle.ps_lines.specs.Words.{room_word, hall_word, word_of};

/// The commands that a text can stand for, but for Say, in the order of the two tables.
#[derive(Clone, Copy, Debug, PartialEq, Eq)]
pub enum Word {
    Join,
    Leave,
    Announce,
    Modnote,
    Warn,
    Mute,
    Unmute,
    Ban,
    Unban,
    Promote,
    Modchat,
    Choose,
    Undo,
    Forfeit,
    Name,
    Team,
    Search,
    CancelSearch,
    Challenge,
    CancelChallenge,
    Reject,
    Accept,
    Whisper,
    Block,
    Unblock,
    Rank,
}

#[tactic(auto, unfolding(crate::specs::Words::speaking_word))]
fn speaking_word(word: &str) -> Option<Word>
    ensures { result ≡ speaking_word word.now }
{
    if word == "join" {
        return Some(Word::Join);
    }
    if word == "leave" {
        return Some(Word::Leave);
    }
    if word == "announce" {
        return Some(Word::Announce);
    }
    if word == "modnote" {
        return Some(Word::Modnote);
    }
    None
}

#[tactic(auto, unfolding(crate::specs::Words::staff_word))]
fn staff_word(word: &str) -> Option<Word>
    ensures { result ≡ staff_word word.now }
{
    if word == "warn" {
        return Some(Word::Warn);
    }
    if word == "mute" {
        return Some(Word::Mute);
    }
    if word == "unmute" {
        return Some(Word::Unmute);
    }
    if word == "ban" {
        return Some(Word::Ban);
    }
    if word == "unban" {
        return Some(Word::Unban);
    }
    None
}

#[tactic(auto, unfolding(crate::specs::Words::rank_or_battle_word))]
fn rank_or_battle_word(word: &str) -> Option<Word>
    ensures { result ≡ rank_or_battle_word word.now }
{
    if word == "roompromote" {
        return Some(Word::Promote);
    }
    if word == "modchat" {
        return Some(Word::Modchat);
    }
    if word == "choose" {
        return Some(Word::Choose);
    }
    if word == "undo" {
        return Some(Word::Undo);
    }
    if word == "forfeit" {
        return Some(Word::Forfeit);
    }
    None
}

#[tactic(auto, unfolding(crate::specs::Words::own_word))]
fn own_word(word: &str) -> Option<Word>
    ensures { result ≡ own_word word.now }
{
    if word == "trn" {
        return Some(Word::Name);
    }
    if word == "utm" {
        return Some(Word::Team);
    }
    if word == "search" {
        return Some(Word::Search);
    }
    if word == "cancelsearch" {
        return Some(Word::CancelSearch);
    }
    None
}

#[tactic(auto, unfolding(crate::specs::Words::challenge_word))]
fn challenge_word(word: &str) -> Option<Word>
    ensures { result ≡ challenge_word word.now }
{
    if word == "challenge" {
        return Some(Word::Challenge);
    }
    if word == "cancelchallenge" {
        return Some(Word::CancelChallenge);
    }
    if word == "reject" {
        return Some(Word::Reject);
    }
    if word == "accept" {
        return Some(Word::Accept);
    }
    None
}

#[tactic(auto, unfolding(crate::specs::Words::user_word))]
fn user_word(word: &str) -> Option<Word>
    ensures { result ≡ user_word word.now }
{
    if word == "pm" {
        return Some(Word::Whisper);
    }
    if word == "block" {
        return Some(Word::Block);
    }
    if word == "unblock" {
        return Some(Word::Unblock);
    }
    if word == "rank" {
        return Some(Word::Rank);
    }
    None
}

fn room_word(word: &str) -> Option<Word>
    ensures { result ≡ room_word word.now }
{
    if let Some(found) = speaking_word(word) {
        return Some(found);
    }
    if let Some(found) = staff_word(word) {
        return Some(found);
    }
    rank_or_battle_word(word)
}

fn hall_word(word: &str) -> Option<Word>
    ensures { result ≡ hall_word word.now }
{
    if let Some(found) = own_word(word) {
        return Some(found);
    }
    if let Some(found) = challenge_word(word) {
        return Some(found);
    }
    user_word(word)
}

/// The command that a word names, if it is in one of the tables.
pub fn word_of(word: &str) -> Option<Word>
    ensures { result ≡ word_of word.now }
{
    if let Some(found) = room_word(word) {
        return Some(found);
    }
    hall_word(word)
}
