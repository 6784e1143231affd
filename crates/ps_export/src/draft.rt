//! A set in the making.
ghost use Rattle.std.specs.Prelude.{◌≡◌, IfOk, OnOk, map};
ghost use Rattle.std.specs.List.{join_with_byte};
ghost use Rattle.ps_export.specs.Sheets.{drafted, say, with_move, with_detail, spoken, fields_of, set_text};

use crate::detail::{Detail, Key};
use crate::join::fields_joined;
use crate::part::is_nil;
use ps_base::text::Text;
use std::alloc::{AllocError, Global};

/// What the lines of a set say so far: texts of the fields of its canonical packed text.
pub struct Draft {
    pub nick: Text,
    pub species: Text,
    pub item: Text,
    pub gender: Text,
    /// The ids, between commas.
    pub moves: Text,
    pub ability: Option<Text>,
    pub nature: Option<Text>,
    pub evs: Option<Text>,
    pub ivs: Option<Text>,
    pub shiny: Option<Text>,
    pub level: Option<Text>,
    pub misc: Option<Text>,
}

// By hand, so that whoever drops a draft has one step of its proof for that.
impl Drop for Draft {
    fn drop(self) {
        let Draft {
            nick: _,
            species: _,
            item: _,
            gender: _,
            moves: _,
            ability: _,
            nature: _,
            evs: _,
            ivs: _,
            shiny: _,
            level: _,
            misc: _,
        } = self;
    }
}

/// The set of a first line.
pub fn drafted(alloc: Global, nick: Text, species: Text, gender: Text, item: Text) -> Draft
    ensures { result ≡ drafted nick species gender item }
{
    Draft {
        nick,
        species,
        item,
        gender,
        moves: Text::new(alloc),
        ability: None,
        nature: None,
        evs: None,
        ivs: None,
        shiny: None,
        level: None,
        misc: None,
    }
}

#[tactic(auto, unfolding(crate::specs::Sheets::say))]
fn say(draft: Draft, key: Key, text: Text) -> Option<Draft>
    ensures { result ≡ say draft key text }
{
    let mut draft = draft;
    match key {
        Key::Ability => {
            if draft.ability.is_some() {
                return None;
            }
            draft.ability = Some(text);
            Some(draft)
        }
        Key::Nature => {
            if draft.nature.is_some() {
                return None;
            }
            draft.nature = Some(text);
            Some(draft)
        }
        Key::Evs => {
            if draft.evs.is_some() {
                return None;
            }
            draft.evs = Some(text);
            Some(draft)
        }
        Key::Ivs => {
            if draft.ivs.is_some() {
                return None;
            }
            draft.ivs = Some(text);
            Some(draft)
        }
        Key::Shiny => {
            if draft.shiny.is_some() {
                return None;
            }
            draft.shiny = Some(text);
            Some(draft)
        }
        Key::Level => {
            if draft.level.is_some() {
                return None;
            }
            draft.level = Some(text);
            Some(draft)
        }
        Key::Misc => {
            if draft.misc.is_some() {
                return None;
            }
            draft.misc = Some(text);
            Some(draft)
        }
    }
}

#[tactic(auto, unfolding(crate::specs::Sheets::with_move))]
fn put_move(moves: &mut Text, id: Text) -> Result<(), AllocError>
    ensures { OnOk result (moves.new ≡ with_move moves.old id) }
{
    if is_nil(moves.as_str()) {
        *moves = id;
        return Ok(());
    }
    moves.push_str(",")?;
    moves.push_str(id.as_str())?;
    Ok(())
}

/// The set with a line's detail, if it may have that.
pub fn with_detail(alloc: Global, draft: Draft, detail: Detail) -> Result<Option<Draft>, AllocError>
    ensures { IfOk result (λ d. d ≡ with_detail draft detail) }
{
    match detail {
        Detail::Said(key, text) => Ok(say(draft, key, text)),
        Detail::Move(id) => {
            let mut draft = draft;
            put_move(&mut draft.moves, id)?;
            Ok(Some(draft))
        }
        Detail::Ignored => Ok(Some(draft)),
    }
}

fn spoken(text: &Option<Text>) -> &str
    ensures { result.now ≡ spoken text.now }
{
    match text {
        None => "",
        Some(text) => text.as_str(),
    }
}

fn fields_of(draft: &Draft) -> [&str; 12]
    ensures { map (λ x. x.now) result ≡ fields_of draft.now }
{
    [
        draft.nick.as_str(),
        draft.species.as_str(),
        draft.item.as_str(),
        spoken(&draft.ability),
        draft.moves.as_str(),
        spoken(&draft.nature),
        spoken(&draft.evs),
        draft.gender.as_str(),
        spoken(&draft.ivs),
        spoken(&draft.shiny),
        spoken(&draft.level),
        spoken(&draft.misc),
    ]
}

/// The canonical packed text of the set.
#[tactic(auto, unfolding(crate::specs::Sheets::set_text))]
pub fn set_text(alloc: Global, draft: &Draft) -> Result<Text, AllocError>
    ensures { IfOk result (λ t. t ≡ set_text draft.now) }
{
    let fields = fields_of(draft);
    fields_joined(alloc, &fields)
}
