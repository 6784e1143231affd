//! Lookups by a text whose id is sought. The id isn't made, so they take no memory.
ghost use Rattle.std.specs.Prelude.{◌≡◌, ◌≤◌, ◌<◌, ◌||◌, length, position, bytes_eq, IfSome};
ghost use Rattle.ps_base.specs.Ids.{id_of};
ghost use Rattle.ps_dex.specs.Moves.{move_index, has_move};
ghost use Rattle.ps_dex.specs.Species.{has_species};
ghost use Rattle.ps_dex.specs.Aliases.{alias_index};

use crate::item::{AliasItem, MoveItem, SpeciesItem};
use arrayvec::ArrayString;
use ps_data::ids::HasId;

/// Whether an id is that of a text.
pub fn is_id_of(id: &str, text: &str) -> bool
    ensures { result ≡ bytes_eq id.now (id_of text.now) }
{
    let mut left = id.as_bytes();
    for b in text.as_bytes() {
        let b = b.to_ascii_lowercase();
        if b.is_ascii_lowercase() || b.is_ascii_digit() {
            match left {
                [] => return false,
                [first, rest @ ..] => {
                    if *first != b {
                        return false;
                    }
                    left = rest;
                }
            }
        }
    }
    left.is_empty()
}

/// The id of a text, if it has at most 32 bytes.
pub(crate) fn short_id(text: &str) -> Option<ArrayString<32>>
    ensures { IfSome result (λ id. id.bytes ≡ id_of text.now) }
{
    let mut id = ArrayString::new();
    for b in text.as_bytes() {
        let b = b.to_ascii_lowercase();
        if b.is_ascii_lowercase() || b.is_ascii_digit() {
            match id.try_push(b as char) {
                Ok(()) => {}
                Err(_) => return None,
            }
        }
    }
    Some(id)
}

/// The index of the first item whose id is that of a text.
fn index_of<T: HasId>(items: &[T], text: &str) -> Option<usize>
    ensures index { result ≡ position (λ t. bytes_eq (T.id_of t) (id_of text.now)) items.now }
    ensures within { IfSome result (λ i. i < length items.now) }
{
    items.iter().position(|item| is_id_of(item.id(), text))
}

#[tactic(auto, unfolding(crate::specs::Species::has_species, ps_data::specs::OwnIds::has_id))]
fn has_species(species: &[SpeciesItem], text: &str) -> bool
    ensures { result ≡ has_species (id_of text.now) species.now }
{
    index_of(species, text).is_some()
}

#[tactic(auto, unfolding(crate::specs::Moves::has_move, ps_data::specs::OwnIds::has_id))]
fn has_move(moves: &[MoveItem], text: &str) -> bool
    ensures { result ≡ has_move (id_of text.now) moves.now }
{
    index_of(moves, text).is_some()
}

/// Whether a species or a move has the id of a text, so that no alias with it counts.
pub(crate) fn is_taken(species: &[SpeciesItem], moves: &[MoveItem], text: &str) -> bool
    ensures { result ≡ has_species (id_of text.now) species.now || has_move (id_of text.now) moves.now }
{
    has_species(species, text) || has_move(moves, text)
}

/// The number of the move with the id of a text.
#[tactic(auto, unfolding(crate::specs::Moves::move_index))]
pub(crate) fn move_number(moves: &[MoveItem], text: &str) -> Option<u16>
    requires { length moves.now ≤ 1024 }
    ensures index { result ≡ move_index (id_of text.now) moves.now }
    ensures within { IfSome result (λ number. number < length moves.now) }
{
    match index_of(moves, text) {
        None => None,
        Some(index) => Some(index as u16),
    }
}

/// The index of the alias with the id of a text.
#[tactic(auto, unfolding(crate::specs::Aliases::alias_index))]
pub(crate) fn alias_index(aliases: &[AliasItem], text: &str) -> Option<usize>
    ensures index { result ≡ alias_index (id_of text.now) aliases.now }
    ensures within { IfSome result (λ i. i < length aliases.now) }
{
    index_of(aliases, text)
}
