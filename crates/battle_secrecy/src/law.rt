//! What is promised of two battles that differ in hidden places alone.
ghost use Rattle.battle_secrecy.specs.Laws.{TurnKeepsAlike};

/// A turn is the same in two battles that are equal but for hidden places, where neither its choices nor what is
/// told of it show such a place: the battles after it are again equal but for these, and the same is told. No
/// event names a hidden member. The promise is the statement; the call does nothing.
pub fn law_turn()
    ensures { TurnKeepsAlike }
{}
