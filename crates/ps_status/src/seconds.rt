//! Secondaries: what may come after a strike.
ghost use Rattle.std.specs.Prelude.{◌≡◌, ℕ};
ghost use Rattle.arrayvec.specs.ArrayVec.{ArrayVec};
ghost use Rattle.ps_event.specs.declared.event.Event.{Event};
ghost use Rattle.ps_mon.specs.Duels.{IsFit, IsDuelKnown};
ghost use Rattle.ps_hits.specs.Scenes.{scene};
ghost use Rattle.ps_status.specs.Seconds.{has_hurt, comes};

use ps_hits::scene::draw;
use ps_hits::strike::Struck;
use ps_mon::duel::Duel;

/// Whether a strike took health from the foe itself, which stands.
fn hurts(struck: Struck, duel: &Duel) -> bool
    ensures { result ≡ has_hurt struck duel.now }
{
    match struck {
        Struck::NoEffect | Struck::Missed => false,
        Struck::Hit(dealt) => dealt.own && duel.foe.hp > 0,
    }
}

/// Whether the secondary of a strike comes: the strike has hurt the foe, and a draw below 256 is below the chance. The draw is
/// made at 0 and at 256 too.
#[tactic(auto, unfolding(crate::specs::Seconds::comes))]
pub fn comes(duel: &mut Duel, struck: Struck, chance: u16) -> bool
    requires fit { IsFit duel.old }
    ensures value { (told : ArrayVec Event) → result ≡ (comes chance struck (scene duel.old told)).0 }
    ensures after { (told : ArrayVec Event) → scene duel.new told ≡ (comes chance struck (scene duel.old told)).1 }
    ensures fit { IsFit duel.new }
    ensures known { (moves : ℕ) → IsDuelKnown moves duel.old → IsDuelKnown moves duel.new }
{
    if !hurts(struck, duel) {
        return false;
    }
    draw(duel, 256) < u32::from(chance)
}
