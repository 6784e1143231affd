//! What a connection is to a room, and what it is shown.
ghost use Rattle.std.specs.Prelude.{◌≡◌};
ghost use Rattle.ps_view.specs.Roles.{is_player, is_member, is_ranked, has_role, reads_exactly};

use ps_event::audience::Audience;
use ps_event::side::Side;

/// What a connection is to a room. A rank is a place in the list of groups, 0 the highest.
#[derive(Clone, Copy, Debug, PartialEq, Eq)]
pub enum Role {
    /// No member.
    Outside,
    /// A member that plays no side.
    Spectator { rank: u8 },
    /// The player of a side.
    Player { side: Side, rank: u8 },
}

fn is_player(side: Side, role: Role) -> bool
    ensures { result ≡ is_player side role }
{
    match role {
        Role::Outside => false,
        Role::Spectator { .. } => false,
        Role::Player { side: own, .. } => own == side,
    }
}

fn is_member(role: Role) -> bool
    ensures { result ≡ is_member role }
{
    match role {
        Role::Outside => false,
        Role::Spectator { .. } => true,
        Role::Player { .. } => true,
    }
}

fn is_ranked(lowest: u8, role: Role) -> bool
    ensures { result ≡ is_ranked lowest role }
{
    match role {
        Role::Outside => false,
        Role::Spectator { rank } => rank <= lowest,
        Role::Player { rank, .. } => rank <= lowest,
    }
}

/// Whether an audience has a role. That of one connection has none: who that is, its number tells.
pub fn has_role(audience: Audience, role: Role) -> bool
    ensures { result ≡ has_role audience role }
{
    match audience {
        Audience::All => is_member(role),
        Audience::Split(_) => is_member(role),
        Audience::Side(side) => is_player(side, role),
        Audience::Rank(lowest) => is_ranked(lowest, role),
        Audience::One(_) => false,
    }
}

/// Whether a role reads what is split in its exact form.
pub fn reads_exactly(audience: Audience, role: Role) -> bool
    ensures { result ≡ reads_exactly audience role }
{
    match audience {
        Audience::Split(side) => is_player(side, role),
        _ => false,
    }
}
