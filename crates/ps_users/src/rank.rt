//! The ranks of users: indices in the list of groups, 0 the highest.
ghost use Rattle.std.specs.Prelude.{◌≡◌};
ghost use Rattle.std.specs.Option.{option_copied};
ghost use Rattle.ps_users.specs.Ranks.{capped, registered_rank};

use crate::account::Account;

/// A rank past the lowest counts as the lowest.
pub fn capped(lowest: u8, rank: u8) -> u8
    ensures { result ≡ capped lowest rank }
{
    if lowest < rank { lowest } else { rank }
}

/// The rank of a registered name, and the lowest of any other.
pub fn registered_rank(lowest: u8, account: Option<&Account>) -> u8
    ensures { result ≡ registered_rank lowest (option_copied account.entry) }
{
    match account {
        None => lowest,
        Some(account) => account.rank,
    }
}
