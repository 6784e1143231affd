//! The registered names of a configuration.
ghost use Rattle.std.specs.Prelude.{◌≡◌, OnOk, IfOk};
ghost use Rattle.ps_hall.specs.Accounts.{account_of, accounts_from, accounts_of};

use ps_base::id_map::IdMap;
use ps_users::account::Account;
use rules_config::settings::Registered;
use std::alloc::{AllocError, Global};

fn account_of(alloc: Global, user: &Registered) -> Result<Account, AllocError>
    ensures { IfOk result (λ a. a ≡ account_of user.now) }
{
    Ok(Account {
        secret: user.secret.copy(alloc)?,
        rank: user.rank,
    })
}

fn add_accounts(
    alloc: Global,
    accounts: &mut IdMap<Account>,
    users: &[Registered],
) -> Result<(), AllocError>
    ensures { OnOk result (accounts.new ≡ accounts_from accounts.old users.now) }
{
    for user in users {
        let account = account_of(alloc, user)?;
        accounts.insert(alloc, user.id.as_str(), account)?;
    }
    Ok(())
}

/// The registered names, by their ids.
pub(crate) fn accounts_of(alloc: Global, users: &[Registered]) -> Result<IdMap<Account>, AllocError>
    ensures { IfOk result (λ m. m ≡ accounts_of users.now) }
{
    let mut accounts = IdMap::new(alloc);
    add_accounts(alloc, &mut accounts, users)?;
    Ok(accounts)
}
