//! The groups where a configuration names none.
ghost use Rattle.std.specs.Prelude.{◌≡◌, IfOk};
ghost use Rattle.ps_group.specs.Defaults.{admin, owner, moderator, driver, bot, voice, user, staff_groups, default_groups, groups_with_bot};

use crate::group::{Group, Jurisdiction, Permissions};
use crate::groups::Groups;
use ps_base::id::to_id;
use ps_base::text::Text;
use std::alloc::{AllocError, Global};

/// The symbol of the group that sees staff notes, where a configuration names none.
pub const DEFAULT_STAFF: char = '%';

const UNDER: Option<Jurisdiction> = Some(Jurisdiction {
    under: true,
    oneself: false,
    all: false,
});

const ALL: Option<Jurisdiction> = Some(Jurisdiction {
    under: false,
    oneself: false,
    all: true,
});

const NO_PERMISSIONS: Permissions = Permissions {
    announce: None,
    modnote: None,
    warn: None,
    mute: None,
    ban: None,
    modchat: None,
    promote: None,
};

fn admin(alloc: Global) -> Result<Group, AllocError>
    ensures { IfOk result (λ g. g ≡ admin) }
{
    Ok(Group {
        symbol: '~',
        id: to_id(alloc, "admin")?,
        name: Text::copy_of(alloc, "Administrator")?,
        inherit: Some('#'),
        permissions: Permissions {
            warn: ALL,
            mute: ALL,
            ban: ALL,
            promote: ALL,
            ..NO_PERMISSIONS
        },
    })
}

fn owner(alloc: Global) -> Result<Group, AllocError>
    ensures { IfOk result (λ g. g ≡ owner) }
{
    Ok(Group {
        symbol: '#',
        id: to_id(alloc, "owner")?,
        name: Text::copy_of(alloc, "Room Owner")?,
        inherit: Some('@'),
        permissions: Permissions {
            promote: UNDER,
            ..NO_PERMISSIONS
        },
    })
}

fn moderator(alloc: Global) -> Result<Group, AllocError>
    ensures { IfOk result (λ g. g ≡ moderator) }
{
    Ok(Group {
        symbol: '@',
        id: to_id(alloc, "mod")?,
        name: Text::copy_of(alloc, "Moderator")?,
        inherit: Some('%'),
        permissions: Permissions {
            ban: UNDER,
            modchat: ALL,
            announce: ALL,
            ..NO_PERMISSIONS
        },
    })
}

fn driver(alloc: Global) -> Result<Group, AllocError>
    ensures { IfOk result (λ g. g ≡ driver) }
{
    Ok(Group {
        symbol: '%',
        id: to_id(alloc, "driver")?,
        name: Text::copy_of(alloc, "Driver")?,
        inherit: Some('+'),
        permissions: Permissions {
            warn: UNDER,
            mute: UNDER,
            modnote: ALL,
            ..NO_PERMISSIONS
        },
    })
}

fn bot(alloc: Global) -> Result<Group, AllocError>
    ensures { IfOk result (λ g. g ≡ bot) }
{
    Ok(Group {
        symbol: '*',
        id: to_id(alloc, "bot")?,
        name: Text::copy_of(alloc, "Bot")?,
        inherit: Some('+'),
        permissions: Permissions {
            announce: ALL,
            ..NO_PERMISSIONS
        },
    })
}

fn voice(alloc: Global) -> Result<Group, AllocError>
    ensures { IfOk result (λ g. g ≡ voice) }
{
    Ok(Group {
        symbol: '+',
        id: to_id(alloc, "voice")?,
        name: Text::copy_of(alloc, "Voice")?,
        inherit: Some(' '),
        permissions: NO_PERMISSIONS,
    })
}

fn user(alloc: Global) -> Result<Group, AllocError>
    ensures { IfOk result (λ g. g ≡ user) }
{
    Ok(Group {
        symbol: ' ',
        id: to_id(alloc, "user")?,
        name: Text::copy_of(alloc, "User")?,
        inherit: None,
        permissions: NO_PERMISSIONS,
    })
}

/// The groups down to the driver.
fn staff(alloc: Global) -> Result<Vec<Group>, AllocError>
    ensures { IfOk result (λ v. v.items ≡ staff_groups) }
{
    let mut list = Vec::new(alloc);
    list.push(admin(alloc)?)?;
    list.push(owner(alloc)?)?;
    list.push(moderator(alloc)?)?;
    list.push(driver(alloc)?)?;
    Ok(list)
}

impl Groups {
    /// The groups where a configuration of version 1 names none: administrator `~`, room owner `#`, moderator `@`,
    /// driver `%`, voice `+`, and the user, whose symbol is the space.
    #[tactic(auto, unfolding(crate::specs::Defaults::default_groups))]
    pub fn standard(alloc: Global) -> Result<Groups, AllocError>
        ensures { IfOk result (λ g. g ≡ default_groups) }
    {
        let mut list = staff(alloc)?;
        list.push(voice(alloc)?)?;
        list.push(user(alloc)?)?;
        Ok(Groups::from_list(list))
    }

    /// The groups where a configuration of version 2 names none: the same with the bot `*` between `%` and `+`.
    #[tactic(auto, unfolding(crate::specs::Defaults::groups_with_bot))]
    pub fn with_bot(alloc: Global) -> Result<Groups, AllocError>
        ensures { IfOk result (λ g. g ≡ groups_with_bot) }
    {
        let mut list = staff(alloc)?;
        list.push(bot(alloc)?)?;
        list.push(voice(alloc)?)?;
        list.push(user(alloc)?)?;
        Ok(Groups::from_list(list))
    }
}
