//! The configuration.
ghost use Rattle.std.specs.Prelude.{◌≡◌, ◌<◌, ◌≤◌, All, length, IfOk};
ghost use Rattle.ps_data.specs.FileFaults.{GivesFile};
ghost use Rattle.rules_config.specs.Reading.{config_of};
ghost use Rattle.rules_config.specs.Standard.{standard};
ghost use Rattle.rules_config.specs.Fresh.{with_fresh};

use crate::fault::ConfigFault;
use crate::fresh::{Fresh, with_fresh};
use crate::read::read_settings;
use crate::room::lobby_alone;
use crate::settings::{ChatRoom, Registered, Settings};
use ps_base::list::List;
use ps_base::text::Text;
use ps_data::file_fault::reported;
use ps_data::table::Table;
use ps_dex::dex::Dex;
use ps_group::groups::Groups;
use ps_rules::formats::Formats;
use ps_rules::version::Version;
use std::alloc::{AllocError, Global};
use std::marker::Model;

/// What a server is set up with: groups, chat rooms, registered names, formats and seeds, as some
/// configuration file says them over some dex, but for a nonce and a seed that are fresh (`with_fresh`). Contracts see what the
/// file says, and whether it says these two.
#[derive(Debug)]
pub struct Config {
    settings: Settings,
}

impl Model for Config {
    ghost use Rattle.rules_config.specs.declared.settings.Settings.{Settings as Said};
    ghost use Rattle.rules_config.specs.Reading.{HasFile};

    ghost Value = { Said };

    ghost view = { λ c. c.settings };

    ghost invariant = { λ c. HasFile c.settings };
}

// By hand, so that whoever drops a configuration has one step of its proof for that.
impl Drop for Config {
    fn drop(self) {
        let Config { settings: _ } = self;
    }
}

fn standard_settings(alloc: Global) -> Result<Settings, AllocError>
    ensures { IfOk result (λ s. s ≡ standard) }
{
    Ok(Settings {
        groups: Groups::with_bot(alloc)?,
        staff: 3,
        rooms: lobby_alone(alloc)?,
        users: Table::new(alloc),
        formats: Formats::none(alloc, Version::Second),
        nonce: Text::copy_of(alloc, "0")?,
        seed: 0,
        seeds: List::from_vec(Vec::new(alloc)),
        gives_nonce: false,
        gives_seed: false,
    })
}

impl Config {
    ghost use Rattle.rules_config.specs.Reading.{HasFile};

    /// The configuration that the bytes of a file stand for: a JSON object with the keys `version`, `groups`,
    /// `staff`, `rooms`, `users`, `rulesets`, `formats`, `nonce`, `seed` and `seeds`, each of which
    /// may be missing. Bans are looked up in the dex. `Fault` comes exactly where the file has no
    /// configuration, at its first fault.
    pub fn read(alloc: Global, bytes: &[u8], dex: &Dex) -> Result<Config, ConfigFault>
        ensures { GivesFile result (config_of dex.now bytes.now) }
    {
        match read_settings(alloc, bytes, dex) {
            Ok(settings) => Ok(Config { settings }),
            Err(refusal) => Err(reported(alloc, refusal)),
        }
    }

    /// The configuration where no file is named: the default of each key in version 2, as a file says that has the key
    /// `version` alone.
    pub fn standard(alloc: Global) -> Result<Config, AllocError>
        ensures { IfOk result (λ c. c ≡ standard) }
    {
        let settings = standard_settings(alloc)?;
        Ok(Config { settings })
    }

    /// The same configuration, with the fresh nonce and seed in the place of those that its file doesn't say: where it has no key
    /// `nonce`, or no key `seed`, or where no file was named.
    pub fn with_fresh(self, alloc: Global, fresh: &Fresh) -> Result<Config, AllocError>
        ensures { IfOk result (λ c. c ≡ with_fresh fresh.now self) }
    {
        let Config { settings } = self;
        let settings = with_fresh(alloc, settings, fresh)?;
        Ok(Config { settings })
    }

    /// The groups.
    pub fn groups(&self) -> &Groups
        ensures { result.now ≡ self.now.groups }
    {
        &self.settings.groups
    }

    /// The lowest rank that counts as staff.
    pub fn staff(&self) -> u8
        ensures value { result ≡ self.now.staff }
        ensures within { result < length self.now.groups }
    {
        self.settings.staff
    }

    /// The chat rooms, in the order of the file.
    pub fn rooms(&self) -> &[ChatRoom]
        ensures value { result.now ≡ self.now.rooms }
        ensures some { 1 ≤ length result.now }
        ensures few { length result.now ≤ 16 }
    {
        self.settings.rooms.as_slice()
    }

    /// The registered names, in the order of the file.
    pub fn users(&self) -> &[Registered]
        ensures value { result.now ≡ self.now.users }
        ensures ranks { All (λ u. u.rank < length self.now.groups) result.now }
    {
        self.settings.users.as_slice()
    }

    /// The rulesets and the formats.
    pub fn formats(&self) -> &Formats
        ensures { result.now ≡ self.now.formats }
    {
        &self.settings.formats
    }

    /// The text that the texts begin with which log-ins sign: 1 to 32 letters and digits.
    pub fn nonce(&self) -> &str
        ensures { result.now ≡ self.now.nonce }
    {
        self.settings.nonce.as_str()
    }

    /// What the seeds of battles are drawn from.
    pub fn seed(&self) -> u64
        ensures { result ≡ self.now.seed }
    {
        self.settings.seed
    }

    /// The seeds of the first battles.
    pub fn seeds(&self) -> &[u64]
        ensures { result.now ≡ self.now.seeds }
    {
        self.settings.seeds.as_slice()
    }
}
