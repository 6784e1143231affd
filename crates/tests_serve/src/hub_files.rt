//! The files that a hub is made from.
use ps_dex::dex::Dex;
use rules_config::config::Config;
use std::alloc::Global;
use std::sync::Arc;

/// A configuration and the dex that it was read over.
#[derive(Drop)]
pub(crate) struct Files {
    /// The configuration.
    pub(crate) config: Arc<Config>,
    /// The dex.
    pub(crate) dex: Arc<Dex>,
}

fn shared_config(alloc: Global, text: &str, dex: &Dex) -> Option<Arc<Config>> {
    let config = Config::read(alloc, text.as_bytes(), dex).ok()?;
    Arc::new(alloc, config).ok()
}

/// The files with these texts; None if one of them has a fault, or if memory runs out.
pub(crate) fn read_files(alloc: Global, config: &str, dex: &str) -> Option<Files> {
    let dex = Dex::read(alloc, dex.as_bytes()).ok()?;
    let config = shared_config(alloc, config, &dex)?;
    let dex = Arc::new(alloc, dex).ok()?;
    Some(Files { config, dex })
}
