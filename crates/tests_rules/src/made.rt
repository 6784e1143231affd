//! What the tests of several modules are made from. No function here promises anything: what a caller knows of a value
//! makes the proof of that caller longer, and no test needs it.
use ps_base::id::{Id, to_id};
use ps_dex::dex::Dex;
use rules_config::config::Config;
use std::alloc::{AllocError, Global};
use std::process::Abort;

pub(crate) fn id(rt: &impl Abort, alloc: Global, text: &str) -> Id {
    to_id(alloc, text).expect(rt, "memory")
}

pub(crate) fn dex(rt: &impl Abort, alloc: Global, text: &str) -> Dex {
    Dex::read(alloc, text.as_bytes()).expect(rt, "a dex")
}

pub(crate) fn config(rt: &impl Abort, alloc: Global, dex: &Dex, text: &str) -> Config {
    Config::read(alloc, text.as_bytes(), dex).expect(rt, "a configuration")
}

/// A dex and a configuration, as one value: two that live beside each other are slow to prove.
#[derive(Drop)]
pub(crate) struct Setup {
    pub(crate) dex: Dex,
    pub(crate) config: Config,
}

pub(crate) fn set_up(rt: &impl Abort, alloc: Global, dex_text: &str, config_text: &str) -> Setup {
    let dex = dex(rt, alloc, dex_text);
    let config = config(rt, alloc, &dex, config_text);
    Setup { dex, config }
}

/// Three texts behind each other.
pub(crate) fn joined(rt: &impl Abort, alloc: Global, one: &str, two: &str, three: &str) -> String {
    format!(in alloc; "{one}{two}{three}").expect(rt, "memory")
}

/// Asserts that there was memory, and that what was told then is what is wanted.
pub(crate) fn assert_told(rt: &impl Abort, told: Result<String, AllocError>, wanted: &str) {
    let told = told.expect(rt, "memory");
    assert_eq!(rt; told.as_str(), wanted);
}
