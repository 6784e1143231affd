//! The host's source of random numbers.

use program_commands::status::Status;
use ps_base::text::Text;
use rules_config::fresh::Fresh;
use std::alloc::Global;
use std::io::Read;
use std::{fs, io, rt};

const SOURCE: &str = "/dev/urandom";

fn read_fresh<R: rt::Files>(host: &R) -> io::Result<Fresh> {
    let mut source = fs::open(host, SOURCE)?;
    let mut nonce = [0; 16];
    source.read_exact(&mut nonce)?;
    let mut seed = [0; 8];
    source.read_exact(&mut seed)?;
    Ok(Fresh {
        nonce,
        seed: u64::from_be_bytes(seed),
    })
}

/// A nonce and a seed that nobody foresees: 24 bytes of `/dev/urandom`. `FileFault` with that name where it can't be read.
pub(crate) fn fresh<R: rt::Files>(host: &R, alloc: Global) -> Result<Fresh, Status> {
    match read_fresh(host) {
        Ok(fresh) => Ok(fresh),
        Err(_) => match Text::copy_of(alloc, SOURCE) {
            Err(_) => Err(Status::NoMemory),
            Ok(name) => Err(Status::FileFault { name }),
        },
    }
}
