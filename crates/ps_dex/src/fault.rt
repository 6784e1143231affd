//! Why bytes are no dex file.
use ps_data::file_fault::FileFault;

/// Why bytes are no dex file: the first value that isn't in its form, in the written order of the keys and then
/// by places of arrays, or that memory ran out.
pub type DexFault = FileFault;
