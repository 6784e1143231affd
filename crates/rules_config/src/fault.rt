//! Why bytes are no configuration.
use ps_data::file_fault::FileFault;

/// Why bytes are no configuration: the first value that isn't in its form, in the written order of the keys and
/// then by indices of arrays, or that memory ran out.
pub type ConfigFault = FileFault;
