//! The end of a value.

/// Lets a value go. It is generic on purpose: the proof of who ends a command or an order by this call has one step for that, since
/// how a type is dropped is proved once, where a value that ends by itself is taken apart in the proof of each place. (replay_state
/// has the same; it isn't in ps_base, since a change of that proves every crate anew.)
pub(crate) fn let_go<T: Drop>(value: T) {}
