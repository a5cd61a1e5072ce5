//! What stands between the builder and the world: the traits through which it reads, writes and speaks,
//! each with its forms over memory and over the host. The small types that every crate names are handed
//! on from `basics`.
#![tactic(auto)]

mod failures;
mod host;
mod line;
mod memory_outputs;
mod memory_say;
mod memory_sources;
mod room;
mod slot;
mod slots;
mod stream;
mod sure_outputs;
mod sure_say;
mod sure_sources;
#[cfg(test)]
mod tests;
mod traits;

pub use basics::{Fault, Kind, Name, NoMemory, Seq, Spot, Stop, stop_at};
pub use host::{HostOutputs, HostSay, HostSources, StandardStreams};
pub use line::{Piece, say_all};
pub use memory_outputs::MemoryOutputs;
pub use memory_say::MemorySay;
pub use memory_sources::MemorySources;
pub use sure_outputs::SureOutputs;
pub use sure_say::SureSay;
pub use sure_sources::SureSources;
pub use traits::{Failed, Found, Outputs, ReadError, Say, Sources};
