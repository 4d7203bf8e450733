//! Sources and sinks whose faults are counted, and whole reads and writes over them.
//! A fault is told only where its count rose, and what was read or written till then is known.
#![tactic(auto)]

mod device;
mod flow;
mod gate;
mod memory;
mod steady;
mod whole;

pub use device::{StdSink, StdSource};
pub use flow::{Failed, Sink, Source};
pub use gate::{Gate, NoGate};
pub use memory::{MemorySink, MemorySource};
pub use steady::{NoFaultSink, NoFaultSource};
pub use whole::{ReadError, WriteFault, read_all, write_all};
