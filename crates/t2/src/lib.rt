// The engine's calls: start, measure, write a packet or a layer, read from the stream or from gathered headers, gather and spread headers.
#![tactic(auto)]

pub use t2_gather::gather;
pub use t2_measure::measure;
pub use t2_read_gathered::read_gathered;
pub use t2_read_packet::read;
pub use t2_spread::spread;
pub use t2_start::{start_reader, start_writer};
pub use t2_write::write;
pub use t2_write_layer::write_layer;
