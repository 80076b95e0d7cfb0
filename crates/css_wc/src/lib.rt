//! The datagrams of CSS-WC, the wall clock protocol of ETSI TS 103 286-2: their 32 bytes, and the times and the
//! precision that their fields stand for. No call takes memory.
#![tactic(auto)]

mod decoding;
mod encoding;
mod readings;

pub use css_model::{LIMIT, Message, Stamp, WcFault};
pub use decoding::decode;
pub use encoding::encode;
pub use readings::{precision_ns, reading, stamp_of};
