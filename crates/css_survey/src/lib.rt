//! A survey of a generated schedule: a replay of its lines, of which only the reports are counted. A world takes each
//! of these lines, whatever the seed.
#![tactic(auto)]

pub mod laws;
mod summary;
mod surveyor;

pub use css_num::Memory;
pub use summary::Summary;
pub use surveyor::survey;
