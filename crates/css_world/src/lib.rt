//! The television and the companions of a schedule, carried from line to line.
//!
//! Each line gives true time and the clocks, and says what happens then. The numbers of the lines are a world, or the
//! first line that contradicts one is refused. So what is printed is true of that world, with no premise left.
#![tactic(auto)]

mod both;
mod clocks;
mod lane;
mod lanes;
mod place;
mod printed;
mod session;
mod sessions;
mod television;
mod watch;
mod world;

pub use css_meaning::WorldFault;
pub use world::World;
