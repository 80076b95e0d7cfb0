//! Followers of a companion's reports, and the cue sheet that tells them what to follow.
//!
//! A follower hears report after report, and says bytes of each, until it is done. `Cues` says when the cues of its
//! sheet are possible and when they are passed; `Meter` says how wide the first intervals are.
#![tactic(auto)]

mod cues;
mod follower;
mod line;
mod listens;
mod mark;
mod meter;
mod notes;
mod reading;
mod sheet;
mod waiting;

pub use cues::Cues;
pub use follower::Follower;
pub use line::Form;
pub use listens::{Before, Listens, Nobody};
pub use meter::Meter;
pub use reading::SheetLines;
pub use sheet::{Cue, CueList, Sheet};
