//! Devices that tell what their inner devices answered, by values that only proofs see.
#![tactic(auto)]

mod diary;
mod given;
mod happening;
mod note;
mod roll;
mod telling;
mod telling_sink;
mod telling_spawner;

pub use diary::Diary;
pub use given::Given;
pub use happening::Happening;
pub use note::Note;
pub use roll::Roll;
pub use telling::TellingOutside;
pub use telling_sink::TellingSink;
pub use telling_spawner::TellingSpawner;
