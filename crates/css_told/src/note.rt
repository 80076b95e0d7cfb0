use css_model::{Failure, Kind, Why};
use css_num::Text;
use css_outside::{Address, Clocked, Heard, Wrote};

/// A call of an outside that was answered, and its answer.
#[derive(Clone, Copy)]
pub enum Note<'a> {
    Listens(&'a Text, u16),
    Reads(Why, Clocked),
    Dials(Kind, &'a Address, u32),
    DialsInVain(Kind, &'a Address, Failure),
    Opens(Option<(u32, Kind)>),
    Sends(u32, &'a [u8; 32]),
    Takes(&'a [u8; 64], Option<(u32, usize)>),
    Hears(u32, &'a Heard),
    Writes(u32, &'a [u8], Wrote),
    HangsUp(u32),
}
