//! Tests of the texts of sessions, of command lines, of the player, of agreements, of the lines of a watch and of what
//! carries them on, and of schedules: the public calls of `css_cii`, `css_tsmsg`, `css_words`, `css_player`,
//! `css_agree`, `css_watch_lines`, `css_carry`, `css_schedule`, `css_moments` and `css_gen`. What a schedule prints and
//! becomes stands in the tests of the commands.
#![tactic(auto)]

#[cfg(test)]
mod agreements;
#[cfg(test)]
mod carries;
#[cfg(test)]
mod clocks;
#[cfg(test)]
mod commands;
#[cfg(test)]
mod common;
#[cfg(test)]
mod generated;
#[cfg(test)]
mod headers;
#[cfg(test)]
mod lines;
#[cfg(test)]
mod players;
#[cfg(test)]
mod states;
#[cfg(test)]
mod texts;
#[cfg(test)]
mod watch_lines;
