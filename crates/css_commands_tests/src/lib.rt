//! Tests of the commands of `css_app` over devices in memory.
#![tactic(auto)]

#[cfg(test)]
mod crowd_clocks;
#[cfg(test)]
mod crowd_second;
#[cfg(test)]
mod crowd_tests;
#[cfg(test)]
mod crowds;
#[cfg(test)]
mod generated_tests;
#[cfg(test)]
mod hint_tests;
#[cfg(test)]
mod line_tests;
#[cfg(test)]
mod live_tables;
#[cfg(test)]
mod live_tests;
#[cfg(test)]
mod outside;
#[cfg(test)]
mod replay_tables;
#[cfg(test)]
mod replay_tests;
#[cfg(test)]
mod running;
#[cfg(test)]
mod status_tests;
#[cfg(test)]
mod watch_tables;
#[cfg(test)]
mod watch_tests;
