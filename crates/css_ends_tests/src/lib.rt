//! Tests of both ends and their parts: `css_client`, `css_companion`, `css_relay`, `css_follow`, `css_sessions` and
//! `css_tv`.
#![tactic(auto)]

#[cfg(test)]
mod common;
#[cfg(test)]
mod companion;
#[cfg(test)]
mod companion_plain;
#[cfg(test)]
mod companion_rows;
#[cfg(test)]
mod follow;
#[cfg(test)]
mod follow_rows;
#[cfg(test)]
mod relay;
#[cfg(test)]
mod sessions;
#[cfg(test)]
mod tv;
#[cfg(test)]
mod tv_plain;
#[cfg(test)]
mod tv_rows;
