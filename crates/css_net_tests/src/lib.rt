//! Tests of the public calls of `css_devices` and `css_net`.
#![tactic(auto)]

#[cfg(test)]
mod device_tests;
#[cfg(test)]
mod socket_tests;
