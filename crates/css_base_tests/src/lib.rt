//! Tests of the libraries that all others stand on: numbers, datagrams, spans, windows, lines, addresses, texts and
//! clocks.
#![tactic(auto)]

#[cfg(test)]
mod address_tests;
#[cfg(test)]
mod clock_tests;
#[cfg(test)]
mod common;
#[cfg(test)]
mod conversion_tests;
#[cfg(test)]
mod datagram_tests;
#[cfg(test)]
mod line_tests;
#[cfg(test)]
mod number_tests;
#[cfg(test)]
mod span_tests;
#[cfg(test)]
mod text_tests;
#[cfg(test)]
mod window_tests;
