//! Tests of the public calls of `css_drive`, `css_drive_relay`, `css_record` and `css_audit`: runs of a television, a
//! companion and a relay over an outside in memory, the records of such runs, and audits of records.
#![tactic(auto)]

#[cfg(test)]
mod audits;
#[cfg(test)]
mod companion_rows;
#[cfg(test)]
mod companions;
#[cfg(test)]
mod joined;
#[cfg(test)]
mod network;
#[cfg(test)]
mod noted;
#[cfg(test)]
mod relay_rows;
#[cfg(test)]
mod rows;
#[cfg(test)]
mod runs;
#[cfg(test)]
mod scripts;
#[cfg(test)]
mod served;
#[cfg(test)]
mod television_rows;
