//! Tests of parts: what is read and written of the octets of names, fields, messages, probes and reports, whole APDUs
//! among them, and of the texts of names, by outside vectors and happy paths, which no clause says; worked transfers of
//! the two halves of a lane, a walk at random through the worlds of two ends, the printed texts of APDUs, items, lanes
//! and a mailbox, and stations under the words of a command line. They stand apart, so that no library is proved again
//! with them.
#![tactic(auto)]

#[cfg(test)]
mod apdu;
#[cfg(test)]
mod envelope;
#[cfg(test)]
mod explore;
#[cfg(test)]
mod explore_ends;
#[cfg(test)]
mod explore_link;
#[cfg(test)]
mod explore_world;
#[cfg(test)]
mod fields;
#[cfg(test)]
mod name_text;
#[cfg(test)]
mod receiving;
#[cfg(test)]
mod report;
#[cfg(test)]
mod sample;
#[cfg(test)]
mod sending;
#[cfg(test)]
mod spellings;
#[cfg(test)]
mod stations;
#[cfg(test)]
mod texts;
