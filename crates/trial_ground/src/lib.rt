//! Trials of the ground: devices in memory and over the system, cells, tables, dictionaries and sets, the text of a
//! story, and the control word of a frame.
//!
//! All of it is tests. docs/DEVICES.md, docs/TABLES.md, docs/MANAGER.md and docs/FRAMES.md tell what they try.
#![tactic(auto)]

#[cfg(test)]
mod control_words;
#[cfg(test)]
mod depots;
#[cfg(test)]
mod pipes;
#[cfg(test)]
mod reading;
#[cfg(test)]
mod real_devices;
#[cfg(test)]
mod setting_texts;
#[cfg(test)]
mod story_texts;
#[cfg(test)]
mod tables;
