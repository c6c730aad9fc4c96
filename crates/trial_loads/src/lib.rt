//! Trials of the loader: texts whose tables and refusals are written down, by any number of threads, and drawn texts,
//! of which it and a plain loader make the same.
//!
//! All of it is tests. The plain loader is written from docs/TABLES.md alone.
#![tactic(auto)]

#[cfg(test)]
mod agreement;
#[cfg(test)]
mod drawn_sorts;
#[cfg(test)]
mod drawn_texts;
#[cfg(test)]
mod kinds;
#[cfg(test)]
mod loading;
#[cfg(test)]
mod many_threads;
#[cfg(test)]
mod odd_fields;
#[cfg(test)]
mod plain_columns;
#[cfg(test)]
mod plain_numbers;
#[cfg(test)]
mod plain_records;
#[cfg(test)]
mod ranking;
