//! Tests of the log's crates, as a caller uses them: its pages, its records, their layouts and texts, their dump, and the
//! blocks that they touch.
#![tactic(auto)]

#[cfg(test)]
mod callers;
#[cfg(test)]
mod dumps;
#[cfg(test)]
mod layouts;
#[cfg(test)]
mod logs;
#[cfg(test)]
mod one_record;
#[cfg(test)]
mod page_rows;
#[cfg(test)]
mod pages;
#[cfg(test)]
mod parts;
#[cfg(test)]
mod record_rows;
#[cfg(test)]
mod records;
#[cfg(test)]
mod rows;
#[cfg(test)]
mod texts;
#[cfg(test)]
mod told;
#[cfg(test)]
mod touched;
#[cfg(test)]
mod written;
