//! Tests of trees of files, and of the crates that read and write numbers, control files, histories and pages, as a caller
//! uses them.
#![tactic(auto)]

#[cfg(test)]
mod callers;
#[cfg(test)]
mod calls;
#[cfg(test)]
mod control_bytes;
#[cfg(test)]
mod control_files;
#[cfg(test)]
mod fakes;
#[cfg(test)]
mod gates;
#[cfg(test)]
mod histories;
#[cfg(test)]
mod layouts;
#[cfg(test)]
mod masks;
#[cfg(test)]
mod numbers;
#[cfg(test)]
mod page_calls;
#[cfg(test)]
mod pages;
#[cfg(test)]
mod paths;
#[cfg(test)]
mod rows;
#[cfg(test)]
mod silent;
#[cfg(test)]
mod stops;
#[cfg(test)]
mod sums;
#[cfg(test)]
mod texts;
#[cfg(test)]
mod trees;
