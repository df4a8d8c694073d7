//! Tests of `machine` over real folders and streams.
#![tactic(auto)]

#[cfg(test)]
mod calls;
#[cfg(test)]
mod folders;
#[cfg(test)]
mod streams;
