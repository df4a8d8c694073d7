//! Tests of what resets, rewinds and replays that are started again are made of: rows of texts for one driver.
#![tactic(auto)]

#[cfg(test)]
mod areas;
#[cfg(test)]
mod begun;
#[cfg(test)]
mod controls;
#[cfg(test)]
mod copies;
#[cfg(test)]
mod endless;
#[cfg(test)]
mod faults;
#[cfg(test)]
mod held;
#[cfg(test)]
mod kinds;
#[cfg(test)]
mod labels;
#[cfg(test)]
mod lists;
#[cfg(test)]
mod numbers;
#[cfg(test)]
mod options;
#[cfg(test)]
mod paths;
#[cfg(test)]
mod plans;
#[cfg(test)]
mod refusals;
#[cfg(test)]
mod resets;
#[cfg(test)]
mod restored;
#[cfg(test)]
mod resumes;
#[cfg(test)]
mod rows;
#[cfg(test)]
mod stored;
#[cfg(test)]
mod surveys;
#[cfg(test)]
mod texts;
#[cfg(test)]
mod touching;
#[cfg(test)]
mod trees;
#[cfg(test)]
mod walks;
