//! pg_rewind --resume.
#![tactic(auto)]

mod causes;
mod makes;
mod resumes;
mod ways;

pub use resumes::resume;
