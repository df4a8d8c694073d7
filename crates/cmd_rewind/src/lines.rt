// The lines of a report that are made in memory, before the first is put.
ghost use Rattle.std.specs.Prelude.{◌≡◌, IfOk, string_bytes};
ghost use Rattle.cmd_rewind.specs.Rewind.{diverged, rewinding};

use rewind_core::{Divergence, Told};
use std::alloc::{AllocError, Global};

/// The report of what a target needs.
#[derive(Drop)]
pub enum Lines {
    /// That both clusters are on one timeline.
    Same,
    /// That nothing is to be done, behind the line on the fork.
    AtFork(String),
    /// That the target is rewound, behind the lines on the fork and on the common checkpoint.
    Rewind(String, String),
}

/// The line on the fork.
#[tactic(auto, unfolding(crate::specs::Rewind::diverged))]
pub fn diverged(alloc: Global, fork: Divergence) -> Result<String, AllocError>
    ensures { IfOk result (λ line. string_bytes line ≡ diverged fork) }
{
    let at = fork.at;
    let tli = fork.tli;
    format!(in alloc; "pg_rewind: servers diverged at WAL location {at} on timeline {tli}\n")
}

/// The line on the common checkpoint.
#[tactic(auto, unfolding(crate::specs::Rewind::rewinding))]
pub fn rewinding(alloc: Global, told: Told) -> Result<String, AllocError>
    ensures { IfOk result (λ line. string_bytes line ≡ rewinding told) }
{
    let at = told.checkpoint;
    let tli = told.tli;
    format!(in alloc;
        "pg_rewind: rewinding from last common checkpoint at {at} on timeline {tli}\n"
    )
}
