// Paths that have a step of a plan.
ghost use Rattle.std.specs.Prelude.{◌≡◌, ◌≤◌, string_bytes, IfOk};
ghost use Rattle.std.specs.Option.{option_map};
ghost use Rattle.plan_text.specs.Paths.{is_kept_out, step_way_in};

use cluster_tree::OutOfMemory;
use mark_lines::way_in;
use std::alloc::Global;

/// Whether a file has no step of its own: the control file, and the marks.
fn is_kept_out(text: &str) -> bool
    ensures { result ≡ is_kept_out text.now }
{
    text == "global/pg_control"
        || text == "pg_rewind.unfinished"
        || text == "pg_walreplay.unfinished"
        || text == "pg_resetwal.unfinished"
}

/// The way below a root of so many parts that a step's word says.
pub(crate) fn step_way_in(
    alloc: Global,
    depth: usize,
    word: &[u8],
) -> Result<Option<String>, OutOfMemory>
    requires { depth ≤ 64 }
    ensures { IfOk result (λ way. option_map string_bytes way ≡ step_way_in depth word.now) }
{
    let Some(way) = way_in(alloc, depth, word)? else {
        return Ok(None);
    };
    if is_kept_out(&way) {
        Ok(None)
    } else {
        Ok(Some(way))
    }
}
