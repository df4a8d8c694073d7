// The name of a file of a relation.
ghost use Rattle.std.specs.Prelude.{◌≡◌};
ghost use Rattle.relation_files.specs.Names.{fork_suffix};

use block_refs::Fork;
use std::fmt;

/// A file of a relation in the relation's folder. It shows as its name: `16384`, `16384.1`,
/// `16384_vm`, `16384_vm.1`.
#[derive(Clone, Copy, Debug, PartialEq, Eq)]
pub struct FileName {
    /// The number of the relation (`relNumber`).
    pub relation: u32,
    /// Which of its forks.
    pub fork: Fork,
    /// Which segment of the fork, from 0.
    pub segment: u32,
}

// What stands behind the number, by the fork.
fn suffix(fork: Fork) -> &'static str
    ensures { result.now ≡ fork_suffix fork }
{
    match fork {
        Fork::Main => "",
        Fork::FreeSpace => "_fsm",
        Fork::Visibility => "_vm",
        Fork::Init => "_init",
    }
}

impl fmt::Display for FileName {
    ghost use Rattle.std.specs.Prelude.{Some};
    ghost use Rattle.relation_files.specs.Names.{file_name};

    ghost output = { λ file. Some (file_name file) };

    fn fmt<W: fmt::Write>(&self, f: &mut fmt::Formatter<W>) -> fmt::Result {
        let FileName {
            relation,
            fork,
            segment,
        } = *self;
        let suffix = suffix(fork);
        if segment == 0 {
            write!(f, "{relation}{suffix}")
        } else {
            write!(f, "{relation}{suffix}.{segment}")
        }
    }
}
