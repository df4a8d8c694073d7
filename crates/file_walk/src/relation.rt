// Which files hold the blocks of main forks.
ghost use Rattle.std.specs.Prelude.{◌≡◌};
ghost use Rattle.std.specs.Option.{option_copied};
ghost use Rattle.file_walk.specs.Relations.{database_of, main_of, placed, relation_of, shared};

use block_refs::{Fork, RelName};
use cluster_tree::Path;
use relation_files::FileName;
use wal_base::decimal_u32;

/// The tablespaces of shared relations (pg_global) and of all others (pg_default).
const GLOBAL: u32 = 1664;

const DEFAULT: u32 = 1663;

// The number of the database whose folder has this name.
fn database_of(name: &str) -> Option<u32>
    ensures { result ≡ database_of name.now }
{
    match decimal_u32(name.as_bytes()) {
        Some(0) | None => None,
        Some(database) => Some(database),
    }
}

// The relation and the segment of a name in a folder of this tablespace and database.
fn main_of(space: u32, database: u32, name: &str) -> Option<(RelName, u32)>
    ensures { result ≡ main_of space database name.now }
{
    let file = FileName::read(name)?;
    if file.fork != Fork::Main || file.relation == 0 {
        return None;
    }
    let rel = RelName {
        space,
        database,
        relation: file.relation,
    };
    Some((rel, file.segment))
}

// A file of a shared relation.
fn shared(folder: &str, name: &str) -> Option<(RelName, u32)>
    ensures { result ≡ shared folder.now name.now }
{
    if folder == "global" {
        main_of(GLOBAL, 0, name)
    } else {
        None
    }
}

// A file of a relation of a database.
fn placed(folder: &str, database: &str, name: &str) -> Option<(RelName, u32)>
    ensures { result ≡ placed folder.now database.now name.now }
{
    if folder != "base" {
        return None;
    }
    main_of(DEFAULT, database_of(database)?, name)
}

/// The relation and the segment of a file of a main fork that lies at this path from a root on, or
/// `None` for every other path: `global/N` or `base/D/N`, with `.S` behind it but for the first
/// segment. The numbers are decimal, from 1 to 2^32 - 1 and without leading zeros.
pub fn is_relation_file(path: &Path) -> Option<(RelName, u32)>
    ensures value { result ≡ relation_of path.now }
{
    if path.is_absolute() {
        return None;
    }
    let first = path.part(0)?;
    let second = path.part(1)?;
    let Some(third) = path.part(2) else {
        return shared(first, second);
    };
    if path.len() > 3 {
        return None;
    }
    placed(first, second, third)
}
