// What a reset is asked for.
ghost use Rattle.std.specs.Prelude.{◌≡◌};
ghost use Rattle.reset_numbers.specs.Options.{are_digits, are_ends, are_multis, fits, is_fit, is_member_place, is_normal, is_object, is_size_mb};

use wal_base::SegSize;

/// What a reset of a log is asked for. What isn't given stays as it is in the control file.
#[derive(Clone, Copy, Debug)]
pub struct ResetOptions {
    /// The oldest and the newest transaction with a commit time (`-c`): each 0, which leaves it, or
    /// at least 2.
    pub commit_ts: Option<(u32, u32)>,
    /// The epoch of the next transaction (`-e`).
    pub epoch: Option<u32>,
    /// Whether a cluster that wasn't shut down is reset too (`-f`).
    pub force: Option<()>,
    /// The least new segment (`-l`): the timeline, and the second and third eight digits of its name,
    /// each below 2^32.
    pub log: Option<(u32, u64, u64)>,
    /// The next and the oldest multixact (`-m`), neither of them 0.
    pub multi: Option<(u32, u32)>,
    /// Whether nothing is changed (`-n`).
    pub dry: Option<()>,
    /// The next object (`-o`), not 0.
    pub oid: Option<u32>,
    /// The next place in the members of multixacts (`-O`), not 2^32 - 1.
    pub multi_offset: Option<u32>,
    /// The oldest transaction (`-u`), at least 3.
    pub oldest_xid: Option<u32>,
    /// The next transaction in its epoch (`-x`), at least 3.
    pub xid: Option<u32>,
    /// The size of segments (`--wal-segsize`) in megabytes, a power of two from 1 to 1024.
    pub segment_mb: Option<u32>,
}

// Each end of the commit timestamps is 0 or at least 2.
fn ends_fit(given: Option<(u32, u32)>) -> bool
    ensures { result ≡ fits are_ends given }
{
    match given {
        Some(ends) => ends.0 != 1 && ends.1 != 1,
        None => true,
    }
}

// A transaction is a normal one.
fn xid_fits(given: Option<u32>) -> bool
    ensures { result ≡ fits is_normal given }
{
    match given {
        Some(xid) => xid >= 3,
        None => true,
    }
}

// Neither multixact is 0.
fn multi_fits(given: Option<(u32, u32)>) -> bool
    ensures { result ≡ fits are_multis given }
{
    match given {
        Some(ids) => ids.0 != 0 && ids.1 != 0,
        None => true,
    }
}

// An object isn't 0.
fn oid_fits(given: Option<u32>) -> bool
    ensures { result ≡ fits is_object given }
{
    match given {
        Some(oid) => oid != 0,
        None => true,
    }
}

// An offset isn't the last number.
fn offset_fits(given: Option<u32>) -> bool
    ensures { result ≡ fits is_member_place given }
{
    match given {
        Some(offset) => offset < 0xFFFF_FFFF,
        None => true,
    }
}

// The second and third eight digits of a segment's name are words.
fn log_fits(given: Option<(u32, u64, u64)>) -> bool
    ensures { result ≡ fits are_digits given }
{
    match given {
        Some(log) => log.1 < 0x1_0000_0000 && log.2 < 0x1_0000_0000,
        None => true,
    }
}

// So many megabytes are a segment's size.
#[tactic(auto, using(crate::proofs::OptionLemmas::size_steps))]
fn is_size_mb(mb: u32) -> bool
    ensures { result ≡ is_size_mb mb }
{
    mb <= 1024 && SegSize::new(mb * 0x10_0000).is_some()
}

fn size_fits(given: Option<u32>) -> bool
    ensures { result ≡ fits is_size_mb given }
{
    match given {
        Some(mb) => is_size_mb(mb),
        None => true,
    }
}

/// Whether the options are no faulty words, as `reset_log` needs them.
#[tactic(auto, unfolding(crate::specs::Options::is_fit))]
pub fn is_fit(options: &ResetOptions) -> bool
    ensures { result ≡ is_fit options.now }
{
    ends_fit(options.commit_ts)
        && xid_fits(options.xid)
        && xid_fits(options.oldest_xid)
        && multi_fits(options.multi)
        && oid_fits(options.oid)
        && offset_fits(options.multi_offset)
        && log_fits(options.log)
        && size_fits(options.segment_mb)
}
