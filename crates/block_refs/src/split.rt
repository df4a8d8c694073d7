//! A record's body, cut into its parts.

ghost use Rattle.std.specs.Prelude.{◌≡◌, ◌↔◌, ℕ, Ok, Err, IfOk, OnErr, OnOk};
ghost use Rattle.wal_base.specs.declared.lsn.Lsn.{Lsn};
ghost use Rattle.block_refs.specs.declared.fault.Flaw.TheVariants as flaws;
ghost use Rattle.block_refs.specs.declared.fault.PartsFault.TheVariants as faults;
ghost use Rattle.block_refs.specs.Parts.{PartsView, ArePartsOf, no_parts};
ghost use Rattle.block_refs.specs.Spelling.{HasParts, IsFirstFlaw};
ghost use Rattle.block_refs.specs.Outcomes.{start_of, record_parts, MeetsIn};

use crate::fault::PartsFault;
use crate::parts::Parts;
use wal_records::Record;

/// Reads the parts of a record into `parts`, in place of what is there. Answers as `split_record`
/// does, and after an error there are no parts. It takes no memory.
pub fn split_into(rec: &Record, parts: &mut Parts) -> Result<(), PartsFault>
    ensures exact { MeetsIn (record_parts rec.now) parts.new result }
    ensures parts { OnOk result (ArePartsOf rec.now parts.new) }
    ensures none { OnErr result (parts.new ≡ no_parts) }
{
    parts.read(rec.start(), rec.body())
}

/// The parts of a record.
fn split(rec: &Record) -> Result<Parts, PartsFault>
    ensures { result ≡ record_parts rec.now }
{
    let mut parts = Parts::new();
    split_into(rec, &mut parts)?;
    Ok(parts)
}

/// The parts of a record (`DecodeXLogRecord`). It takes no memory.
///
/// Answers `BadParts` where no rule fits a fragment of its body, with the record's start and the
/// offset of that fragment, and `Compressed` where a fragment that is otherwise well formed has a
/// compressed image, with the record's start and the block's id. The first such fragment decides.
pub fn split_record(rec: &Record) -> Result<Parts, PartsFault>
    ensures exact { result ≡ record_parts rec.now }
    ensures parts { IfOk result (λ parts. ArePartsOf rec.now parts) }
    // What is so spelled is read, and nothing else.
    ensures read { (parts : PartsView) → (result ≡ Ok parts) ↔ HasParts rec.now.body parts }
    // A fault is the first flaw, and no other.
    ensures bad_parts { (at : Lsn) (offset : ℕ) → (result ≡ Err (faults.BadParts at offset))
        ↔ ((at ≡ start_of rec.now) × IsFirstFlaw rec.now.body (flaws.Bad offset)) }
    ensures compressed { (at : Lsn) (id : ℕ) → (result ≡ Err (faults.Compressed at id))
        ↔ ((at ≡ start_of rec.now) × IsFirstFlaw rec.now.body (flaws.Compressed id)) }
{
    split(rec)
}
