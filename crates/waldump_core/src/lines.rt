//! Lines on their way to a sink.

ghost use Rattle.std.specs.Prelude.{◌≡◌, ◌≢◌, ◌≤◌, ◌⊎◌, ◌++◌, [], IfErr, IsTrue, OnErr, OnOk};
ghost use Rattle.acts.specs.Acts.{Breaks, sunk};
ghost use Rattle.acts.specs.Texts.{Flushes};
ghost use Rattle.cluster_tree.specs.Causes.{Rose};
ghost use Rattle.block_refs.specs.Parts.{ArePartsOf};
ghost use Rattle.rmgr_hooks.specs.Custom.{handed_in};
ghost use Rattle.waldump_core.specs.Line.{line_text};
ghost use Rattle.waldump_core.specs.Texts.{Extends};

use crate::line::add_line;
use acts::put;
use block_refs::Parts;
use cluster_tree::{Sink, SinkFailed};
use rmgr_hooks::Manager;
use std::alloc::Global;
use std::marker::Model;
use wal_base::OutOfMemory;
use wal_records::Record;

/// How many bytes are gathered before they are written.
const FULL: usize = 0x1_0000;

/// Lines that are still to be written, so that writes are few and large. Contracts see their bytes.
#[derive(Drop)]
pub struct Lines {
    alloc: Global,
    line: String,
    pending: String,
}

impl Model for Lines {
    ghost use Rattle.std.specs.Prelude.{List, ℕ, string_bytes};

    ghost Value = { List ℕ };

    ghost view = { λ l. string_bytes l.pending };
}

impl Lines {
    /// No lines.
    pub fn new(alloc: Global) -> Lines
        ensures { result ≡ [] }
    {
        Lines {
            alloc,
            line: String::new(alloc),
            pending: String::new(alloc),
        }
    }

    /// Adds the line of a record with these parts. Answers `OutOfMemory` only for want of memory,
    /// and then no part of the line is pending.
    pub fn add<M: Manager>(
        &mut self,
        rec: &Record,
        parts: &Parts,
        details: bool,
        custom: Option<&M>,
    ) -> Result<(), OutOfMemory>
        requires parts { ArePartsOf rec.now parts.now }
        ensures added { OnOk result (self.new ≡ self.old
            ++ line_text (handed_in M.Manager custom.entry) details rec.now parts.now) }
        ensures kept { OnErr result (self.new ≡ self.old) }
    {
        self.line.clear();
        add_line(self.alloc, &mut self.line, rec, parts, details, custom)?;
        self.pending.push_str(self.line.as_str())?;
        Ok(())
    }

    /// Writes what is pending, if it is something: an empty write is never made.
    #[tactic(auto, using(crate::proofs::SinkLemmas::flush_steps))]
    pub fn flush<O: Sink>(&mut self, out: &mut O) -> Result<(), SinkFailed>
        ensures whole { OnOk result (Flushes O.tells self.old
            (sunk (O.written out.old) (O.failed_writes out.old))
            (sunk (O.written out.new) (O.failed_writes out.new))) }
        ensures none { OnOk result (self.new ≡ []) }
        ensures part { OnErr result (Breaks O.tells self.old
            (sunk (O.written out.old) (O.failed_writes out.old))
            (sunk (O.written out.new) (O.failed_writes out.new))) }
        ensures gathered { OnErr result (self.old ≢ []) }
        ensures unwritten { self.old ≡ [] → out.new ≡ out.old }
        ensures extends { IsTrue O.tells → Extends (O.written out.old) (O.written out.new) }
        ensures later { O.failed_writes out.old ≤ O.failed_writes out.new }
        ensures cause { OnErr result (Rose (O.failed_writes out.old) (O.failed_writes out.new)) }
    {
        if self.pending.is_empty() {
            return Ok(());
        }
        put(out, self.pending.as_str())?;
        self.pending.clear();
        Ok(())
    }

    /// Writes what is pending where it is much.
    #[tactic(auto, using(crate::proofs::SinkLemmas::flush_steps))]
    pub fn flush_full<O: Sink>(&mut self, out: &mut O) -> Result<(), SinkFailed>
        ensures whole { OnOk result ((Flushes O.tells self.old
            (sunk (O.written out.old) (O.failed_writes out.old))
            (sunk (O.written out.new) (O.failed_writes out.new)) × (self.new ≡ [])) ⊎
            ((sunk (O.written out.new) (O.failed_writes out.new)
            ≡ sunk (O.written out.old) (O.failed_writes out.old)) × (self.new ≡ self.old))) }
        ensures part { OnErr result (Breaks O.tells self.old
            (sunk (O.written out.old) (O.failed_writes out.old))
            (sunk (O.written out.new) (O.failed_writes out.new))) }
        ensures gathered { OnErr result (self.old ≢ []) }
        ensures unwritten { self.old ≡ [] → (out.new ≡ out.old) × (self.new ≡ []) }
        ensures extends { IsTrue O.tells → Extends (O.written out.old) (O.written out.new) }
        ensures later { O.failed_writes out.old ≤ O.failed_writes out.new }
        ensures cause { OnErr result (Rose (O.failed_writes out.old) (O.failed_writes out.new)) }
    {
        if self.pending.len() < FULL {
            return Ok(());
        }
        self.flush(out)
    }
}
