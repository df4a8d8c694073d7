//! Laws: what holds of the definitions, whatever calls them.

ghost use Rattle.std.specs.Prelude.{ℕ, ◌<◌, List, Option};
ghost use Rattle.block_refs.specs.Parts.{ArePartsOf, PartsView};
ghost use Rattle.block_refs.specs.declared.names.BlockName.{BlockName};
ghost use Rattle.page_masks.specs.Law.{view};
ghost use Rattle.replay_law.specs.Law.{EndAlike};
ghost use Rattle.replay_law.specs.Premises.{IsEffect, IsState};
ghost use Rattle.replay_law.specs.Stage.{Fits};
ghost use Rattle.wal_records.specs.Reading.{LogRecord};
ghost use Rattle.block_effects.specs.Effects.{effect_by};
ghost use Rattle.block_effects.specs.Lives.{IsLife, Split, steps_of};
ghost use Rattle.block_effects.specs.Rules.{AreRules, BlockRules, no_rules};
ghost use Rattle.block_effects.specs.Slot.{slot_rules};

/// Of a manager that keeps what it owes for its rules, each effect of a record is one as the law of
/// one block asks it: a page that is made or put in place has the record's end as LSN, and a change
/// respects the mask.
pub fn effects_meet()
    ensures { (rules : BlockRules) (rec : LogRecord) (parts : PartsView) (name : BlockName) →
        AreRules rules → ArePartsOf rec parts → 0 < rec.end →
        IsEffect (view name.block) rec.end (effect_by rules rec parts name) }
{}

/// A manager whose records act by their images alone keeps what it owes.
pub fn managers_without_rules()
    ensures { AreRules no_rules }
{}

/// Of managers that keep what they owe for their rules, two states of a block that fit one base end
/// alike under a log of their records, with no refusal and no skipped change.
pub fn managers_converge()
    ensures { (rules : LogRecord → BlockRules) (name : BlockName) (redo : ℕ)
        (base a b : Option (List ℕ)) (log : List Split) →
        ((rec : LogRecord) → AreRules (rules rec)) →
        IsLife rules name redo base log →
        IsState (view name.block) a → IsState (view name.block) b →
        Fits (view name.block) base a (steps_of rules name log) →
        Fits (view name.block) base b (steps_of rules name log) →
        EndAlike (view name.block) a b (steps_of rules name log) }
{}

/// A manager of an extension joins by its rules alone: one whose records set a slot of a page keeps
/// what it owes, and so its blocks converge.
pub fn a_slot_joins()
    ensures rules { AreRules slot_rules }
    ensures converges { (name : BlockName) (redo : ℕ) (base a b : Option (List ℕ))
        (log : List Split) →
        IsLife (λ rec. slot_rules) name redo base log →
        IsState (view name.block) a → IsState (view name.block) b →
        Fits (view name.block) base a (steps_of (λ rec. slot_rules) name log) →
        Fits (view name.block) base b (steps_of (λ rec. slot_rules) name log) →
        EndAlike (view name.block) a b (steps_of (λ rec. slot_rules) name log) }
{}
