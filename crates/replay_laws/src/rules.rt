//! The rules of the managers, and the effects of records by them.

ghost use Rattle.std.specs.Prelude.{◌<◌, Option};
ghost use Rattle.rmgr_hooks.specs.Custom.{Extension, IsSound};
ghost use Rattle.block_effects.specs.Rules.{AreRules};
ghost use Rattle.block_refs.specs.Parts.{ArePartsOf, PartsView};
ghost use Rattle.block_refs.specs.declared.names.BlockName.{BlockName};
ghost use Rattle.page_masks.specs.Law.{view};
ghost use Rattle.record_effects.specs.Managers.{effect_on, rules_of};
ghost use Rattle.replay_law.specs.Premises.{IsEffect};
ghost use Rattle.wal_records.specs.Reading.{LogRecord};

/// The managers keep what they owe for their rules.
pub fn managers_keep_their_rules()
    ensures { (custom : Option Extension) → IsSound custom → (rec : LogRecord) →
        AreRules (rules_of custom rec) }
{}

/// Each effect of a record is one as the law of one block asks it.
pub fn records_have_effects()
    ensures { (custom : Option Extension) → IsSound custom → (rec : LogRecord)
        (parts : PartsView) (name : BlockName) → ArePartsOf rec parts → 0 < rec.end →
        IsEffect (view name.block) rec.end (effect_on custom rec parts name) }
{}
