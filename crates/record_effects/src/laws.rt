//! Laws: what holds of the definitions, whatever calls them.

ghost use Rattle.std.specs.Prelude.{ℕ, ◌≡◌, Option, Some, true};
ghost use Rattle.rmgr_hooks.specs.Custom.{Extension, OwesPages};
ghost use Rattle.std.specs.List.{slice_get};
ghost use Rattle.block_refs.specs.Parts.{ArePartsOf, PartsView};
ghost use Rattle.block_refs.specs.declared.placed.Placed.{Placed};
ghost use Rattle.replay_profile.specs.Names.{are_known};
ghost use Rattle.wal_records.specs.Reading.{LogRecord};
ghost use Rattle.record_effects.specs.Acts.{act_on, IsDone};
ghost use Rattle.record_effects.specs.Managers.{effect_on, extension_rules};
ghost use Rattle.block_effects.specs.Rules.{AreRules};

/// What is done at a reference is the effect on its block, where no two references name one block.
pub fn acts_are_effects()
    ensures { (custom : Option Extension) (rec : LogRecord) (parts : PartsView) (at : ℕ)
        (placed : Placed) →
        ArePartsOf rec parts →
        are_known parts.blocks ≡ true → slice_get parts.blocks at ≡ Some placed →
        IsDone custom rec parts placed.block.id (act_on custom rec parts placed.block)
        (effect_on custom rec parts placed.block.name) }
{}

/// A manager of an extension keeps what it owes for its rules.
pub fn extensions_keep_rules()
    ensures { (e : Extension) → OwesPages e → AreRules (extension_rules e) }
{}
