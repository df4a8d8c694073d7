//! Laws: what holds of the definitions, whatever calls them.

ghost use Rattle.std.specs.Prelude.{◌≡◌, ◌⊎◌, List, Option, None, true, false};
ghost use Rattle.block_effects.specs.Gone.{is_main};
ghost use Rattle.block_effects.specs.Lives.{Split, steps_of};
ghost use Rattle.block_refs.specs.declared.names.BlockName.{BlockName};
ghost use Rattle.record_effects.specs.Managers.{rules_of};
ghost use Rattle.replay_law.specs.Effect.{Step};
ghost use Rattle.replay_law.specs.Stage.{BeginsAnew};
ghost use Rattle.rmgr_hooks.specs.Custom.{Extension};
ghost use Rattle.first_effects.specs.First.{IsLeastChanged, is_changed_first, is_met};

/// A log whose first effect on a block isn't a change has no effect on it, or begins anew, whatever
/// stood there; and one that begins anew has no change as its first effect.
pub fn unchanged_begin_anew()
    ensures unchanged { (steps : List Step) → is_changed_first steps ≡ false →
        (is_met steps ≡ false) ⊎ BeginsAnew steps }
    ensures anew { (steps : List Step) → BeginsAnew steps → is_changed_first steps ≡ false }
{}

/// Where no block of a main fork is changed first, the log has no effect on each of them, or begins
/// anew.
pub fn logs_without_changes_begin_anew()
    ensures { (custom : Option Extension) (log : List Split) (name : BlockName) →
        IsLeastChanged custom log None → is_main name.fork ≡ true →
        (is_met (steps_of (rules_of custom) name log) ≡ false)
        ⊎ BeginsAnew (steps_of (rules_of custom) name log) }
{}
