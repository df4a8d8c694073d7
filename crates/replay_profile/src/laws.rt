//! Laws: what holds of the definitions, whatever calls them.

ghost use Rattle.std.specs.Prelude.{◌≡◌, ◌∷◌, ◌++◌, [], List, None, Option, Some};
ghost use Rattle.rmgr_hooks.specs.Custom.{Extension};
ghost use Rattle.wal_records.specs.Reading.{LogRecord};
ghost use Rattle.replay_profile.specs.declared.fault.ProfileFault.{ProfileFault};
ghost use Rattle.replay_profile.specs.Profile.{first_of, first_outside, judged};

/// The first fault of a log is found record by record: of no records there is none, one that was
/// found stays, and as long as there is none the next record's decides.
pub fn logs_are_judged_in_order()
    ensures none { (custom : Option Extension) → first_outside custom [] ≡ None }
    ensures found { (custom : Option Extension) (records more : List LogRecord) (fault : ProfileFault) →
        first_outside custom records ≡ Some fault →
        first_outside custom (records ++ more) ≡ Some fault }
    ensures next { (custom : Option Extension) (records : List LogRecord) (rec : LogRecord) →
        first_outside custom records ≡ None →
        first_outside custom (records ++ rec ∷ []) ≡ first_of (judged custom rec) None }
{}
