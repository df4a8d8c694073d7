//! Laws: what holds of the definitions, whatever calls them.

ghost use Rattle.std.specs.Prelude.{◌≡◌, false, codes, ℕ, List};
ghost use Rattle.record_layouts.specs.declared.operation.Operation.{Operation};
ghost use Rattle.record_layouts.specs.Operation.{is_whole};
ghost use Rattle.rmgr_desc.specs.Describe.{text_of};

/// Where main bytes don't hold the whole layout of an operation, its text says so.
#[tactic(auto, using(crate::proofs::ShortLemmas::all_short))]
pub fn cut_layouts_are_short()
    ensures { (operation : Operation) (main : List ℕ) → is_whole operation main ≡ false →
        text_of operation main ≡ codes "(short)" }
{}
