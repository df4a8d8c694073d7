//! Laws about the layout, each proved on a function that does nothing.

ghost use Rattle.std.specs.Prelude.{true, ◌≡◌};
ghost use Rattle.control_file.specs.Rows.{rows_of, checkpoint_rows};
ghost use Rattle.control_file.specs.declared.checkpoint.Checkpoint.{Checkpoint};
ghost use Rattle.control_file.specs.declared.control.Control.{Control};
ghost use Rattle.layout.specs.Rows.{ascends, AreApart};

/// The fields don't overlap: those of a control file end before its CRC, and those of a checkpoint
/// copy within its 88 bytes.
pub fn fields_apart()
    ensures order { (control : Control) → ascends 0 (rows_of control) 288 ≡ true }
    ensures apart { (control : Control) → AreApart (rows_of control) 288 }

    ensures copy_order { (cp : Checkpoint) → ascends 0 (checkpoint_rows 0 cp) 88 ≡ true }
    ensures copy_apart { (cp : Checkpoint) → AreApart (checkpoint_rows 0 cp) 88 }
{}
