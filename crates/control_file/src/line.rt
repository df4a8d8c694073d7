//! Lines of a label and a value.

ghost use Rattle.std.specs.Prelude.{◌≡◌, ◌-◌, ◌++◌, length, replicate, IfOk, IfSome, string_bytes};
ghost use Rattle.control_file.specs.Text.{line};
ghost use Rattle.control_file.specs.Time.{time_text};

use crate::time::push_time;
use std::alloc::AllocError;
use std::fmt;

/// The width of the labels: a value starts in the column behind.
const LABELS: usize = 38;

/// Appends a line.
pub fn push_line<V: fmt::Display>(
    out: &mut String,
    label: &str,
    value: &V,
) -> Result<(), AllocError>
    ensures { IfOk result (λ _. IfSome (V.output value.now) (λ text.
        string_bytes out.new ≡ string_bytes out.old ++ line label.now text)) }
{
    push_label(out, label)?;
    writeln!(out, "{value}")
}

/// Appends a line whose value is a time.
pub fn push_time_line(out: &mut String, label: &str, seconds: i64) -> Result<(), AllocError>
    ensures { IfOk result (λ _.
        string_bytes out.new ≡ string_bytes out.old ++ line label.now (time_text seconds)) }
{
    push_label(out, label)?;
    push_time(out, seconds)?;
    out.push('\n')
}

/// Appends a label, and spaces up to the column of the values.
fn push_label(out: &mut String, label: &str) -> Result<(), AllocError>
    ensures { IfOk result (λ _. string_bytes out.new ≡
        string_bytes out.old ++ (label.now ++ replicate (38 - length label.now) 32)) }
{
    out.push_str(label)?;
    for _space in 0..LABELS.saturating_sub(label.len()) {
        out.push(' ')?;
    }
    Ok(())
}

/// A transaction id with its epoch, which shows as the two with a colon between.
#[derive(Clone, Copy, Debug)]
pub struct Xid(pub u64);

impl fmt::Display for Xid {
    ghost use Rattle.std.specs.Prelude.{Some};
    ghost use Rattle.control_file.specs.Text.{xid_text};

    ghost output = { λ xid. Some (xid_text xid.0) };

    fn fmt<W: fmt::Write>(&self, f: &mut fmt::Formatter<W>) -> fmt::Result {
        let epoch = self.0 >> 32;
        let low = self.0 % 0x1_0000_0000;
        write!(f, "{epoch}:{low}")
    }
}
