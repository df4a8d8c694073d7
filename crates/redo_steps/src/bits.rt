//! The bits of a tuple's infomasks.

ghost use Rattle.std.specs.Prelude.{ℕ, ◌≡◌, ◌<◌};
ghost use Rattle.redo_steps.specs.Bits.{told_infomask, told_infomask2, hot_off, hot_on, without_combo};

/// `t_infomask` as the record tells of xmax.
pub fn told_infomask(old: usize, infobits: u8) -> usize
    requires { old < 65536 }
    ensures value { result ≡ told_infomask infobits old }
    ensures bound { result < 65536 }
{
    let info = infobits as usize;
    let kept = old / 0x2000 % 2 * 0x2000
        + old / 0x100 % 4 * 0x100
        + old / 0x20 % 2 * 0x20
        + old % 0x10;
    let told = info / 1 % 2 * 0x1000
        + info / 2 % 2 * 0x80
        + info / 4 % 2 * 0x40
        + info / 8 % 2 * 0x10;
    kept + told
}

/// `t_infomask2` as the record tells of xmax.
pub fn told_infomask2(old: usize, infobits: u8) -> usize
    requires { old < 65536 }
    ensures value { result ≡ told_infomask2 infobits old }
    ensures bound { result < 65536 }
{
    let info = infobits as usize;
    old / 0x4000 * 0x4000 + info / 0x10 % 2 * 0x2000 + old % 0x2000
}

/// `t_infomask2` of a tuple without a heap-only version after it.
pub fn hot_off(old: usize) -> usize
    requires { old < 65536 }
    ensures value { result ≡ hot_off old }
    ensures bound { result < 65536 }
{
    old / 0x8000 * 0x8000 + old % 0x4000
}

/// `t_infomask2` of a tuple with a heap-only version after it.
pub fn hot_on(old: usize) -> usize
    requires { old < 65536 }
    ensures value { result ≡ hot_on old }
    ensures bound { result < 65536 }
{
    old / 0x8000 * 0x8000 + old % 0x4000 + 0x4000
}

/// `t_infomask` of a tuple whose command id is one.
pub fn without_combo(old: usize) -> usize
    requires { old < 65536 }
    ensures value { result ≡ without_combo old }
    ensures bound { result < 65536 }
{
    old / 0x40 * 0x40 + old % 0x20
}
