//! Resource managers by their names.

ghost use Rattle.std.specs.Prelude.{◌≡◌, ◌≤◌, Some, IsTrue};
ghost use Rattle.std.specs.Str.{str_eq_ignore_ascii_case};
ghost use Rattle.rmgr_desc.specs.Managers.{manager_name_of};
ghost use Rattle.rmgr_desc.specs.Naming.{manager_named, names_manager};

use crate::managers::listed_name;

/// The number of the resource manager that a text names, whatever the case of its letters: one of the
/// 22 names that `manager_name` gives, or `custom128` to `custom255`. `None` for every other text.
#[tactic(auto, using(crate::proofs::NamingLemmas::none_found), unfolding(crate::specs::Naming::manager_named))]
pub fn manager_named(name: &str) -> Option<u8>
    ensures value { result ≡ manager_named name.now }
{
    for manager in 0..=255 {
        if is_name_of(name, manager) {
            return Some(manager);
        }
    }
    None
}

#[tactic(auto, unfolding(crate::specs::Managers::manager_name_of))]
fn is_name_of(name: &str, manager: u8) -> bool
    ensures { result ≡ names_manager name.now manager }
{
    if manager < 22 {
        is_same(name.as_bytes(), listed_name(manager).as_bytes())
    } else {
        manager >= 128 && is_same(name.as_bytes(), &custom_name(manager))
    }
}

fn is_same(name: &[u8], other: &[u8]) -> bool
    ensures { result ≡ str_eq_ignore_ascii_case name.now other.now }
{
    name.eq_ignore_ascii_case(other)
}

// Numbers from 128 on have three digits.
#[tactic(auto, using(crate::proofs::NamingLemmas::custom_name_is))]
fn custom_name(manager: u8) -> [u8; 9]
    requires { 128 ≤ manager }
    ensures { result ≡ manager_name_of manager }
{
    let hundreds = b'0' + manager / 100;
    let tens = b'0' + manager / 10 % 10;
    let ones = b'0' + manager % 10;
    [b'c', b'u', b's', b't', b'o', b'm', hundreds, tens, ones]
}

/// A law: a text names at most one manager, so whatever names it is read as it.
pub fn a_name_is_one_manager(name: &str, manager: u8)
    requires { IsTrue (names_manager name.now manager) }
    ensures { manager_named name.now ≡ Some manager }
{}
