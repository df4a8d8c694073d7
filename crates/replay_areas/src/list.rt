// What is listed.
ghost use Rattle.std.specs.Prelude.{◌≡◌};

use replay_list::Listed;
use std::marker::Model;

/// What is listed of a cluster, which contracts see as a list of `Listed`.
#[derive(Debug, Drop)]
pub struct AreaList {
    listed: Vec<Listed>,
}

impl Model for AreaList {
    ghost use Rattle.std.specs.Prelude.{List};
    ghost use Rattle.replay_list.specs.declared.listed.Listed.{Listed};

    ghost Value = { List Listed };

    ghost view = { λ areas. areas.listed.items };
}

impl AreaList {
    /// The list of these.
    pub(crate) fn of(listed: Vec<Listed>) -> AreaList
        ensures { result ≡ listed.items }
    {
        AreaList { listed }
    }

    /// What is listed, in order.
    pub fn listed(&self) -> &[Listed]
        ensures value { result.now ≡ self.now }
    {
        &self.listed
    }
}
