ghost use Rattle.std.specs.Prelude.{◌<◌, length, map};
ghost use Rattle.rx_cost.specs.Choice.{cost_of, IsFirstLeast};

use crate::candidates::CandidateList;

/// The place, from 0, of the first candidate of least cost, which is the one that runs (MySQL manual, "The Optimizer Cost
/// Model"). Takes no memory.
pub fn choose(list: &CandidateList) -> usize
    requires { 0 < length list.now }
    ensures { IsFirstLeast (map cost_of list.now) result }
{
    let all = list.as_slice();
    let mut best = 0;
    for i in 0..all.len() {
        if all[i].cost < all[best].cost {
            best = i;
        }
    }
    best
}
