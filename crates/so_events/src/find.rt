//! A demand by its name.
ghost use Rattle.std.specs.Prelude.{◌≡◌};
ghost use Rattle.so_history.specs.Demands.{named};
ghost use Rattle.so_events.specs.Tied.{AreInOrder};

use so_history::Demand;
use so_ids::DemandId;

/// The demand of a name among these, which are in order.
pub(crate) fn find_demand(demands: &[Demand], id: DemandId) -> Option<Demand>
    requires { AreInOrder demands.now }
    ensures { result ≡ named id demands.now }
{
    let mut low = 0;
    let mut high = demands.len();
    while low < high {
        let middle = low + (high - low) / 2;
        let demand = demands[middle];
        if id.is(demand.id) {
            return Some(demand);
        }
        if demand.id.is_before(id) {
            low = middle + 1;
        } else {
            high = middle;
        }
    }
    None
}
