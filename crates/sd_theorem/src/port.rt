// What is known of a world behind a port.
ghost use Rattle.std.specs.Prelude.{◌≡◌, List};
ghost use Rattle.sd_port.specs.Port.{PortDeed, asked_in, world_deeds_in};
ghost use Rattle.sd_theorem.specs.Headline.{IsOfLists};
ghost use Rattle.sd_theorem.specs.Start.{Start, IsMadeOf};
ghost use Rattle.std.specs.Global.{Global as TheGlobal};

use crate::laws::headline;
use sd_driver::Driver;
use sd_lane::Lanes;
use sd_port::{WorldPort, port_leads};
use sd_spool::SpoolStore;
use std::alloc::Global;

/// What a port did, in what it was asked and between, is of lists: the session theorem holds of its world. Does nothing.
pub fn know_lists<D: Driver + Drop, Q: Lanes, S: SpoolStore + Drop>(port: &WorldPort<D, Q, S>)
    ensures { (start : Start D Q S TheGlobal)
        → IsMadeOf (record {
          device = λ d. D.meaning d;
          queue = λ q. record { lanes = Q.lanes q; capacity = Q.capacity q; held = Q.held q };
          store = λ s. S.meaning s;
        }) start port.now.opening
        → (deeds : List PortDeed) × (port.now.asked ≡ asked_in deeds)
        × IsOfLists (record {
          device = λ d. D.meaning d;
          queue = λ q. record { lanes = Q.lanes q; capacity = Q.capacity q; held = Q.held q };
          store = λ s. S.meaning s;
        }) start (world_deeds_in deeds) port.now.world }
{
    port.know();
    port_leads::<D>();
    headline::<D, Q, S, Global>();
}
