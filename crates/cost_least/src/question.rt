// What is asked about.

use des_net::Network;
use log_order::AlarmLog;
use std::alloc::Global;
use weight_counter::Scale;

// A network and a log, the scale that weighs their faults, and where the memory for answers comes from.
#[derive(Clone, Copy)]
pub struct CostQuestion<'a> {
    pub net: &'a Network,
    pub log: &'a AlarmLog,
    pub scale: Scale,
    pub alloc: Global,
}
