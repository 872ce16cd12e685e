// What is asked about: which runs of a network explain a log.

use des_net::Network;
use log_order::AlarmLog;
use std::alloc::Global;

/// A network and a log, and where the memory for answers comes from.
#[derive(Clone, Copy)]
pub struct Question<'a> {
    pub net: &'a Network,
    pub log: &'a AlarmLog,
    pub alloc: Global,
}
