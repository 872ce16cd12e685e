// What a session keeps from call to call, and an addition that is drafted for it.
use des_net::Network;
use least_faults::Parts;
use log_encode::Draft;
use log_order::AlarmLog;
use proof_ledger::Ledger;
use std::alloc::Global;

// The network, within how many steps it is asked about, and where memory comes from.
#[derive(Clone, Copy)]
pub struct Setting<'a> {
    pub net: &'a Network,
    pub steps: u32,
    pub alloc: Global,
}

// The log so far and the size of its question, the parts of that question, and the book with its clauses.
#[derive(Drop)]
pub struct Kept<R> {
    pub log: AlarmLog,
    pub size: u64,
    pub parts: Parts<R>,
    pub book: Ledger,
}

// A draft of an addition, and the size of the question with it.
#[derive(Drop)]
pub struct Drafted {
    pub draft: Draft,
    pub size: u64,
}
