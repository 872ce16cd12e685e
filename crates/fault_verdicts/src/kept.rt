// What events are judged by, and what is carried from one to the next.
use des_net::Network;
use least_faults::{Best, Parts};
use log_order::AlarmLog;
use proof_ledger::Ledger;
use replay::Run;
use std::alloc::Global;

// A network and a log, a best run that explains it, what each question may learn, and where memory comes from.
#[derive(Clone, Copy)]
pub struct About<'a> {
    pub net: &'a Network,
    pub log: &'a AlarmLog,
    pub best: &'a Best,
    pub budget: u64,
    pub alloc: Global,
}

// What is carried from one event to the next: the parts of the question, the book with its clauses, and the best runs that were found beside the known one.
#[derive(Drop)]
pub struct Carried<R> {
    pub parts: Parts<R>,
    pub book: Ledger,
    pub others: Vec<Run>,
}
