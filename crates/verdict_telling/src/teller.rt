// What tells of a fault event: the verdict on it.
ghost use Rattle.std.specs.Prelude.{◌≡◌, ◌<◌, ◌||◌, false, length, true, IfOk};
ghost use Rattle.des_net.specs.Network.{is_fault};
ghost use Rattle.fault_verdicts.specs.Ready.{AreReadyForVerdicts};
ghost use Rattle.report.specs.VerdictTexts.{RunKnown, text_of_verdict};
ghost use Rattle.verdict_telling.specs.Replied.{is_undecided};
ghost use Rattle.verdict_telling.specs.Stages.{IsNotTold, TellsOf};

use des_base::{EventId, Memory};
use des_net::Network;
use fault_verdicts::{Judge, Verdict};
use report::print_verdict;
use std::alloc::Global;
use telling::Teller;

/// Tells of fault events by a judge, and keeps whether some event was left open.
#[derive(Drop)]
pub struct VerdictTeller<'a, R> {
    pub judge: Judge<'a, R>,
    pub open_left: bool,
}

impl<'a, R: Fn(u32) -> u64> Teller for VerdictTeller<'a, R> {
    type Item = EventId;

    ghost goes = { λ s event t text. TellsOf s event t text };

    ghost undone = { λ s event t. IsNotTold s event t };

    ghost ready = { λ s. AreReadyForVerdicts R.pre R.post s.judge.parts s.judge.book };

    fn tell(&mut self, alloc: Global, item: &EventId) -> Result<Option<Vec<u8>>, Memory> {
        let event = *item;
        let net = self.judge.net();
        if !is_fault_of(net, event) {
            return Ok(None);
        }
        let verdict = self.judge.judge(event)?;
        let text = verdict_text(alloc, net, event, &verdict)?;
        self.open_left = is_left(self.open_left, &verdict);
        Ok(Some(text))
    }
}

// Whether it is a fault event of the network.
fn is_fault_of(net: &Network, event: EventId) -> bool
    ensures yes { result ≡ true → (event < length net.now.events) × (is_fault net.now event ≡ true) }
    ensures no { result ≡ false → event < length net.now.events → is_fault net.now event ≡ true → ⊥ }
{
    if event.0 >= net.events() {
        return false;
    }
    net.is_fault(event)
}

// Whether some event was left open, by this one or one before it.
fn is_left(before: bool, verdict: &Verdict) -> bool
    ensures { result ≡ before || is_undecided verdict.now }
{
    before || is_undecided(verdict)
}

// Whether the question about an event came to no answer.
fn is_undecided(verdict: &Verdict) -> bool
    ensures { result ≡ is_undecided verdict.now }
{
    match verdict {
        Verdict::Certain => false,
        Verdict::Excluded => false,
        Verdict::Possible(_) => false,
        Verdict::Open => true,
    }
}

fn verdict_text(
    alloc: Global,
    net: &Network,
    event: EventId,
    verdict: &Verdict,
) -> Result<Vec<u8>, Memory>
    requires event { event < length net.now.events }
    requires known { RunKnown net.now verdict.now }
    ensures { IfOk result (λ text. text.items ≡ text_of_verdict net.now event verdict.now) }
{
    let mut text = Vec::new(alloc);
    print_verdict(verdict, event, net, &mut text)?;
    Ok(text)
}
