// Where the variables of an alarm stand.
ghost use Rattle.std.specs.Prelude.{◌≡◌, ◌+◌, ◌<◌, ◌≤◌, true};
ghost use Rattle.des_base.specs.ChainCount.{chain_count};
ghost use Rattle.des_base.specs.declared.TheConstants.{VAR_LIMIT};
ghost use Rattle.log_encode.specs.AlarmVariables.{closed_variable, match_variable, passed_variable, done_variable, chain_variable, dropped_variable, alarm_width, false_width, AreWithinLimit};

use card_counter::chain_count;

// Where the variables of an alarm stand: for each event that it may stand for, its link, one that ends the event's chain
// after it, and for each step one that matches it to the event and one that passes the event on. Behind the links stand those
// that say within how many steps it is done, then for each step those by which it is matched at most once there, and at the
// end, if the alarm is doubtful, one that says that it is false.
#[derive(Clone, Copy)]
pub struct AlarmVars {
    pub start: u32,
    pub links: u32,
    pub steps: u32,
    pub doubtful: bool,
}

fn false_width(doubtful: bool) -> u32
    ensures { result ≡ false_width doubtful }
{
    if doubtful { 1 } else { 0 }
}

impl AlarmVars {
    // Those of an alarm that may stand for `links` events.
    pub fn new(start: u32, links: usize, steps: u32, doubtful: bool) -> AlarmVars
        requires { AreWithinLimit (record { start = start; links = links; steps = steps; doubtful = doubtful }) }
        ensures value { result ≡ record { start = start; links = links; steps = steps; doubtful = doubtful } }
        ensures within { AreWithinLimit result }
    {
        AlarmVars {
            start,
            links: links as u32,
            steps,
            doubtful,
        }
    }

    // How many they are.
    #[tactic(auto, using(crate::proofs::VariableLemmas::count_is_small))]
    pub fn count(self) -> u32
        requires { AreWithinLimit self }
        ensures { result ≡ alarm_width self }
    {
        self.links * (1 + self.steps * 2)
            + (1 + self.steps + self.steps * chain_count(self.links))
            + false_width(self.doubtful)
    }

    // Ends the chain after a link.
    #[tactic(auto, using(crate::proofs::VariableLemmas::link_is_small))]
    pub fn closed(self, link: u32) -> u32
        requires within { AreWithinLimit self }
        requires link { link < self.links }
        ensures variable { result ≡ closed_variable self link }
        ensures small { result < VAR_LIMIT }
    {
        self.start + link * (1 + self.steps * 2)
    }

    // Matches the alarm to the event of a link in the step after `step` steps.
    #[tactic(auto, using(crate::proofs::VariableLemmas::link_is_small))]
    pub fn matched(self, link: u32, step: u32) -> u32
        requires within { AreWithinLimit self }
        requires link { link < self.links }
        requires step { step < self.steps }
        ensures variable { result ≡ match_variable self link step }
        ensures small { result < VAR_LIMIT }
    {
        self.start + (link * (1 + self.steps * 2) + (1 + step * 2))
    }

    // Passes the event of a link on in the step after `step` steps.
    #[tactic(auto, using(crate::proofs::VariableLemmas::link_is_small))]
    pub fn passed(self, link: u32, step: u32) -> u32
        requires within { AreWithinLimit self }
        requires link { link < self.links }
        requires step { step < self.steps }
        ensures variable { result ≡ passed_variable self link step }
        ensures small { result < VAR_LIMIT }
    {
        self.start + (link * (1 + self.steps * 2) + (1 + (step * 2 + 1)))
    }

    // The first of those that pass the event of a link on.
    #[tactic(auto, using(crate::proofs::VariableLemmas::link_is_small))]
    pub fn first_passed(self, link: u32) -> u32
        requires within { AreWithinLimit self }
        requires link { link < self.links }
        ensures { result ≡ passed_variable self link 0 }
    {
        self.start + (link * (1 + self.steps * 2) + 2)
    }

    // Says that the alarm is done within `steps` steps: matched, or false.
    #[tactic(auto, using(crate::proofs::VariableLemmas::count_is_small))]
    pub fn done(self, steps: u32) -> u32
        requires within { AreWithinLimit self }
        requires step { steps ≤ self.steps }
        ensures variable { result ≡ done_variable self steps }
        ensures small { result < VAR_LIMIT }
    {
        self.start + (self.links * (1 + self.steps * 2) + steps)
    }

    // The first of those by which the alarm is matched at most once in the step after `step` steps.
    pub fn chain(self, step: u32) -> u32
        requires within { AreWithinLimit self }
        requires step { step < self.steps }
        ensures first { result ≡ chain_variable self step }
        ensures room { result + chain_count self.links ≤ VAR_LIMIT }
    {
        self.start
            + (self.links * (1 + self.steps * 2)
                + (1 + self.steps + step * chain_count(self.links)))
    }

    // Says that the alarm is false.
    #[tactic(auto, using(crate::proofs::VariableLemmas::count_is_small))]
    pub fn dropped(self) -> u32
        requires within { AreWithinLimit self }
        requires doubtful { self.doubtful ≡ true }
        ensures variable { result ≡ dropped_variable self }
        ensures small { result < VAR_LIMIT }
    {
        self.start
            + (self.links * (1 + self.steps * 2)
                + (1 + self.steps + self.steps * chain_count(self.links)))
    }
}
