// The alarms of a log that have a place in the order of a run.
ghost use Rattle.std.specs.Prelude.{◌≡◌, ◌<◌, [], ◌∷◌, ◌++◌, All, IfOk, IfSome, OnOk, OnErr, false};
ghost use Rattle.log_order.specs.Log.{place_in};
ghost use Rattle.log_order.specs.Precedence.{is_in};
ghost use Rattle.replay.specs.Matching.{missing_alarm, wrong_pair};
ghost use Rattle.replay.specs.Placed.{none_placed};

use des_base::Memory;
use std::alloc::Global;
use std::marker::Model;

/// The alarms of a log that have a place so far, in order.
#[derive(Drop)]
pub struct Placing {
    order: Vec<u32>,
    // for each alarm its place in the order, so that none is looked for
    places: Vec<Option<usize>>,
}

impl Model for Placing {
    ghost use Rattle.replay.specs.Placed.{Placed, placing_view, IsPlacing};

    ghost Value = { Placed };

    ghost view = { placing_view };

    ghost invariant = { IsPlacing };
}

impl Placing {
    /// None of `alarms` alarms has a place.
    pub fn new(alloc: Global, alarms: u32) -> Result<Self, Memory>
        ensures { IfOk result (λ placed. placed ≡ none_placed alarms) }
    {
        Ok(Placing {
            order: Vec::new(alloc),
            places: vec![in alloc; None; alarms as usize]?,
        })
    }

    /// Whether the alarm has a place.
    pub fn has(&self, alarm: u32) -> bool
        requires { alarm < self.now.alarms }
        ensures { result ≡ is_in self.now.order alarm }
    {
        self.places[alarm as usize].is_some()
    }

    /// Gives the next place to an alarm that has none.
    pub fn push(&mut self, alarm: u32) -> Result<(), Memory>
        requires known { alarm < self.old.alarms }
        requires fresh { is_in self.old.order alarm ≡ false }
        ensures ok { OnOk result (self.new ≡ record self.old { order = self.old.order ++ alarm ∷ [] }) }
        ensures err { OnErr result (self.new ≡ self.old) }
    {
        let place = self.order.len();
        self.order.push(alarm)?;
        self.places[alarm as usize] = Some(place);
        Ok(())
    }

    // Where the alarm stands in the order, or the order's length where it doesn't.
    fn place(&self, alarm: u32) -> usize
        requires { alarm < self.now.alarms }
        ensures { result ≡ place_in self.now.order alarm }
    {
        match self.places[alarm as usize] {
            Some(place) => place,
            None => self.order.len(),
        }
    }

    /// The least alarm without a place.
    pub fn missing(&self) -> Option<u32>
        ensures missing { result ≡ missing_alarm self.now.alarms self.now.order }
        ensures known { IfSome result (λ alarm. alarm < self.now.alarms) }
    {
        for alarm in 0..self.places.len() as u32 {
            if !self.has(alarm) {
                return Some(alarm);
            }
        }
        None
    }

    /// The first of the pairs whose first alarm doesn't stand before its second.
    pub fn wrong_pair(&self, pairs: &[(u32, u32)]) -> Option<(u32, u32)>
        requires { All (λ pair. (pair.0 < self.now.alarms) × (pair.1 < self.now.alarms)) pairs.now }
        ensures wrong { result ≡ wrong_pair self.now.order pairs.now }
        ensures known { IfSome result (λ pair. (pair.0 < self.now.alarms) × (pair.1 < self.now.alarms)) }
    {
        for pair in pairs {
            if self.place(pair.0) >= self.place(pair.1) {
                return Some(*pair);
            }
        }
        None
    }
}
