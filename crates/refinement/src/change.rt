// What an event does to a follower.
use crate::effect::Effect;

/// What an event does to a component that is in `yes` while another is in some state, and else in `no`.
#[derive(Clone, Copy, PartialEq, Eq)]
pub enum FollowerChange {
    /// Nothing: the event has no part of it.
    Idle,
    Enter,
    Leave,
    Stay,
    Flip,
    Clear,
    Set,
}

impl FollowerChange {
    /// All but `Idle`.
    pub const ALL: [FollowerChange; 6] = [
        FollowerChange::Enter,
        FollowerChange::Leave,
        FollowerChange::Stay,
        FollowerChange::Flip,
        FollowerChange::Clear,
        FollowerChange::Set,
    ];

    /// The change by which the other component's action has this effect; none if what comes after doesn't follow from what was before.
    pub fn of(effect: &Effect) -> Option<FollowerChange> {
        match (
            effect.stays_out,
            effect.enters,
            effect.leaves,
            effect.stays_in,
        ) {
            (true, false, false, _) => Some(FollowerChange::Idle),
            (false, true, false, false) => Some(FollowerChange::Enter),
            (false, false, true, false) => Some(FollowerChange::Leave),
            (false, false, false, true) => Some(FollowerChange::Stay),
            (false, true, true, false) => Some(FollowerChange::Flip),
            (true, false, true, false) => Some(FollowerChange::Clear),
            (false, true, false, true) => Some(FollowerChange::Set),
            _ => None,
        }
    }

    /// The name of the action.
    pub fn name(self) -> &'static str {
        match self {
            FollowerChange::Idle => "idle",
            FollowerChange::Enter => "enter",
            FollowerChange::Leave => "leave",
            FollowerChange::Stay => "stay",
            FollowerChange::Flip => "flip",
            FollowerChange::Clear => "clear",
            FollowerChange::Set => "set",
        }
    }

    /// The lines of the transitions that take the action.
    pub fn lines(self) -> &'static str {
        match self {
            FollowerChange::Idle => "",
            FollowerChange::Enter => "trans no enter yes\n",
            FollowerChange::Leave => "trans yes leave no\n",
            FollowerChange::Stay => "trans yes stay yes\n",
            FollowerChange::Flip => "trans no flip yes\ntrans yes flip no\n",
            FollowerChange::Clear => "trans no clear no\ntrans yes clear no\n",
            FollowerChange::Set => "trans no set yes\ntrans yes set yes\n",
        }
    }

    /// How many transitions take the action.
    pub fn transitions(self) -> usize {
        match self {
            FollowerChange::Idle => 0,
            FollowerChange::Enter | FollowerChange::Leave | FollowerChange::Stay => 1,
            FollowerChange::Flip | FollowerChange::Clear | FollowerChange::Set => 2,
        }
    }
}
