//! What a refinement promises: each question has the same answer, whichever of the two networks it is asked of.
//!
//! A refinement has more components, each of which follows an old one (`refinement`). The same words are runs of both networks, since a
//! run of the one is a run of the other without the new components, and with them once each is in the state that its old one tells. An
//! event's new parts belong to components that follow those it touches, so the same events may stand in one step.
//!
//! `specs/Behaviour.antt` says what it means that two networks behave alike, `specs/AnswerAlike.antt` that they answer alike:
//! explanations with their faults and totals, verdicts, twins; `specs/Texts.antt` has the texts of runs and of costs. The laws
//! (`specs/Laws.antt`) lead from the one to the other. They say nothing of sizes, budgets and time: a refinement is larger, and a
//! question that was within the limits may pass one.
#![tactic(auto)]

mod laws;

pub use laws::{
    behaviour_gives_answers, behaviour_gives_explanations, behaviour_gives_pieces,
    behaviour_gives_prices, behaviour_gives_replays, behaviour_gives_totals, behaviour_gives_twins,
    behaviour_gives_verdicts, networks_refine_themselves, refinements_answer_alike,
    refinements_behave_alike, refinements_go_on, refinements_have_same_runs, sharp_followers_tell,
};
