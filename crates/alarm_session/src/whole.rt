// What the contracts of getters say of a network, a log and a book.
ghost use Rattle.alarm_session.specs.Session.{IsKept, IsSessionBook, stage_of};

use crate::kept::{Kept, Setting};

// The book has the axioms of the question as it is built. It is valid and lean, and they pose the question of the log.
pub fn is_session_book<R>(setting: Setting<'_>, kept: &Kept<R>)
    requires { IsKept setting.net.now setting.steps kept.now }
    ensures { IsSessionBook setting.entry.net.now setting.entry.steps (stage_of kept.now) }
{
    setting.net.is_built();
    kept.log.is_whole();
    kept.book.is_valid();
    kept.parts.code.has_guards();
}
