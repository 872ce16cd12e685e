// The log's calls when it refuses nothing, so that they fail only if memory runs out.
ghost use Rattle.std.specs.Prelude.{◌≡◌, None, [], ◌∷◌, length, false, IfOk, OnOk};
ghost use Rattle.log_order.specs.Adding.{alarm_refusal, with_alarm, before_refusal, with_pair};

use des_base::{Memory, Name};
use log_order::{AlarmLog, LogRefusal};

// The one refusal that is left. It has no `ensures`: a `Memory` has one value.
fn only_memory(refusal: LogRefusal) -> Memory
    requires { refusal ≡ LogRefusal.Memory }
{
    match refusal {
        LogRefusal::Memory => Memory,
        _ => unreachable!(),
    }
}

// Adds an alarm of one label, and returns its number.
pub fn add_alarm(log: &mut AlarmLog, id: Name, label: Name) -> Result<u32, Memory>
    requires free { alarm_refusal log.old id (label ∷ []) ≡ None }
    ensures ok { OnOk result (log.new ≡ with_alarm log.old id (label ∷ []) false) }
    ensures place { IfOk result (λ alarm. alarm ≡ length log.old.alarms) }
{
    match log.add_alarm(id, &[label]) {
        Ok(alarm) => Ok(alarm),
        Err(refusal) => Err(only_memory(refusal)),
    }
}

pub fn add_before(log: &mut AlarmLog, first: u32, second: u32) -> Result<(), Memory>
    requires free { before_refusal (length log.old.alarms) log.old.pairs first second ≡ None }
    ensures { OnOk result (log.new ≡ record log.old { pairs = with_pair log.old.pairs first second }) }
{
    match log.add_before(first, second) {
        Ok(_) => Ok(()),
        Err(refusal) => Err(only_memory(refusal)),
    }
}
