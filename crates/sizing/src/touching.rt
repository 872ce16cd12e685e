// How many events touch each component.
ghost use Rattle.std.specs.Prelude.{◌≡◌, ◌<◌, ◌+◌, ◌^◌, ℕ, All, false, if◌then◌else◌, length, slice_index_or};
ghost use Rattle.des_net.specs.Building.{repeats};
ghost use Rattle.des_net.specs.Network.{has_part};
ghost use Rattle.des_net.specs.QuestionSize.{touching_count};

use des_base::EventId;
use des_net::{MOST_COMPONENTS, Network, Part};

// For each number of a component, how many events touch it: counted event by event, since few components are touched by one.
pub fn touching_counts(net: &Network) -> [u32; MOST_COMPONENTS]
    ensures { (c : ℕ) → c < length net.now.components → slice_index_or result c 0 ≡ touching_count net.now c }
{
    net.is_built();
    let mut counts = [0; MOST_COMPONENTS];
    for event in 0..net.events() {
        count_touched(&mut counts, net.event(EventId(event)).parts.as_slice());
    }
    counts
}

// Counts one more for each component that has a part.
fn count_touched(counts: &mut [u32; MOST_COMPONENTS], parts: &[Part])
    requires once { repeats parts.now ≡ false }
    requires known { All (λ part. part.comp < MOST_COMPONENTS) parts.now }
    requires few { (c : ℕ) → slice_index_or counts.old c 0 + length parts.now < 2 ^ 32 }
    ensures { (c : ℕ) → slice_index_or counts.new c 0 ≡ slice_index_or counts.old c 0 + (if has_part parts.now c then 1 else 0) }
{
    for part in parts {
        counts[part.comp.0 as usize] += 1;
    }
}
