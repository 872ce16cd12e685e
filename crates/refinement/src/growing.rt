// Lists of lists, each of which grows at its end.
ghost use Rattle.std.specs.Prelude.{◌≡◌, ◌<◌, [], length, IfOk, OnOk, replicate};
ghost use Rattle.refinement.specs.Marking.{with_one};

use des_base::{ListOf, Memory};
use std::alloc::Global;

/// So many empty lists.
pub fn no_lists<T: Drop>(alloc: Global, count: u32) -> Result<Vec<ListOf<T>>, Memory>
    ensures { IfOk result (λ lists. lists.items ≡ replicate count []) }
{
    let mut lists = Vec::new(alloc);
    for _ in 0..count {
        lists.push(ListOf::new(alloc))?;
    }
    Ok(lists)
}

/// Appends to the list at a place.
pub fn append_at<T: Drop>(lists: &mut Vec<ListOf<T>>, at: u32, item: T) -> Result<(), Memory>
    requires { at < length lists.old.items }
    ensures { OnOk result (lists.new.items ≡ with_one lists.old.items at item) }
{
    lists[at as usize].push(item)?;
    Ok(())
}
