//! The answers of workers who took turns, brought back into the order of their pieces.

ghost use Rattle.std.specs.Prelude.{◌≡◌, map, Ok, IfOk};
ghost use Rattle.kb_workers.specs.Turns.{merged, TakesTurn};

use crate::NoMemory;
use crate::queue::Queue;
use std::alloc::Global;

/// The lists of all workers, where no worker lacked memory.
pub fn gathered<R: Drop>(
    alloc: Global,
    done: Vec<Result<Queue<R>, NoMemory>>,
) -> Result<Queue<Queue<R>>, NoMemory>
    ensures { IfOk result (λ lists. done.items ≡ map Ok lists) }
{
    let mut lists = Queue::new(alloc);
    for list in done {
        lists.push_back(list?)?;
    }
    Ok(lists)
}

/// So many items, one of each list in turn.
pub fn merge<R: Drop>(
    alloc: Global,
    mut lists: Queue<Queue<R>>,
    count: usize,
) -> Result<Vec<R>, NoMemory>
    ensures { IfOk result (λ all. all.items ≡ merged count lists) }
{
    let mut all = Vec::new(alloc);
    for _ in 0..count {
        let Some(item) = take_turn(&mut lists)? else {
            return Ok(all);
        };
        all.push(item)?;
    }
    Ok(all)
}

// The first item of the first list, which then stands behind the others.
fn take_turn<R: Drop>(lists: &mut Queue<Queue<R>>) -> Result<Option<R>, NoMemory>
    ensures { IfOk result (λ item. TakesTurn lists.old item lists.new) }
{
    let Some(mut list) = lists.pop_front() else {
        return Ok(None);
    };
    let item = list.pop_front();
    lists.push_back(list)?;
    Ok(item)
}
