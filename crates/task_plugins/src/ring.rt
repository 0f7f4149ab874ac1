//! The ring of tasks.
ghost use Rattle.std.specs.Prelude.{◌≡◌, IfOk};
ghost use Rattle.typed_object.specs.Ground.{kernel_space};
ghost use Rattle.task_plugins.specs.Tasks.{task_walk};

use kernel_records::{Need, Stop};
use list_walk::{Shape, Walk};
use std::alloc::Global;
use typed_object::{Ground, offset_of};

/// A walk over the tasks of a kernel, or why there are none: `Outside` with the address of the kernel's task where the
/// ring's head in it stands above 2^64 - 1. It takes no memory.
#[tactic(auto, unfolding(crate::specs::Tasks::task_walk))]
pub(crate) fn task_walk(alloc: Global, ground: Ground<'_, '_>) -> Result<Walk, Stop>
    ensures walk { result ≡ task_walk ground.entry.table.now ground.entry.kernel }
    ensures space { IfOk result (λ walk. walk.space ≡ kernel_space ground.entry.kernel) }
{
    let at = ground.kernel.task;
    let back = offset_of(ground.needed_member(Need::TaskStructTasks));
    let Some(head) = at.checked_add(back) else {
        return Err(Stop::Outside { at });
    };
    let shape = Shape {
        back,
        next: offset_of(ground.needed_member(Need::ListHeadNext)),
    };
    Ok(Walk::ring(alloc, ground.space(), head, shape))
}
