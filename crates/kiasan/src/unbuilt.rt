//! What is not built yet, and is refused by 50 until it is.

ghost use Rattle.kb_link.specs.Targets.{IsTargetOf};
ghost use Rattle.kb_world.specs.Reach.{IsAccepted};
ghost use Rattle.kiasan.specs.Exploring.{IsBuiltReport};
ghost use Rattle.kiasan.specs.Orders.{IsBuiltJob};
ghost use Rattle.kiasan.specs.Reach.{TargetRefuses};
ghost use Rattle.kiasan.specs.Refusals.{Gives};

use crate::refusals::Stop;
use crate::reports::report_of;
use kb_class::MethodId;
use kb_drive::is_heap_method;
use kb_refusals::Refusal;
use kb_report_text::Report;
use kb_rows::Held;
use kb_words::Job;
use kb_world::World;
use std::alloc::Global;

/// The report of a job's method, where its exploration is built.
#[tactic(auto, using(crate::proofs::JobLaws::unbuilt_target))]
pub fn built_report(
    alloc: Global,
    world: &World,
    job: &Job,
    id: MethodId,
) -> Result<Held<Report>, Stop>
    requires found { IsTargetOf world.now job.now.target id }
    requires accepted { IsAccepted world.now id }
    requires job { IsBuiltJob job.now }
    ensures { Gives ⊥ (TargetRefuses world.now job.now.target) (IsBuiltReport world.now job.now) result }
{
    if !is_heap_method(world, id) {
        return Err(Stop::Refused(Refusal::Unbuilt));
    }
    Ok(report_of(alloc, world, job, id)?)
}
