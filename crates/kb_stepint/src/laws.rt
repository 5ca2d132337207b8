//! What holds of the int steps of every state. The functions do nothing: they carry the laws.
ghost use Rattle.std.specs.Prelude.{◌≡◌, true};
ghost use Rattle.kb_class.specs.declared.ids.MethodId.{MethodId};
ghost use Rattle.kb_link.specs.Links.{IsLinked};
ghost use Rattle.kb_classes.specs.World.{World};
ghost use Rattle.kb_picture.specs.declared.choice.Choice.TheVariants.{Only};
ghost use Rattle.kb_picture.specs.declared.choice.Init.{Init};
ghost use Rattle.kb_frames.specs.Next.{next_is_int};
ghost use Rattle.kb_frames.specs.State.{State, start_state};
ghost use Rattle.kb_stepint.specs.Choices.{choices_of};
ghost use Rattle.kb_stepint.specs.IntMethods.{is_int_method};
ghost use Rattle.kb_ways.specs.Reached.{HasNoHandlers, IsAlone, IsReached};
ghost use Rattle.kb_stepint.specs.Laws.{OfStates, OfTakes};
ghost use Rattle.kb_ways.specs.Simulation.{AddsComparisons, AddsNoCondition, FollowsStep, GetsOn, HasInputOfState, Keeps, ReadsWhatItSees, TakesOneWay};
ghost use Rattle.kb_stepint.specs.Takes.{taken};

/// A method that is one over ints begins with a state that is reached (`begins`), it has no handlers (`unhandled`), and each
/// reached state of it whose frame has no callers comes to an int step next (`steps`).
pub fn int_methods_begin()
    ensures begins { (world : World) (init : Init) (method : MethodId) → IsLinked world → is_int_method world method ≡ true → IsReached world (start_state init method) }
    ensures unhandled { (world : World) (method : MethodId) → is_int_method world method ≡ true → HasNoHandlers world method }
    ensures steps { (world : World) (state : State) → IsReached world state → IsAlone state.method state.stage → is_int_method world state.method ≡ true → next_is_int world state ≡ true }
{}

/// The int steps of a state simulate the step of the machine. Of each configuration that the state stands for exactly one
/// alternative is taken (`one`), and the take goes where the machine's step goes (`outcome`).
pub fn int_steps_simulate()
    ensures one { OfStates (λ world bounds state. TakesOneWay world bounds state (choices_of world state bounds) (taken world bounds state)) }
    ensures outcome { OfTakes (λ world bounds state take. FollowsStep world bounds state take) }
{}

/// What a take keeps, and what it adds: terms, conditions and shapes stay (`kept`), and an input can be made of the picture
/// (`picture`); each condition that is added is on a comparison that the step makes (`compared`), and each slot that is added
/// as seen is one that the step reads (`read`).
pub fn int_steps_keep()
    ensures kept { OfTakes (λ world bounds state take. Keeps state take.state) }
    ensures picture { OfTakes (λ world bounds state take. HasInputOfState world take.state) }
    ensures compared { OfTakes (λ world bounds state take. AddsComparisons world bounds state take.state) }
    ensures read { OfTakes (λ world bounds state take. ReadsWhatItSees world bounds state take.state) }
{}

/// The only way on adds no condition: one is added where something was chosen.
pub fn int_steps_without_choice_add_no_condition()
    ensures { OfStates (λ world bounds state. AddsNoCondition state (taken world bounds state Only).state) }
{}

/// Each take leaves fewer choices before the same instruction, or has carried out one more: so an exploration ends.
pub fn int_steps_get_on()
    ensures { OfTakes (λ world bounds state take. GetsOn world state take.state take.outcome) }
{}
