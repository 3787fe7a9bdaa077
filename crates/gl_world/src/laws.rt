//! The laws of the machine, each the contract of a function that does nothing.
ghost use Rattle.gl_world.specs.Enabled.{StepsWhereEnabled};
ghost use Rattle.gl_world.specs.Machine.{EveryScheduleKeepsOrder};
ghost use Rattle.gl_world.specs.Headline.{StaysSound, EverySoundDrainedStateReportsWhatWasTaken, EveryDrainedScheduleReportsWhatWasTaken, ReportsDontShowTheSchedule, LoopsDontShowTheSchedule};

/// A step does something exactly where it is enabled: a thread takes a wish while it hasn't ended, if
/// the wish is unlawful or there is room; it ends if there is room; a note is pulled if there is
/// one; any other note that is there can be offered again; an edge is shipped if its shard's feed has
/// a place, and worked if one is there. A step that does nothing changes nothing.
pub fn steps_do_something_where_enabled()
    ensures { StepsWhereEnabled }
{}

/// After every list of steps from a new world: each collected note was its thread's next one, and
/// none follows its thread's end mark; what is collected of a thread is how what it took begins; and
/// a note that is offered once more or too early is never accepted.
pub fn every_schedule_keeps_order()
    ensures { EveryScheduleKeepsOrder }
{}

/// What holds of a state after any steps holds of a new world, and each step keeps it. It says which
/// notes a lane and the stream have, that the edges made are those of what was collected, and that
/// each shard was shipped its own of the first of them, in their order. Whoever makes the steps in
/// another way than a [`World`](crate::World) does, as running threads do, has each thread's order by
/// showing this of the state that they make together.
pub fn every_step_keeps_a_state_sound()
    ensures { StaysSound }
{}

/// However it came about, a sound state that is drained reports what its threads took: each log is
/// what the thread took, the tables hold exactly the edges of these lists, and the report is the
/// Goodlock report of them.
pub fn sound_drained_states_report_what_was_taken()
    ensures { EverySoundDrainedStateReportsWhatWasTaken }
{}

/// **The report doesn't depend on timing.** Whatever steps lead from a new world to a drained state,
/// in whatever order, with however many shards: each thread's log is what the thread took; the
/// tables hold exactly the edges of these lists, with their samples; and so the report is the
/// Goodlock report of what the threads took. Two drained states in which the threads took the same
/// have the same report, samples included; where a loop of segments stands against a report, the
/// least segment before itself is the same.
///
/// It isn't said that any steps drain a world.
pub fn every_drained_schedule_reports_what_was_taken()
    ensures taken { EveryDrainedScheduleReportsWhatWasTaken }
    ensures reports { ReportsDontShowTheSchedule }
    ensures loops { LoopsDontShowTheSchedule }
{}
