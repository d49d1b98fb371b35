ghost use Rattle.pa_slot_effects.specs.Laws.{CopyGoesOn, EndsRight, FreeGoesOn, HandleLets, LikeIsTold, LookGoesOn, MadeGoesOn, NoneGoesOn, PhaseGoesOn, ResetGoesOn, StartsTold, SwapGoesOn, WriteGoesOn};
ghost use Rattle.pa_slot_effects.specs.Worked.{WorkedTurns};

/// The law that before the first line nothing is reported.
pub fn starts_told()
    ensures { StartsTold }
{}

/// The law that two states that look the same were left by the same records.
pub fn like_is_told()
    ensures { LikeIsTold }
{}

/// The law that a line which begins a phase changes nothing.
pub fn phase_goes_on()
    ensures { PhaseGoesOn }
{}

/// The law that an op that reports no slot changes nothing.
pub fn none_goes_on()
    ensures { NoneGoesOn }
{}

/// The law that a look changes nothing.
pub fn look_goes_on()
    ensures { LookGoesOn }
{}

/// The law that an allocation goes on as the records say.
pub fn made_goes_on()
    ensures { MadeGoesOn }
{}

/// The law that a copy goes on as the records say.
pub fn copy_goes_on()
    ensures { CopyGoesOn }
{}

/// The law that a reset goes on as the records say.
pub fn reset_goes_on()
    ensures { ResetGoesOn }
{}

/// The law that a free goes on as the records say.
pub fn free_goes_on()
    ensures { FreeGoesOn }
{}

/// The law that a write goes on as the records say.
pub fn write_goes_on()
    ensures { WriteGoesOn }
{}

/// The law that an exchange with a cell goes on as the records say.
pub fn swap_goes_on()
    ensures { SwapGoesOn }
{}

/// The law that the step of a thread's handle can be made.
pub fn handle_lets()
    ensures { HandleLets }
{}

/// The law that what was reported so far is as the rules require.
pub fn ends_right()
    ensures { EndsRight }
{}

/// The law that the turns of a slot which is made, pointed to, freed and reset go on one after the other.
pub fn worked_turns()
    ensures { WorkedTurns }
{}
