ghost use Rattle.pa_delay.specs.Laws.{DelayedFlow, NoBytesNoDelay, NoneIsIssuedWhileItWaits, QueuesFit, WaitsSomewhere};
ghost use Rattle.pa_delay.specs.Worked.{OneWaits};

/// The law that after each record of a delayed run each thread's queue has at most the run's bytes.
pub fn queues_fit()
    ensures { QueuesFit }
{}

/// The law that a delayed run for 0 bytes is the run of the trace in the order of its lines.
pub fn no_bytes_no_delay()
    ensures { NoBytesNoDelay }
{}

/// The law that slots flow in a delayed run as the laws of a legal run need it.
pub fn delayed_flow()
    ensures { DelayedFlow }
{}

/// The law that in a delayed run a slot in a queue is free, and no record issues it there.
pub fn none_is_issued_while_it_waits()
    ensures { NoneIsIssuedWhileItWaits }
{}

/// The law that after a delayed run each free slot that is out of its root is in some thread's lists or queue.
pub fn waits_somewhere()
    ensures { WaitsSomewhere }
{}

/// In a delayed run that was worked out by hand, for 16 bytes, a slot waits until another comes: rows and report are as defined.
pub fn one_waits()
    ensures { OneWaits }
{}
