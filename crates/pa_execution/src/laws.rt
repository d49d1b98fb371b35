//! Laws of executions: calls that do nothing, but have proved clauses.
ghost use Rattle.pa_execution.specs.Example.{SmallCourseFits};
ghost use Rattle.pa_execution.specs.Lines.{CoursesTellLines, CoursesTellLists};
ghost use Rattle.pa_execution.specs.Gathering.{OneLendsAgain, WorkersTell, WorkersHear};
ghost use Rattle.pa_execution.specs.Growing.{CoursesGrow, TurnsGrow};
ghost use Rattle.pa_execution.specs.Telling.{CoursesTellAll, CoursesTellCells, CoursesTellHeap};
ghost use Rattle.pa_execution.specs.Telling.{CoursesTellPool, CoursesTellRoots, CoursesTellRunner, CoursesTellTimeline};
ghost use Rattle.pa_execution.specs.Turns.{AllTurnsGo};
ghost use Rattle.pa_execution.specs.Telling.{CoursesLeaveNonePast, TurnsTell, WorkersHaveTheirs};

/// In an execution the ops of workers meet their obligations.
pub fn courses_tell_heap()
    ensures { CoursesTellHeap }
{}

/// In an execution the runner meets its obligations.
pub fn courses_tell_runner()
    ensures { CoursesTellRunner }
{}

/// In an execution the pool meets its obligations, if its type keeps what it does.
pub fn courses_tell_pool()
    ensures { CoursesTellPool }
{}

/// In an execution the roots meet their obligations, if their types keep what they do.
pub fn courses_tell_roots()
    ensures { CoursesTellRoots }
{}

/// In an execution the cells meet their obligations, if their type keeps what it does.
pub fn courses_tell_cells()
    ensures { CoursesTellCells }
{}

/// All layers meet their obligations in an execution with a right report.
pub fn courses_tell_all()
    ensures { CoursesTellAll }
{}

/// An execution with a right report has a timeline, if slots flow in it and the closing seat has no Own that isn't clean: all its steps
/// are in one order, in which each found what the steps before it left, and each read gave what its word contained then.
pub fn courses_tell_timeline()
    ensures { CoursesTellTimeline }
{}

/// A line of the report is right but for its cached slots if it is what the workers counted, what was added to the totals words,
/// and a root's census.
pub fn courses_tell_lines()
    ensures { CoursesTellLines }
{}

/// If threads play beside each other, their ops meet their obligations for the threads' lists, and the cached slots of a line of the
/// report are right if they are what the workers' lists have.
pub fn courses_tell_lists()
    ensures { CoursesTellLists }
{}

/// Each worker has the records of its thread, in order, and only titles which go back are uncut.
pub fn workers_have_theirs()
    ensures { WorkersHaveTheirs }
{}

/// An execution leaves the list of a partition past the trace's empty.
pub fn courses_leave_none_past()
    ensures { CoursesLeaveNonePast }
{}

/// In an execution by turns the main seat has heard all after each line, and each record's seat has seen what those before hand on.
pub fn turns_tell()
    ensures { TurnsTell }
{}

/// The turns of a trace go through it in order, and each phase ends with a turn, whether a turn is a phase or a line.
pub fn all_turns_go()
    ensures { AllTurnsGo }
{}

/// The law by which an execution grows, a turn at a time.
pub fn turns_grow()
    ensures { TurnsGrow }
{}

/// The law by which an execution of threads that play beside each other grows, a phase at a time.
pub fn courses_grow()
    ensures { CoursesGrow }
{}

/// A seat that takes the notes of all workers has every stake, and has seen what they have.
pub fn workers_tell()
    ensures { WorkersTell }
{}

/// A worker that gets its stake back from that seat has seen what the seat has.
pub fn workers_hear()
    ensures { WorkersHear }
{}

/// A main seat that has heard all has heard all again when one worker alone had its stake back from it and lent it again.
pub fn one_lends_again()
    ensures { OneLendsAgain }
{}

/// A small execution, worked out by hand, meets all that is required of one, so the laws aren't about nothing: all layers meet
/// their obligations, and the run is legal.
pub fn small_course_fits()
    ensures { SmallCourseFits }
{}
