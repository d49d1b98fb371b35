ghost use Rattle.pa_step_order.specs.Laws.{TimelineFollows};
ghost use Rattle.pa_step_order.specs.Shapes.{ShapesHaveSigns};
ghost use Rattle.pa_step_order.specs.Signs.{SegmentsFollow};

/// A run of which all layers say what they must has a timeline, if each record's log segment has its steps in their order and the seat at
/// the end has no Own that isn't clean: all steps of the run are in one order, in which each found what the steps before it left, and each
/// read gave what its word contained then.
pub fn timeline_follows()
    ensures { TimelineFollows }
{}

/// A log segment that is what its answer requires, and has its counted step and its entries in lists in their order,
/// has its record's steps in their order.
pub fn segments_follow()
    ensures { SegmentsFollow }
{}

/// Log segments of the shapes that ops give them have their record's counted step and entries in their order.
pub fn shapes_have_signs()
    ensures { ShapesHaveSigns }
{}
