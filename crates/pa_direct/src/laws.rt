ghost use Rattle.pa_direct.specs.Shapes.{ShapesLeaveRoom};

/// The law that a direct map has room for what was requested and its count word, and for a guard at both ends.
pub fn shapes_leave_room()
    ensures { ShapesLeaveRoom }
{}
