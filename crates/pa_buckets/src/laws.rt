ghost use Rattle.pa_buckets.specs.Laws.{RowsFollowTheRule, RuleGivesOneSpan, RowsHaveBounds, ClassesAreDense};

/// The law that each class's spans have the shape that the rule for spans gives for its slot size.
pub fn rows_follow_the_rule()
    ensures { RowsFollowTheRule }
{}

/// The law that the rule for spans gives at most one shape for a slot size.
pub fn rule_gives_one_span()
    ensures { RuleGivesOneSpan }
{}

/// The law that each class's numbers have the bounds that the layers above build on, and that slot sizes rise in a version.
pub fn rows_have_bounds()
    ensures { RowsHaveBounds }
{}

/// The law that version 2 has eight classes to each doubling, the sizes of version 1 among them, and that classes of one
/// size differ in nothing but their numbers.
pub fn classes_are_dense()
    ensures { ClassesAreDense }
{}
