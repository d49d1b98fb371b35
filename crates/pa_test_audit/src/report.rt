use pa_audit_report::first_other;
use pa_record::{ReportLine, Tally};

// A line of a heap that has nothing.
fn line_of(phase: u32, partition: u32, slots: u64) -> ReportLine {
    let none = Tally { slots: 0, bytes: 0 };
    let bytes = 0;
    ReportLine {
        phase,
        partition,
        live: Tally { slots, bytes },
        quarantined: none,
        cached: none,
        root: none,
        committed: 0,
        reserved: 0,
        full: 0,
        active: 0,
        empty: 0,
        decommitted: 0,
    }
}

// A line that differs, one that is missing and one too many.
#[test]
fn the_first_other_line(rt: HostRuntime) {
    let due = [line_of(1, 0, 0), line_of(1, 1, 0), line_of(2, 0, 3)];
    let other = [line_of(1, 0, 0), line_of(1, 1, 1), line_of(2, 0, 4)];
    let more = [
        line_of(1, 0, 0),
        line_of(1, 1, 0),
        line_of(2, 0, 3),
        line_of(2, 1, 0),
    ];
    assert!(rt; first_other(&due, &due).is_none());
    assert!(rt; first_other(&other, &due) == Some(1));
    assert!(rt; first_other(&due[..2], &due) == Some(2));
    assert!(rt; first_other(&more, &due) == Some(3));
}
