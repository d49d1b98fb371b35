ghost use Rattle.std.specs.Prelude.{◌≡◌, ◌<◌, All, IsTrue, length};
ghost use Rattle.pa_audit.specs.Lined.{HasLines32};

use pa_audit::audit;
use pa_record::{History, Journal, Run};
use pa_rules::{Clause, Verdict};
use pa_run_reader::read_run;
use pa_slot::OutOfMemory;
use pa_trace::read_trace;
use std::alloc::Global;

// The verdict on a run of a trace, and none if one of the texts isn't read, or if it runs out of memory.
fn tell(alloc: Global, trace: &[u8], run: &[u8]) -> Option<Verdict> {
    let Ok(trace) = read_trace(alloc, trace) else {
        return None;
    };
    if run.len() >= 10000 {
        return None;
    }
    let Ok(run) = read_run(alloc, run) else {
        return None;
    };
    if !is_short(&run) {
        return None;
    }
    match audit(alloc, &trace, &run) {
        Ok(verdict) => Some(verdict),
        Err(OutOfMemory) => None,
    }
}

// Whether each list of the run has fewer than 1,000 members.
fn is_short(run: &Run) -> bool
    requires roots { length run.now.roots.items ≡ 4 }
    requires cells { length run.now.cells.items ≡ 64 }
    ensures { IsTrue result → HasLines32 run.now }
{
    if run.entries.len() >= 1000 {
        return false;
    }
    if run.pool.len() >= 1000 {
        return false;
    }
    if run.report.len() >= 1000 {
        return false;
    }
    if !are_short_journals(run.roots.as_slice()) {
        return false;
    }
    are_short_histories(run.cells.as_slice())
}

fn are_short_journals(roots: &[Journal]) -> bool
    ensures { IsTrue result → All (λ es. length es < 1000) roots.now }
{
    for journal in roots {
        if journal.entries().len() >= 1000 {
            return false;
        }
    }
    true
}

fn are_short_histories(cells: &[History]) -> bool
    ensures { IsTrue result → All (λ es. length es < 1000) cells.now }
{
    for history in cells {
        if history.entries().len() >= 1000 {
            return false;
        }
    }
    true
}

// The text of a run of these lines.
fn text(alloc: Global, lines: &[&[u8]]) -> Result<Vec<u8>, OutOfMemory> {
    let mut text = Vec::new(alloc);
    for line in lines {
        text.extend_from_slice(line)?;
    }
    Ok(text)
}

// The verdict on a run of these lines.
pub(crate) fn told_of(alloc: Global, trace: &[u8], lines: &[&[u8]]) -> Option<Verdict> {
    match text(alloc, lines) {
        Ok(run) => tell(alloc, trace, run.as_slice()),
        Err(OutOfMemory) => None,
    }
}

// A slot of class 0 is made and freed: the trace, and the lines of its run.
const TRACE: &[u8] = b"trace 1 region 1 partitions 1 threads 1
0 A r0 p0 1
0 F r0
";

const RUN: &[u8] = b"run 1
";

const MADE: &[u8] = b"e 2 0 made 00004000.0 8 0000000000000000
";

const FREED: &[u8] = b"e 3 0 done 00004000.0 0000000001000001
";

const FILL: &[u8] =
    b"r 0 0 2 fill 0 0 00004000.0@0 00004010.0@0 00004020.0@0 00004030.0@0 00004040.0@0 00004050.0@0 00004060.0@0 00004070.0@0
";

const TAKE: &[u8] = b"p 0 2 0 take 1 0
";

const END: &[u8] =
    b"s 1 0 live 0 0 quarantined 0 0 cached 8 128 root 248 3968 committed 4096 reserved 2097152 full 0 active 1 empty 0 decommitted 0
end
";

#[test]
fn a_run_is_legal(rt: HostRuntime) {
    let alloc = rt.alloc();
    let found = told_of(alloc, TRACE, &[RUN, MADE, FREED, FILL, TAKE, END]);
    assert!(rt; found == Some(Verdict::Legal));
}

#[test]
fn a_record_is_missing(rt: HostRuntime) {
    let alloc = rt.alloc();
    let found = told_of(alloc, TRACE, &[RUN, MADE, FILL, TAKE, END]);
    assert!(rt; found == Some(Verdict::Broken(Clause::Lines, 3)));
}

#[test]
fn a_usable_number_is_another(rt: HostRuntime) {
    let alloc = rt.alloc();
    let made = b"e 2 0 made 00004000.0 16 0000000000000000
";
    let found = told_of(alloc, TRACE, &[RUN, made, FREED, FILL, TAKE, END]);
    assert!(rt; found == Some(Verdict::Broken(Clause::Registers, 2)));
}

#[test]
fn a_word_is_none_of_the_slots(rt: HostRuntime) {
    let alloc = rt.alloc();
    let freed = b"e 3 0 done 00004000.0 0000000002000001
";
    let found = told_of(alloc, TRACE, &[RUN, MADE, freed, FILL, TAKE, END]);
    assert!(rt; found == Some(Verdict::Broken(Clause::Slots, 3)));
}

#[test]
fn a_take_gets_the_second_super_page(rt: HostRuntime) {
    let alloc = rt.alloc();
    let take = b"p 0 2 0 take 1 1
";
    let found = told_of(alloc, TRACE, &[RUN, MADE, FREED, FILL, take, END]);
    assert!(rt; found == Some(Verdict::Broken(Clause::Pool, 5)));
}

#[test]
fn a_fill_names_its_slots_in_another_order(rt: HostRuntime) {
    let alloc = rt.alloc();
    let fill =
        b"r 0 0 2 fill 0 0 00004000.0@0 00004020.0@0 00004010.0@0 00004030.0@0 00004040.0@0 00004050.0@0 00004060.0@0 00004070.0@0
";
    let found = told_of(alloc, TRACE, &[RUN, MADE, FREED, fill, TAKE, END]);
    assert!(rt; found == Some(Verdict::Broken(Clause::Roots, 4)));
}

#[test]
fn a_slot_is_made_that_no_thread_has(rt: HostRuntime) {
    let alloc = rt.alloc();
    let fill =
        b"r 0 0 2 fill 0 0 00004000.0@1 00004010.0@0 00004020.0@0 00004030.0@0 00004040.0@0 00004050.0@0 00004060.0@0 00004070.0@0
";
    let found = told_of(alloc, TRACE, &[RUN, MADE, FREED, fill, TAKE, END]);
    assert!(rt; found == Some(Verdict::Broken(Clause::Holders, 2)));
}

#[test]
fn a_slot_goes_back_at_a_number_where_it_is_not_free(rt: HostRuntime) {
    let alloc = rt.alloc();
    let give = b"r 0 1 3 give 00004000.0@7
";
    let found = told_of(alloc, TRACE, &[RUN, MADE, FREED, FILL, give, TAKE, END]);
    assert!(rt; found == Some(Verdict::Broken(Clause::Holders, 5)));
}

#[test]
fn a_slot_goes_back_that_the_list_keeps(rt: HostRuntime) {
    let alloc = rt.alloc();
    let give = b"r 0 1 3 give 00004000.0@2
";
    let found = told_of(alloc, TRACE, &[RUN, MADE, FREED, FILL, give, TAKE, END]);
    assert!(rt; found == Some(Verdict::Broken(Clause::Caches, 3)));
}

#[test]
fn an_exchange_finds_what_none_gave(rt: HostRuntime) {
    let alloc = rt.alloc();
    let trace = b"trace 1 region 1 partitions 1 threads 1
0 X c0 r0
";
    let swapped = b"e 2 0 swapped 0
";
    let exchange = b"c 0 0 2 - own:00004000.0
";
    let found = told_of(alloc, trace, &[RUN, swapped, exchange, END]);
    assert!(rt; found == Some(Verdict::Broken(Clause::Cells, 3)));
}

#[test]
fn a_record_names_an_exchange_that_is_not_there(rt: HostRuntime) {
    let alloc = rt.alloc();
    let trace = b"trace 1 region 1 partitions 1 threads 1
0 X c0 r0
";
    let swapped = b"e 2 0 swapped 1
";
    let exchange = b"c 0 0 2 - -
";
    let found = told_of(alloc, trace, &[RUN, swapped, exchange, END]);
    assert!(rt; found == Some(Verdict::Broken(Clause::Cells, 2)));
}

#[test]
fn a_read_gives_what_a_refused_write_brought(rt: HostRuntime) {
    let alloc = rt.alloc();
    let trace = b"trace 1 region 1 partitions 1 threads 1
0 A r0 p0 1
0 W r0 0000000000000005
0 C r0 r1
0 W r0 0000000000000006
0 D r1 0
";
    let records = b"e 3 0 done 00004000.0 0000000001000001
e 4 0 done 00004000.0 0000000002000001
e 5 0 shared 00004000.0 0000000003000003
e 6 0 word 00004000.0 0000000003000003 0000000000000006
";
    let found = told_of(alloc, trace, &[RUN, MADE, records, FILL, TAKE, END]);
    assert!(rt; found == Some(Verdict::Broken(Clause::Contents, 6)));
}

#[test]
fn a_read_sees_less_than_a_copy_of_the_phase_before_left(rt: HostRuntime) {
    let alloc = rt.alloc();
    let trace = b"trace 1 region 1 partitions 1 threads 1
0 A r0 p0 1
0 C r0 r1
phase
0 D r0 0
";
    let records = b"e 3 0 done 00004000.0 0000000001000001
e 5 0 word 00004000.0 0000000001000001 0000000000000000
";
    let found = told_of(alloc, trace, &[RUN, MADE, records, FILL, TAKE, END]);
    assert!(rt; found == Some(Verdict::Broken(Clause::Seen, 4)));
}

#[test]
fn a_report_tells_a_slot_less(rt: HostRuntime) {
    let alloc = rt.alloc();
    let end =
        b"s 1 0 live 0 0 quarantined 0 0 cached 7 112 root 248 3968 committed 4096 reserved 2097152 full 0 active 1 empty 0 decommitted 0
end
";
    let found = told_of(alloc, TRACE, &[RUN, MADE, FREED, FILL, TAKE, end]);
    assert!(rt; found == Some(Verdict::Broken(Clause::Report, 6)));
}

#[test]
fn a_line_of_the_report_is_missing(rt: HostRuntime) {
    let alloc = rt.alloc();
    let end = b"end
";
    let found = told_of(alloc, TRACE, &[RUN, MADE, FREED, FILL, TAKE, end]);
    assert!(rt; found == Some(Verdict::Broken(Clause::Report, 6)));
}
