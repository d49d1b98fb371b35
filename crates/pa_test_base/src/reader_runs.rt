ghost use Rattle.std.specs.Prelude.{◌<◌, ◌-◌, ◌^◌, length};

use crate::run_texts::{
    DIRECT_MAP_AGAIN, GAPS, HEAD_ALONE, PURGE_LISTS, QUARANTINE, REGISTERS, SECOND_FREE,
    SHORT_FILL, SMALLEST, STALE_RESET, TWO_THREADS, WRITES,
};
use pa_record::{Run, write_run};
use pa_run_reader::{RunFault, read_run};
use std::alloc::Global;
use std::test::Fail;

// The text of the run that is read from a text.
fn written_again(alloc: Global, text: &[u8]) -> Result<Vec<u8>, RunFault>
    requires { length text.now < 2 ^ 32 - 1 }
{
    let run = read_run(alloc, text)?;
    Ok(write_run(alloc, &run)?)
}

// What is read of a run's text is written as the same bytes.
#[test]
fn texts_are_read_and_written_again(rt: HostRuntime) -> Result<(), Fail> {
    let texts = [
        HEAD_ALONE,
        SMALLEST,
        QUARANTINE,
        SHORT_FILL,
        TWO_THREADS,
        REGISTERS,
        SECOND_FREE,
        STALE_RESET,
        WRITES,
        DIRECT_MAP_AGAIN,
        PURGE_LISTS,
        GAPS,
    ];
    for text in texts {
        assert!(rt; written_again(rt.alloc(), text)?.as_slice() == text);
    }
    Ok(())
}

// How many entries a partition's journal has, and the line of the second. None if there is no such journal.
fn journal_told(run: &Run, place: usize) -> Option<(usize, Option<u32>)> {
    let entries = run.roots.get(place)?.entries();
    Some((entries.len(), entries.get(1).map(|entry| entry.line)))
}

// How many entries a cell's history has, and the line of the second. None if there is no such history.
fn history_told(run: &Run, place: usize) -> Option<(usize, Option<u32>)> {
    let entries = run.cells.get(place)?.entries();
    Some((entries.len(), entries.get(1).map(|entry| entry.line)))
}

// Entries are in the lists of their partitions and cells.
#[test]
fn entries_stand_in_their_lists(rt: HostRuntime) -> Result<(), Fail> {
    let run = read_run(rt.alloc(), GAPS)?;
    assert!(rt; run.roots.len() == 4);
    assert!(rt; journal_told(&run, 0) == Some((0, None)));
    assert!(rt; journal_told(&run, 1) == Some((2, Some(3))));
    assert!(rt; journal_told(&run, 3) == Some((1, None)));
    assert!(rt; run.cells.len() == 64);
    assert!(rt; history_told(&run, 5) == Some((1, None)));
    assert!(rt; history_told(&run, 62) == Some((0, None)));
    assert!(rt; history_told(&run, 63) == Some((2, Some(3))));
    Ok(())
}

// The fault of a short text.
fn fault_of(alloc: Global, text: &[u8]) -> Option<RunFault> {
    if text.len() < 100 {
        read_run(alloc, text).err()
    } else {
        None
    }
}

// The first bad line of each of these is named: by its content, or by where it is.
#[test]
fn bad_lines_are_named(rt: HostRuntime) {
    let texts: [(&[u8], u32); 34] = [
        // the head, and the end
        (b"", 1),
        (b"run 1", 1),
        (b"run 2\n", 1),
        (b"run 1\r\nend\r\n", 1),
        (b"end\n", 1),
        (b"e 2 0 nothing\nrun 1\nend\n", 1),
        (b"run 1\n", 2),
        (b"run 1\nend", 2),
        (b"run 1\nend \n", 2),
        (b"run 1\n\nend\n", 2),
        (b"run 1\nrun 1\nend\n", 2),
        (b"run 1\ne 2 0 nothing\n", 3),
        (b"run 1\nend\nend\n", 3),
        (b"run 1\nend\n\n", 3),
        (b"run 1\nend\ne 2 0 nothing\n", 3),
        // a line by itself
        (b"run 1\ne 02 0 nothing\nend\n", 2),
        (b"run 1\ne 2 0 nothing\ne 3 4294967296 nothing\nend\n", 3),
        (b"run 1\ne 2 0 purged\nend\n", 2),
        (b"run 1\nr 4 0 2 purge\nend\n", 2),
        (b"run 1\nc 64 0 2 - -\nend\n", 2),
        // kinds fall
        (b"run 1\nr 0 0 2 purge\ne 2 0 purged 0\nend\n", 3),
        (b"run 1\np 0 2 0 give 1 0\nr 0 0 2 purge\nend\n", 3),
        (b"run 1\nc 0 0 2 - -\np 0 2 0 give 1 0\nend\n", 3),
        // indices don't count from 0, or have a gap
        (b"run 1\nr 0 1 2 purge\nend\n", 2),
        (b"run 1\nr 0 0 2 purge\nr 0 2 3 purge\nend\n", 3),
        (b"run 1\nr 0 0 2 purge\nr 0 0 3 purge\nend\n", 3),
        (b"run 1\nr 0 0 2 purge\nr 1 1 3 purge\nend\n", 3),
        (b"run 1\nr 1 0 2 purge\nr 0 0 3 purge\nend\n", 3),
        (b"run 1\nr 0 4294967295 2 purge\nend\n", 2),
        (b"run 1\np 1 2 0 give 1 0\nend\n", 2),
        (
            b"run 1\np 0 2 0 give 1 0\np 1 3 0 give 1 0\np 3 4 0 give 1 0\nend\n",
            4,
        ),
        (b"run 1\nc 1 0 2 - -\nc 0 0 3 - -\nend\n", 3),
        (b"run 1\nc 1 0 2 - -\nc 1 2 3 - -\nend\n", 3),
        (b"run 1\nc 1 0 2 - -\nc 2 1 3 - -\nend\n", 3),
    ];
    for (text, line) in texts {
        assert!(rt; fault_of(rt.alloc(), text) == Some(RunFault::BadLine(line)));
    }
}

// A fault is printed.
#[test]
fn faults_are_printed(rt: HostRuntime) -> Result<(), Fail> {
    assert!(rt; format!(in rt.alloc(); "{}", RunFault::BadLine(7))?.as_str() == "bad line 7");
    assert!(rt; format!(in rt.alloc(); "{}", RunFault::OutOfMemory)?.as_str() == "out of memory");
    Ok(())
}
