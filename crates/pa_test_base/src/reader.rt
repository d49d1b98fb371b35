use pa_record::{Answer, Entry, PoolAct, PoolEntry};
use pa_run_reader::{Item, line_at};

// The item of a line is returned, and the bytes after its LF are left.
#[test]
fn items_are_told(rt: HostRuntime) {
    let entry = Entry {
        line: 4294967295,
        thread: 3,
        answer: Answer::Full { entry: 7 },
    };
    let read = line_at(b"e 4294967295 3 full 7\nend\n");
    assert!(rt; read == Some((Item::Record(entry), b"end\n".as_slice())));
    let entry = PoolEntry {
        line: 9,
        partition: 1,
        act: PoolAct::Take {
            count: 2,
            first: None,
        },
    };
    let read = line_at(b"p 0 9 1 take 2 none\n");
    assert!(rt; read == Some((Item::Pool { index: 0, entry }, b"".as_slice())));
}

// A line of each kind is read.
#[test]
fn lines_are_read(rt: HostRuntime) {
    let read: [&[u8]; 14] = [
        b"run 1\n",
        b"e 2 0 made 00004000.0 8 0000000000000000\n",
        b"e 9 0 second-free\n",
        b"e 9 0 stale-use 00004000.0 0000000003000002\n",
        b"e 5 0 dangling 00004000.0 0000000003000002 efefefefefefefef\n",
        b"r 0 0 2 fill 0 - 00004000.0@0 00004010.0@18446744073709551615\n",
        b"r 3 0 2 map 0 00004000.0@0 2002944\n",
        b"r 0 3 7 full direct 3\n",
        b"r 1 0 4 give 00004000.0@0\n",
        b"r 0 1 3 unmap 1 00004000.0@2\n",
        b"r 1 1 4 purge\n",
        b"c 63 0 4 ref:00004000.0 -\n",
        b"s 1 0 live 0 0 quarantined 0 0 cached 8 128 root 248 3968 committed 4096 reserved 2097152 full 0 active 1 empty 0 decommitted 0\n",
        b"end\n",
    ];
    for line in read {
        assert!(rt; line_at(line).is_some());
    }
}

// What is a little outside the grammar isn't read.
#[test]
fn lines_are_refused(rt: HostRuntime) {
    let refused: [&[u8]; 14] = [
        b"",
        b"end",
        b"run 2\n",
        b"e 4294967296 0 nothing\n",
        b"e 02 0 nothing\n",
        b"e 2 0 nothing \n",
        b"e 2 0 done 00004000.0\n",
        b"e 2 0 word 0000400A.0 0000000000000000 0000000000000000\n",
        b"r 4 0 2 purge\n",
        b"r 0 0 2 fill 170 0 00004000.0@0\n",
        b"r 0 0 2 give\n",
        b"r 0 0 2 give 00004000.0@18446744073709551616\n",
        b"p 0 2 0 give 1 none\n",
        b"c 64 0 4 - -\n",
    ];
    for line in refused {
        assert!(rt; line_at(line).is_none());
    }
}
