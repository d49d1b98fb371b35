ghost use Rattle.std.specs.Prelude.{◌≡◌, ℕ, List, Err, IfOk, OnOk, OnErr};
ghost use Rattle.std.specs.Io.KnownBytes.{Appends};
ghost use Rattle.pa_io.specs.Moves.{IsAllOf, IsReadOut, HasWrittenPart, HasRisen};

use pa_io::{Failed, MemSink, MemSource, Sink, Source, StdSink, StdSource};
use std::alloc::Global;
use std::io;
use std::io::{ErrorKind, Read, Write};
use std::test::Fail;

// Why the reading of a whole source ended early.
#[derive(Clone, Copy, Debug, PartialEq, Eq)]
enum Trouble {
    Fault,
    OutOfMemory,
}

// All that a source has left, four bytes at a time.
fn read_all<S: Source>(alloc: Global, source: &mut S) -> Result<Vec<u8>, Trouble>
    ensures whole { IfOk result (λ bytes. IsAllOf (S.left source.old) bytes.items) }
    ensures end { OnOk result (IsReadOut (S.left source.old) (S.left source.new)) }
    ensures cause { result ≡ Err Trouble.Fault → HasRisen (S.faults source.old) (S.faults source.new) }
{
    let mut bytes = Vec::new(alloc);
    let mut piece = [0; 4];
    for _ in 0..u64::MAX {
        match source.read(&mut piece) {
            Ok(0) => return Ok(bytes),
            Ok(n) => {
                if bytes.extend_from_slice(&piece[..n]).is_err() {
                    return Err(Trouble::OutOfMemory);
                }
            }
            Err(Failed) => return Err(Trouble::Fault),
        }
    }
    Err(Trouble::OutOfMemory)
}

// Writes all of these bytes.
fn write_all<K: Sink>(sink: &mut K, all: &[u8]) -> Result<(), Failed>
    ensures whole { OnOk result (Appends (K.written sink.old) (K.written sink.new) all.now) }
    ensures part { OnErr result (HasWrittenPart (K.written sink.old) (K.written sink.new) all.now) }
    ensures cause { OnErr result (HasRisen (K.faults sink.old) (K.faults sink.new)) }
{
    let mut rest = all;
    while !rest.is_empty() {
        let n = sink.write(rest)?;
        let (_, after) = rest.split_at(n);
        rest = after;
    }
    Ok(())
}

// A reader of five bytes, of which the second read fails.
#[derive(Drop)]
struct Stumbling {
    reads: u8,
}

impl Read for Stumbling {
    fn read(&mut self, into: &mut [u8]) -> io::Result<usize> {
        self.reads = self.reads.saturating_add(1);
        let piece: &[u8] = match self.reads {
            1 => b"abc",
            2 => return Err(io::Error::from(ErrorKind::Other)),
            3 => b"de",
            _ => b"",
        };
        let n = piece.len().min(into.len());
        into[..n].copy_from_slice(&piece[..n]);
        Ok(n)
    }
}

// What goes wrong at a writer.
#[derive(Clone, Copy, PartialEq, Eq)]
enum Fault {
    Nothing,
    TakesNothing,
    WriteFails,
    FlushFails,
}

// A writer that takes two bytes a call and counts what was written and flushed.
#[derive(Drop)]
struct Writer {
    fault: Fault,
    taken: usize,
    flushes: usize,
}

impl Write for Writer {
    fn write(&mut self, from: &[u8]) -> io::Result<usize> {
        let n = match self.fault {
            Fault::TakesNothing => 0,
            Fault::WriteFails => return Err(io::Error::from(ErrorKind::Other)),
            Fault::Nothing | Fault::FlushFails => from.len().min(2),
        };
        self.taken = self.taken.saturating_add(n);
        Ok(n)
    }

    fn flush(&mut self) -> io::Result<()> {
        self.flushes = self.flushes.saturating_add(1);
        match self.fault {
            Fault::FlushFails => Err(io::Error::from(ErrorKind::Other)),
            _ => Ok(()),
        }
    }
}

#[test]
fn memory_gives_short_pieces_and_chosen_faults(rt: HostRuntime) -> Result<(), Fail> {
    let mut source = MemSource::new(rt.alloc(), b"abcdef", 4, &[1, 4])?;
    let steps: [(usize, Result<usize, Failed>, &[u8]); 6] = [
        (3, Ok(3), b"abc....."),
        (8, Err(Failed), b"........"),
        (1, Ok(1), b"d......."),
        (8, Ok(2), b"ef......"),
        (8, Err(Failed), b"........"),
        (8, Ok(0), b"........"),
    ];
    for (len, answer, buffer) in steps {
        let mut into = [b'.'; 8];
        assert!(rt; len <= 8 && len > 0);
        assert!(rt; source.read(&mut into[..len]) == answer);
        assert!(rt; into.as_slice() == buffer);
    }
    Ok(())
}

#[test]
fn memory_takes_short_pieces_up_to_its_room(rt: HostRuntime) -> Result<(), Fail> {
    let mut sink = MemSink::new(rt.alloc(), 6, 4, &[1])?;
    let steps: [(&[u8], Result<usize, Failed>, &[u8]); 5] = [
        (b"abcdef", Ok(4), b"abcd"),
        (b"e", Err(Failed), b"abcd"),
        (b"e", Ok(1), b"abcde"),
        (b"fgh", Ok(1), b"abcdef"),
        (b"g", Err(Failed), b"abcdef"),
    ];
    for (from, answer, written) in steps {
        assert!(rt; !from.is_empty());
        assert!(rt; sink.write(from) == answer);
        assert!(rt; sink.written() == written);
    }
    Ok(())
}

#[test]
fn whole_texts_go_through(rt: HostRuntime) -> Result<(), Fail> {
    let text = b"a text of twenty-two b";
    let mut source = MemSource::new(rt.alloc(), text, 3, &[])?;
    let bytes = read_all(rt.alloc(), &mut source)?;
    assert!(rt; bytes.as_slice() == text.as_slice());
    let mut sink = MemSink::new(rt.alloc(), 22, 5, &[])?;
    assert!(rt; write_all(&mut sink, &bytes) == Ok(()));
    assert!(rt; sink.written() == text.as_slice());
    assert!(rt; write_all(&mut sink, b"c") == Err(Failed));
    assert!(rt; sink.written() == text.as_slice());
    Ok(())
}

#[test]
fn reader_fails_in_mid_stream(rt: HostRuntime) {
    let mut source = StdSource::new(Stumbling { reads: 0 });
    let steps: [(Result<usize, Failed>, u64); 4] = [
        (Ok(3), 0),
        (Err(Failed), 1),
        (Ok(2), 1),
        (Ok(0), 1),
    ];
    for (answer, faults) in steps {
        let mut into = [0; 8];
        assert!(rt; source.read(&mut into) == answer);
        assert!(rt; source.faults == faults);
    }
    let mut again = StdSource::new(Stumbling { reads: 0 });
    assert!(rt; matches!(read_all(rt.alloc(), &mut again), Err(Trouble::Fault)));
}

#[test]
fn writer_faults_are_counted(rt: HostRuntime) {
    let cases = [
        (Fault::Nothing, Ok(2), 0, 2, 1),
        (Fault::TakesNothing, Err(Failed), 1, 0, 0),
        (Fault::WriteFails, Err(Failed), 1, 0, 0),
        (Fault::FlushFails, Err(Failed), 1, 2, 1),
    ];
    for (fault, answer, faults, taken, flushes) in cases {
        let mut sink = StdSink::new(Writer {
            fault,
            taken: 0,
            flushes: 0,
        });
        assert!(rt; sink.write(b"abc") == answer);
        assert!(rt; sink.faults == faults);
        assert!(rt; sink.writer.taken == taken);
        assert!(rt; sink.writer.flushes == flushes);
    }
}

#[test]
fn failure_has_a_text(rt: HostRuntime) -> Result<(), Fail> {
    let text = format!(in rt.alloc(); "{}", Failed)?;
    assert!(rt; text.as_str() == "a read or a write failed");
    Ok(())
}
