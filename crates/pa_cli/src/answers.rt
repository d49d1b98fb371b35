ghost use Rattle.std.specs.Prelude.{◌≡◌, ◌+◌, ◌≤◌, [], ◌∷◌, ◌++◌, codes, decimal, length, IfOk};
ghost use Rattle.arrayvec.specs.ArrayVec.{array_vec_len};
ghost use Rattle.pa_cli.specs.Output.{IsGeneratedText};
ghost use Rattle.pa_cli.specs.LayoutText.{IsLayoutText, class_line, direct_line};
ghost use Rattle.pa_cli.specs.HelpText.{help_text};

use arrayvec::ArrayVec;
use pa_buckets::{Class, class_of, raw_of, slot_size, span_of};
use pa_direct::{GREATEST_SIZE, Shape, shape};
use pa_slot::OutOfMemory;
use pa_trace::{generate, write_trace};
use std::alloc::Global;

// What `--help` prints.
const HELP: &[u8] = b"usage: partalloc COMMAND [< FILE]

commands
  replay            read a trace from standard input, play each thread's lines on its own thread, print the run: answers, heap, exchanges, report
  model             the same, but play all lines in their order, on one thread
  delay BYTES       the same for version 1, but freed slots wait in their thread's queue of BYTES, 0 to 33554432; audit knows no queue
  audit             read a trace and its run from standard input, print whether the run is legal
  dangling          read the same, print each use of what was freed while raw_ptrs pointed to it: lines of allocation, free, use and copy
  resize            read a script from standard input, which is a trace with lines that resize an object, print the trace that it comes to and its run
  verdicts          read a script, print what each of these lines came to: not-own, shared, too-large, kept, no-room or moved
  layout SIZE       print the size class or the direct map of version 1 of a request of SIZE bytes, 0 to 4294967295
  trace ROUNDS KEY  print a trace of ROUNDS rounds, 1 to 800, with random numbers by KEY, 0 to 18446744073709551615
  gen ROUNDS KEY    play that trace as replay does, print how many lines have each answer, and what is live and quarantined at the end
  --help            print this text
  --version         print the name and the version

example
  partalloc trace 1 7 > FILE
  partalloc replay < FILE

status, and what it prints on standard error
  0            done
  1            bad command: the words are none of the above
  2            bad line N: line N of the input is the first that is wrong
  3            limit at line N: line N of the input is the first that is wrong, and it passes a limit
  4            read fault
  5            write fault
  6            out of memory
  7            not legal: CLAUSE at line N: of a legal run that clause fails first, at line N of the input
  8            no words: the words could not be had

The texts are described in docs/FORMATS.md, which also says why a file is refused that looks right.
";

// What `audit` prints of a legal run.
pub const LEGAL: &[u8] = b"legal\n";

// What `--version` prints.
pub const VERSION: &[u8] = b"partalloc 0.1.0\n";

// The text of `--help`.
pub fn help() -> &'static [u8]
    ensures { result.now ≡ help_text }
{
    HELP
}

// The line of `layout` for a request of this many bytes.
pub fn layout_line(size: u32) -> ArrayVec<u8, 128>
    ensures { IsLayoutText size result.items }
{
    if size > GREATEST_SIZE {
        return large_line();
    }
    if let Some(class) = class_of(raw_of(size)) {
        return line_of_class(class);
    }
    let Some(shape) = shape(size) else {
        unreachable!()
    };
    line_of_direct(shape)
}

// The text of the trace generated from this number of rounds and this key.
pub fn write_generated(alloc: Global, rounds: u32, key: u64) -> Result<Vec<u8>, OutOfMemory>
    requires some { 1 ≤ rounds }
    requires few { rounds ≤ 800 }
    ensures { IfOk result (λ text. IsGeneratedText rounds key text.items) }
{
    let trace = generate(alloc, rounds, key)?;
    write_trace(alloc, &trace)
}

// The line of a size that no slot can have.
fn large_line() -> ArrayVec<u8, 128>
    ensures { result.items ≡ codes "too-large" ++ 10 ∷ [] }
{
    let mut line = ArrayVec::new();
    line.try_extend_from_slice(b"too-large\n").unwrap();
    line
}

// The line of a class.
fn line_of_class(class: Class) -> ArrayVec<u8, 128>
    ensures { result.items ≡ class_line class }
{
    let span = span_of(class);
    let mut line = ArrayVec::new();
    push_field(&mut line, b"class ", class.number());
    push_field(&mut line, b" slot ", slot_size(class));
    push_field(&mut line, b" pages ", span.pages);
    push_field(&mut line, b" system ", span.system_pages);
    push_field(&mut line, b" slots ", span.slots);
    push_field(&mut line, b" waste ", span.waste);
    line.push(b'\n');
    line
}

// The line of a direct map.
fn line_of_direct(shape: Shape) -> ArrayVec<u8, 128>
    ensures { result.items ≡ direct_line shape }
{
    let mut line = ArrayVec::new();
    push_field(&mut line, b"direct slot ", shape.slot);
    push_field(&mut line, b" super ", shape.supers);
    line.push(b'\n');
    line
}

// Appends the words and a number, which has ten digits at most.
fn push_field(line: &mut ArrayVec<u8, 128>, words: &[u8], number: u32)
    requires room { array_vec_len line.old + length words.now + 10 ≤ 128 }
    ensures pushed { line.new.items ≡ line.old.items ++ (words.now ++ decimal number) }
    ensures short { array_vec_len line.new ≤ array_vec_len line.old + length words.now + 10 }
{
    let mut digits = itoa::Buffer::new();
    line.try_extend_from_slice(words).unwrap();
    line.try_extend_from_slice(digits.format(number).as_bytes())
        .unwrap();
}
