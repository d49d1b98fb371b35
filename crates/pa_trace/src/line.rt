ghost use Rattle.std.specs.Prelude.{◌≡◌};
ghost use Rattle.pa_trace.specs.Grammar.{tells_plain};
ghost use Rattle.pa_trace.specs.Limits.{most_region, most_plain};
ghost use Rattle.pa_trace.specs.Reading.{Gives, known_in, count_in, up_to, plain_number_in, head_of, head_in, do_in, line_in};

use crate::field::{
    LineFault, behind, below, ended, field_in, number_in, one_number, three_fields,
};
use crate::op::op_in;
use crate::script::Line;

/// The last version of traces.
pub const LAST_VERSION: u32 = 3;

/// The most super pages of a region in version 1.
pub const MOST_SUPER_PAGES: u32 = 16;

/// The most super pages of a region since version 2.
pub const MOST_SUPER_PAGES_2: u32 = 64;

/// The most partitions of a heap.
pub const MOST_PARTITIONS: u32 = 4;

/// The most threads of a trace.
pub const MOST_THREADS: u32 = 16;

/// The numbers of a head: the version, the region in super pages, the partitions, the threads, and how many of the partitions are
/// plain, which is 0 below version 3.
#[derive(Clone, Copy, Debug, PartialEq, Eq)]
pub struct Head {
    pub version: u32,
    pub region: u32,
    pub partitions: u32,
    pub threads: u32,
    pub plain: u32,
}

// The number, if it is from 1 to the given most.
fn count_in(number: Option<u32>, most: u32) -> Result<u32, LineFault>
    ensures { result ≡ count_in number most }
{
    match number {
        Some(value) if 1 <= value && value <= most => Ok(value),
        _ => Err(LineFault::Past),
    }
}

// The number, if it is at most this one.
fn up_to(number: Option<u32>, most: u32) -> Result<u32, LineFault>
    ensures { result ≡ up_to number most }
{
    match number {
        Some(value) if value <= most => Ok(value),
        _ => Err(LineFault::Past),
    }
}

// The version, if it is one up to the last that is known: any other is outside the grammar.
fn known_in(known: u32, number: Option<u32>) -> Result<u32, LineFault>
    ensures { result ≡ known_in known number }
{
    match number {
        Some(version) if 1 <= version && version <= known => Ok(version),
        _ => Err(LineFault::Outside),
    }
}

// The most super pages of a region in a version.
fn most_region(version: u32) -> u32
    ensures { result ≡ most_region version }
{
    if version <= 1 {
        MOST_SUPER_PAGES
    } else {
        MOST_SUPER_PAGES_2
    }
}

// Whether the head of a version tells how many partitions are plain.
pub fn tells_plain(version: u32) -> bool
    ensures { result ≡ tells_plain version }
{
    version >= 3
}

// The most plain partitions among this many in a version.
fn most_plain(version: u32, partitions: u32) -> u32
    ensures { result ≡ most_plain version partitions }
{
    if tells_plain(version) { partitions } else { 0 }
}

// What is left of the head of a version behind its threads: how many partitions are plain, if it tells it, and else nothing.
#[tactic(auto, unfolding(crate::specs::Reading::plain_number_in))]
fn plain_number_in(version: u32, bytes: &[u8]) -> Result<Option<u32>, LineFault>
    ensures { Gives (λ x. x) result (plain_number_in (tells_plain version) bytes.now) }
{
    if tells_plain(version) {
        one_number(bytes, b" plain ")
    } else {
        ended(bytes)?;
        Ok(Some(0))
    }
}

// The head, which is the whole line. `known` is the last version that is known.
#[tactic(auto, unfolding(crate::specs::Reading::head_in))]
pub fn head_in(known: u32, bytes: &[u8]) -> Result<Head, LineFault>
    ensures { result ≡ head_in known bytes.now }
{
    let (first, rest) = field_in(b"trace ", bytes)?;
    let version = known_in(known, first)?;
    let (region, partitions, threads, rest) = three_fields(
        rest,
        b" region ",
        b" partitions ",
        b" threads ",
    )?;
    let plain = plain_number_in(version, rest)?;
    head_of(version, region, partitions, threads, plain)
}

/// The head of a version with four numbers, each of which may be too large.
pub fn head_of(
    version: u32,
    region: Option<u32>,
    partitions: Option<u32>,
    threads: Option<u32>,
    plain: Option<u32>,
) -> Result<Head, LineFault>
    ensures { result ≡ head_of version region partitions threads plain }
{
    let region = count_in(region, most_region(version))?;
    let partitions = count_in(partitions, MOST_PARTITIONS)?;
    let threads = count_in(threads, MOST_THREADS)?;
    Ok(Head {
        version,
        region,
        partitions,
        threads,
        plain: up_to(plain, most_plain(version, partitions))?,
    })
}

/// A line after the head, without its LF.
#[tactic(auto, unfolding(crate::specs::Reading::line_in))]
#[inline(always)]
pub fn line_in(head: Head, bytes: &[u8]) -> Result<Line, LineFault>
    ensures { result ≡ line_in head.partitions head.threads bytes.now }
{
    if bytes == b"phase".as_slice() {
        Ok(Line::Phase)
    } else {
        do_in(head, bytes)
    }
}

// The thread, a space and the op, which are the whole line.
#[tactic(auto, unfolding(crate::specs::Reading::do_in))]
#[inline(always)]
fn do_in(head: Head, bytes: &[u8]) -> Result<Line, LineFault>
    ensures { result ≡ do_in head.partitions head.threads bytes.now }
{
    let (thread, rest) = number_in(bytes)?;
    let rest = behind(b" ", rest)?;
    let op = op_in(head.partitions, rest)?;
    Ok(Line::Do {
        thread: below(thread, head.threads)?,
        op,
    })
}
