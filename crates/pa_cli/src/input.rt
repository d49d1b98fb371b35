ghost use Rattle.std.specs.Prelude.{◌≡◌, ℕ, ◌+◌, ◌<◌, ◌≤◌, List, ◌++◌, Err, length, take, vec_len, IfOk, OnOk, OnErr};
ghost use Rattle.std.specs.Io.KnownBytes.{Consumes};
ghost use Rattle.pa_io.specs.Moves.{Moves, HasRisen};
ghost use Rattle.pa_cli.specs.Call.{IsRead, HasGiven, stream_of};
ghost use Rattle.pa_cli.specs.declared.input.InputFault.TheVariants.{ReadFault, OutOfMemory};

use pa_io::{Failed, Source};
use std::alloc::{AllocError, AllocFailed, Global};

// The most bytes that one read asks of the source.
const PIECE: usize = 65_536;

// Why the input wasn't read.
#[derive(Clone, Copy, Debug, PartialEq, Eq)]
pub enum InputFault {
    ReadFault,
    OutOfMemory,
}

impl From<Failed> for InputFault {
    ghost from_gives = { λ _ fault. fault ≡ ReadFault };

    fn from(_failed: Failed) -> InputFault {
        InputFault::ReadFault
    }
}

impl From<AllocError> for InputFault {
    ghost from_gives = { λ _ fault. fault ≡ OutOfMemory };

    fn from(_error: AllocError) -> InputFault {
        InputFault::OutOfMemory
    }
}

impl<T: Drop> From<AllocFailed<T>> for InputFault {
    ghost from_gives = { λ _ fault. fault ≡ OutOfMemory };

    fn from(_failed: AllocFailed<T>) -> InputFault {
        InputFault::OutOfMemory
    }
}

// Reads the input: to its end, or to one byte past the most that it may have.
pub fn read_input<S: Source>(
    alloc: Global,
    source: &mut S,
    most: usize,
) -> Result<Vec<u8>, InputFault>
    requires { most ≤ 134217728 }
    ensures read { IfOk result (λ input. IsRead most
        (stream_of (S.left source.old) (S.faults source.old))
        (stream_of (S.left source.new) (S.faults source.new)) input.items) }
    ensures given { OnErr result ((bytes : List ℕ) × HasGiven most
        (stream_of (S.left source.old) (S.faults source.old))
        (stream_of (S.left source.new) (S.faults source.new)) bytes) }
    ensures cause { result ≡ Err InputFault.ReadFault → HasRisen (S.faults source.old) (S.faults source.new) }
    ensures calm { result ≡ Err InputFault.OutOfMemory → S.faults source.new ≡ S.faults source.old }
{
    let mut piece = zeros(alloc, PIECE)?;
    let mut input = Vec::new(alloc);
    while input.len() <= most {
        if read_piece(source, piece.as_mut_slice(), &mut input, most)? == 0 {
            return Ok(input);
        }
    }
    Ok(input)
}

// Reads once and appends what the source gave, which is nothing only at its end. Returns the number of bytes.
fn read_piece<S: Source>(
    source: &mut S,
    piece: &mut [u8],
    input: &mut Vec<u8>,
    most: usize,
) -> Result<usize, InputFault>
    requires some_room { 0 < length piece.old }
    requires few { most ≤ 134217728 }
    requires short { vec_len input.old ≤ most }
    ensures read { IfOk result (λ n. (buffer : List ℕ)
        × Moves (S.left source.old) (S.left source.new) n buffer
        × (input.new.items ≡ input.old.items ++ take n buffer)) }
    ensures within { IfOk result (λ n. length input.old.items + n ≤ most + 1) }
    ensures calm { OnOk result (S.faults source.new ≡ S.faults source.old) }
    ensures given { OnErr result ((bytes : List ℕ) × Consumes (S.left source.old) (S.left source.new) bytes
        × (length input.old.items + length bytes ≤ most + 1)) }
    ensures cause { result ≡ Err InputFault.ReadFault → HasRisen (S.faults source.old) (S.faults source.new) }
    ensures calm_memory { result ≡ Err InputFault.OutOfMemory → S.faults source.new ≡ S.faults source.old }
{
    let room = piece.len().min(most + 1 - input.len());
    let into = &mut piece[..room];
    let n = source.read(into)?;
    input.extend_from_slice(&into[..n])?;
    Ok(n)
}

// A buffer of this many bytes.
fn zeros(alloc: Global, count: usize) -> Result<Vec<u8>, AllocError>
    ensures { IfOk result (λ buffer. length buffer.items ≡ count) }
{
    vec![in alloc; 0; count]
}
