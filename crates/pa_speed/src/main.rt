//! Measures the texts: it reads the trace on standard input, or writes it or its run, this many times over, and prints how
//! many bytes that were in all. `bench/run` times it.
#![tactic(auto)]

ghost use Rattle.std.specs.Prelude.{◌≡◌, ◌*◌, ℕ, List, IfSome, length};
ghost use Rattle.pa_trace.specs.Grammar.{IsTraceText};
ghost use Rattle.pa_trace.specs.Limits.{IsWithinLimits};

use pa_model::play;
use pa_record::write_run;
use pa_trace::{Trace, read_trace, write_trace};
use std::alloc::Global;
use std::process::ExitCode;
use std::{env, io};

fn main(rt: HostRuntime) -> ExitCode {
    match measured(&rt) {
        Some(bytes) => {
            let _ = println!(rt; "{bytes}");
            ExitCode::SUCCESS
        }
        None => ExitCode::FAILURE,
    }
}

// Does what the two words say: `read`, `trace` or `run`, and how many times. `None` if they say something else, if
// the input is no trace, or if it runs out of memory.
fn measured(rt: &HostRuntime) -> Option<u64> {
    let words: Vec<String> = env::args(rt).ok()?.skip(1).collect(rt.alloc()).ok()?;
    let [what, times] = words.as_slice() else {
        return None;
    };
    let times = times.as_str().parse::<u32>().ok()?;
    let input = io::read_to_string(rt.alloc(), rt.stdin()).ok()?;
    let bytes = input.as_str().as_bytes();
    let Ok(trace) = read_trace(rt.alloc(), bytes) else {
        return None;
    };
    match what.as_str() {
        "read" => read_again(rt.alloc(), bytes, times),
        "trace" => write_again(rt.alloc(), &trace, times),
        "run" => write_run_again(rt.alloc(), &trace, times),
        _ => None,
    }
}

// Reads the trace this many times. Returns how many bytes were read.
fn read_again(alloc: Global, bytes: &[u8], times: u32) -> Option<u64>
    ensures { IfSome result (λ total. total ≡ times * length bytes.now) }
{
    let mut total = 0u64;
    for _ in 0..times {
        read_trace(alloc, bytes).ok()?;
        total += bytes.len() as u64;
    }
    Some(total)
}

// Writes the trace this many times. Returns how many bytes were written.
fn write_again(alloc: Global, trace: &Trace, times: u32) -> Option<u64>
    requires { IsWithinLimits trace.now }
    ensures { IfSome result (λ total. (text : List ℕ) → IsTraceText trace.now text → total ≡ times * length text) }
{
    let mut total = 0u64;
    for _ in 0..times {
        let Ok(text) = write_trace(alloc, trace) else {
            return None;
        };
        total += text.len() as u64;
    }
    Some(total)
}

// Plays the trace, and writes the text of its run this many times. Returns how many bytes were written.
fn write_run_again(alloc: Global, trace: &Trace, times: u32) -> Option<u64>
    requires { IsWithinLimits trace.now }
{
    let Ok(run) = play(alloc, trace) else {
        return None;
    };
    let mut total = 0u64;
    for _ in 0..times {
        let text = write_run(alloc, &run).ok()?;
        total = total.wrapping_add(text.len() as u64);
    }
    Some(total)
}
