ghost use Rattle.std.specs.Prelude.{◌≡◌, ℕ, ◌≤◌, true, false, [], ◌∷◌, map, string_bytes, IfSome, IfNone};
ghost use Rattle.pa_text.specs.Numeral.{IsNumeral};
ghost use Rattle.pa_cli.specs.Command.{AsksFor, AsksForRegion, IsCommand, most_delayed, needs_of};

use pa_text::number_at;

// The most bytes that may wait in a thread's queue.
const MOST_DELAYED: u32 = 33_554_432;

// The most rounds of a generated trace.
const MOST_ROUNDS: u32 = 800;

/// What the program is asked to do.
#[derive(Clone, Copy, Debug, PartialEq, Eq)]
pub enum Command {
    /// Reads a trace, plays each thread's lines on a thread of its own, and prints the run.
    Replay,
    /// Reads a trace, plays its lines in their order on one thread, and prints the run.
    Model,
    /// Reads a trace of version 1, plays its lines in their order, where what was freed waits in a queue of its thread in which at most
    /// this many bytes stay, and prints the run.
    Delay { bytes: u32 },
    /// Reads a trace and then a run, and prints whether that is a legal run of the trace.
    Audit,
    /// Reads a trace and then a run, and prints each use of what was freed while `raw_ptr`s pointed to it.
    Dangling,
    /// Reads a script, plays it, and prints the trace that it comes to and that trace's run.
    Resize,
    /// Reads a script, plays it, and prints what each resize came to.
    Verdicts,
    /// Prints where a request of this many bytes is placed: its size class or its direct map.
    Layout(u32),
    /// Prints the trace generated in this number of rounds, 1 to 800, with random numbers from this key.
    Trace { rounds: u32, key: u64 },
    /// Plays the trace generated in this number of rounds, 1 to 800, with random numbers from this key, each thread's lines on a thread of
    /// its own, and prints a summary of the run.
    Gen { rounds: u32, key: u64 },
    /// Prints the commands and what they print.
    Help,
    /// Prints the program's name and version.
    Version,
}

impl Command {
    /// The command that the words ask for, or `None` if and only if there is none.
    pub fn of(words: &[String]) -> Option<Command>
        ensures asked { IfSome result (λ command. AsksFor command (map string_bytes words.now)) }
        ensures none { IfNone result (IsCommand (map string_bytes words.now) → ⊥) }
    {
        match words {
            [word] => Command::of_one(word),
            [word, size] => Command::of_two(word, size),
            [word, rounds, key] => Command::of_three(word, rounds, key),
            _ => None,
        }
    }

    // Whether the command plays in a region.
    fn plays_in_region(&self) -> bool
        ensures { result ≡ (needs_of self.now).region }
    {
        match self {
            Command::Replay | Command::Delay { bytes: _ } | Command::Gen { rounds: _, key: _ } => {
                true
            }
            Command::Model
            | Command::Audit
            | Command::Dangling
            | Command::Resize
            | Command::Verdicts
            | Command::Layout(_)
            | Command::Trace { rounds: _, key: _ }
            | Command::Help
            | Command::Version => false,
        }
    }

    // The command that one word asks for.
    fn of_one(word: &String) -> Option<Command>
        ensures asked { IfSome result (λ command. AsksFor command (string_bytes word.now ∷ [])) }
        ensures none { IfNone result (IsCommand (string_bytes word.now ∷ []) → ⊥) }
    {
        match word.as_str() {
            "replay" => Some(Command::Replay),
            "model" => Some(Command::Model),
            "audit" => Some(Command::Audit),
            "dangling" => Some(Command::Dangling),
            "resize" => Some(Command::Resize),
            "verdicts" => Some(Command::Verdicts),
            "--help" => Some(Command::Help),
            "--version" => Some(Command::Version),
            _ => None,
        }
    }

    // The command that two words ask for: `layout` and a size, or `delay` and a number of bytes.
    fn of_two(word: &String, number: &String) -> Option<Command>
        ensures asked { IfSome result (λ command. AsksFor command (string_bytes word.now ∷ string_bytes number.now ∷ [])) }
        ensures none { IfNone result (IsCommand (string_bytes word.now ∷ string_bytes number.now ∷ []) → ⊥) }
    {
        match word.as_str() {
            "layout" => Some(Command::Layout(whole_number(number)?)),
            "delay" => Some(Command::Delay {
                bytes: bytes_in(number)?,
            }),
            _ => None,
        }
    }

    // The command that three words ask for: `trace` or `gen`, the rounds and a key.
    fn of_three(word: &String, rounds: &String, key: &String) -> Option<Command>
        ensures asked { IfSome result
            (λ command. AsksFor command (string_bytes word.now ∷ string_bytes rounds.now ∷ string_bytes key.now ∷ [])) }
        ensures none { IfNone result (IsCommand (string_bytes word.now ∷ string_bytes rounds.now ∷ string_bytes key.now ∷ []) → ⊥) }
    {
        match word.as_str() {
            "trace" => Some(Command::Trace {
                rounds: rounds_in(rounds)?,
                key: whole_key(key)?,
            }),
            "gen" => Some(Command::Gen {
                rounds: rounds_in(rounds)?,
                key: whole_key(key)?,
            }),
            _ => None,
        }
    }
}

/// Whether the words are those of a command that plays in a region, so that its call may wait: `replay`, `delay` or `gen`.
/// All other words are answered by `run_alone`.
#[tactic(auto, using(crate::proofs::Commands::region_asked, crate::proofs::Commands::alone_asked))]
pub fn plays_in_region(words: &[String]) -> bool
    ensures region { result ≡ true → AsksForRegion (map string_bytes words.now) }
    ensures alone { result ≡ false → AsksForRegion (map string_bytes words.now) → ⊥ }
{
    match Command::of(words) {
        Some(command) => command.plays_in_region(),
        None => false,
    }
}

// The bytes that the word spells. `None` exactly if it spells no number from 0 to 33554432.
fn bytes_in(word: &String) -> Option<u32>
    ensures found { IfSome result (λ n. IsNumeral n (string_bytes word.now) × (n ≤ most_delayed)) }
    ensures none { IfNone result ((n : ℕ) → IsNumeral n (string_bytes word.now) → n ≤ most_delayed → ⊥) }
{
    match whole_number(word) {
        Some(bytes) if bytes <= MOST_DELAYED => Some(bytes),
        _ => None,
    }
}

// The rounds that the word spells. `None` exactly if it spells no number from 1 to 800.
fn rounds_in(word: &String) -> Option<u32>
    ensures found { IfSome result (λ n. IsNumeral n (string_bytes word.now) × (1 ≤ n) × (n ≤ 800)) }
    ensures none { IfNone result ((n : ℕ) → IsNumeral n (string_bytes word.now) → 1 ≤ n → n ≤ 800 → ⊥) }
{
    match whole_number(word) {
        Some(rounds) if 1 <= rounds && rounds <= MOST_ROUNDS => Some(rounds),
        _ => None,
    }
}

// The number that the word spells, or `None` if and only if it spells no number of 64 bits.
fn whole_key(word: &String) -> Option<u64>
    ensures found { IfSome result (λ n. IsNumeral n (string_bytes word.now)) }
    ensures none { IfNone result ((n : ℕ) → IsNumeral n (string_bytes word.now) → n ≤ 18446744073709551615 → ⊥) }
{
    match number_at(word.as_bytes()) {
        Some((_, rest)) if rest.is_empty() => word.as_str().parse::<u64>().ok(),
        _ => None,
    }
}

// The number that the word spells, or `None` if and only if it spells no number of 32 bits.
fn whole_number(word: &String) -> Option<u32>
    ensures found { IfSome result (λ n. IsNumeral n (string_bytes word.now)) }
    ensures none { IfNone result ((n : ℕ) → IsNumeral n (string_bytes word.now) → n ≤ 4294967295 → ⊥) }
{
    match number_at(word.as_bytes()) {
        Some((number, rest)) if rest.is_empty() => number,
        _ => None,
    }
}
