ghost use Rattle.std.specs.Prelude.{◌≡◌};
ghost use Rattle.pa_cli.specs.Output.{HasNoRun};

use crate::status::Status;
use pa_record::Run;
use pa_region::Closed;

/// What a call of the program returns.
#[derive(Drop)]
pub struct Outcome {
    /// How the call ended.
    pub status: Status,
    /// The run whose text the output is. It is there exactly for a command that plays in a region,
    /// if its output was written, whole or a first part of it.
    pub run: Option<Run>,
    /// The words of the region in which that run was played, when it was closed. It is there if the run is.
    pub region: Option<Closed>,
}

impl Outcome {
    // A call that has no run.
    pub fn without_run(status: Status) -> Outcome
        ensures status { result.status ≡ status }
        ensures run { HasNoRun result.run result.region }
    {
        Outcome {
            status,
            run: None,
            region: None,
        }
    }
}

// What comes of a command that plays in a region: the text that is to be written, the run and the closed region.
#[derive(Drop)]
pub struct Output {
    pub text: Vec<u8>,
    pub run: Option<Run>,
    pub region: Option<Closed>,
}
