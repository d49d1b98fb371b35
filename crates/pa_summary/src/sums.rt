ghost use Rattle.std.specs.Prelude.{◌≡◌, ◌<◌, ◌^◌, if◌then◌else◌};
ghost use Rattle.pa_summary.specs.SummaryText.{last_phase, sums_at_end};

use pa_record::ReportLine;

/// Slots and bytes of many lines. The lines of a run may have any numbers, so their sums have 128 bits.
#[derive(Clone, Copy, Debug, PartialEq, Eq)]
pub struct Sums {
    pub slots: u128,
    pub bytes: u128,
}

/// What is live and what is quarantined at the end of a run, in all partitions.
#[derive(Clone, Copy, Debug, PartialEq, Eq)]
pub struct Ends {
    pub live: Sums,
    pub quarantined: Sums,
}

/// The sums over the lines of the last phase of a run's report.
pub fn ends_of(report: &[ReportLine]) -> Ends
    ensures live_slots { result.live.slots ≡ (sums_at_end (λ l. l.live) report.now).slots }
    ensures live_bytes { result.live.bytes ≡ (sums_at_end (λ l. l.live) report.now).bytes }
    ensures slots { result.quarantined.slots ≡ (sums_at_end (λ l. l.quarantined) report.now).slots }
    ensures bytes { result.quarantined.bytes ≡ (sums_at_end (λ l. l.quarantined) report.now).bytes }
{
    let phase = phase_of(report);
    let mut live_slots = 0u128;
    let mut live_bytes = 0u128;
    let mut slots = 0u128;
    let mut bytes = 0u128;
    for line in report {
        let is_last = line.phase == phase;
        live_slots += share(is_last, line.live.slots);
        live_bytes += share(is_last, line.live.bytes);
        slots += share(is_last, line.quarantined.slots);
        bytes += share(is_last, line.quarantined.bytes);
    }
    Ends {
        live: Sums {
            slots: live_slots,
            bytes: live_bytes,
        },
        quarantined: Sums { slots, bytes },
    }
}

// The greatest phase of the lines, or 0 if there are none.
fn phase_of(report: &[ReportLine]) -> u32
    ensures { result ≡ last_phase report.now }
{
    let mut phase = 0u32;
    for line in report {
        phase = phase.max(line.phase);
    }
    phase
}

// The number, if it counts, and else 0.
fn share(counts: bool, number: u64) -> u128
    ensures value { result ≡ if counts then number else 0 }
    ensures small { result < 2 ^ 64 }
{
    if counts { number as u128 } else { 0 }
}
