ghost use Rattle.std.specs.Prelude.{◌≡◌, ◌<◌, OnOk, OnErr, length};
ghost use Rattle.pa_trace.specs.Limits.{most_partitions};
ghost use Rattle.pa_player.specs.Asks.{CanEnd};
ghost use Rattle.pa_player.specs.Changes.{phase_ended, report_line};
ghost use Rattle.pa_player.specs.Told.{told_before};

use crate::output::Output;
use crate::player::Player;
use crate::told::Told;
use pa_record::ReportLine;
use pa_slot::OutOfMemory;

impl<O: Output> Player<Told<O>> {
    // Reports the heap of each partition at the end of a phase.
    pub(crate) fn end_phase(&mut self) -> Result<(), OutOfMemory>
        requires { CanEnd self.old }
        ensures ended { OnOk result (self.new ≡ phase_ended self.old) }
        ensures same { OnErr result (told_before self.new.told ≡ told_before self.old.told) }
    {
        for partition in 0..self.partitions {
            let line = self.report_line(partition);
            self.told.report(line)?;
        }
        self.phase += 1;
        Ok(())
    }

    // The heap of one partition.
    fn report_line(&self, partition: u32) -> ReportLine
        requires four { partition < most_partitions }
        requires root { partition < length self.now.heap.roots }
        ensures { result ≡ report_line self.now partition }
    {
        let at = partition as usize;
        let census = self.heap.roots.census(partition);
        ReportLine {
            phase: self.phase,
            partition,
            live: self.live.of[at],
            quarantined: self.quarantined.of[at],
            cached: self.cached.of[at],
            root: census.root,
            committed: census.committed,
            reserved: census.reserved,
            full: census.full,
            active: census.active,
            empty: census.empty,
            decommitted: census.decommitted,
        }
    }
}
