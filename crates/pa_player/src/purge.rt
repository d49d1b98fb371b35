ghost use Rattle.std.specs.Prelude.{◌≡◌, ◌<◌, IfOk, OnOk, OnErr};
ghost use Rattle.pa_buckets.specs.Limits.{first_class};
ghost use Rattle.pa_trace.specs.declared.script.Op.TheVariants as ops;
ghost use Rattle.pa_trace.specs.declared.script.Line.TheVariants.{Do};
ghost use Rattle.pa_rules.specs.Caches.{listed_slots};
ghost use Rattle.pa_rules.specs.Sizes.{class_total};
ghost use Rattle.pa_player.specs.Asks.{CanPurgeOne};
ghost use Rattle.pa_player.specs.Changes.{given_all, purged_with};
ghost use Rattle.pa_player.specs.Playing.{caches};
ghost use Rattle.pa_player.specs.Plays.{IsReady, Plays};
ghost use Rattle.pa_player.specs.Told.{told_before};

use crate::output::Output;
use crate::player::Player;
use crate::told::Told;
use pa_buckets::{Class, first_class};
use pa_record::{Act, Answer};
use pa_rules::class_total;
use pa_slot::OutOfMemory;

impl<O: Output> Player<Told<O>> {
    // Gives back all that the thread's caches have, and decommits the empty spans.
    pub(crate) fn purge(&mut self, thread: u32) -> Result<Answer, OutOfMemory>
        requires { IsReady (Do thread ops.Purge) self.old }
        ensures played { IfOk result (Plays self.old thread ops.Purge self.new) }
        ensures same { OnErr result (told_before self.new.told ≡ told_before self.old.told) }
    {
        let mut slots = 0;
        for partition in 0..self.partitions {
            slots += self.purge_one(thread, partition)?;
        }
        Ok(Answer::Purged { slots })
    }

    // Purges one partition: gives back all that the thread's lists of it have, and decommits its empty spans.
    // Returns how many slots were given back.
    fn purge_one(&mut self, thread: u32, partition: u32) -> Result<u32, OutOfMemory>
        requires { CanPurgeOne thread partition self.old }
        ensures slots { IfOk result (λ n. n ≡ listed_slots (caches self.old thread partition)
            (first_class self.old.version) (class_total self.old.version)) }
        ensures purged { OnOk result (self.new ≡ purged_with partition (given_all thread partition self.old)) }
        ensures same { OnErr result (told_before self.new.told ≡ told_before self.old.told) }
    {
        let slots = self.give_all(thread, partition)?;
        self.heap.roots.purge(partition);
        self.told.root(partition, Act::Purge)?;
        Ok(slots)
    }

    // Gives back all that the thread's lists of one partition have. Returns how many slots.
    fn give_all(&mut self, thread: u32, partition: u32) -> Result<u32, OutOfMemory>
        requires { CanPurgeOne thread partition self.old }
        ensures slots { IfOk result (λ n. n ≡ listed_slots (caches self.old thread partition)
            (first_class self.old.version) (class_total self.old.version)) }
        ensures given { OnOk result (self.new ≡ given_all thread partition self.old) }
        ensures same { OnErr result (told_before self.new.told ≡ told_before self.old.told) }
    {
        let first = first_class(self.version);
        let start = self.list_of(thread, partition, Class::of(first).unwrap());
        let end = start + class_total(self.version) as usize;
        let mut slots = 0;
        let mut at = self.caches.next_with_slots(start, end);
        'lists: while at < end {
            slots += self.caches.places(at).len() as u32;
            self.give(at, partition, 0)?;
            at = self.caches.next_with_slots(at + 1, end);
        }
        Ok(slots)
    }
}
