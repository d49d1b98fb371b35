ghost use Rattle.std.specs.Prelude.{◌≡◌, ◌<◌, length};
ghost use Rattle.pa_trace.specs.declared.script.Op.TheVariants as ops;
ghost use Rattle.pa_trace.specs.declared.script.Line.TheVariants.{Do};
ghost use Rattle.pa_player.specs.Asks.{CanRead};
ghost use Rattle.pa_player.specs.Changes.{Reads};
ghost use Rattle.pa_player.specs.Plays.{IsReady, Plays, ReadsOwn};

use crate::alloc::COUNT_WORD;
use crate::output::Output;
use crate::player::Player;
use crate::told::Told;
use pa_record::Answer;
use pa_rules::looked_read;
use pa_slot::{POISON, held};

// The bytes of a word of the content.
const WORD_BYTES: u32 = 8;

impl<O: Output> Player<Told<O>> {
    // A read of a word, by its index from 0.
    pub(crate) fn read(&self, thread: u32, reg: u32, word: u32) -> Answer
        requires { IsReady (Do thread (ops.Read reg word)) self.now }
        ensures played { Plays self.now thread (ops.Read reg word) self.now result }
        ensures owned { ReadsOwn self.now thread (ops.Read reg word) result }
    {
        match self.register(thread, reg).for_read() {
            Ok(place) => self.read_from(place, word),
            Err(refusal) => refusal,
        }
    }

    // A read of this slot: out of range past its words, and dangling if it was freed.
    fn read_from(&self, place: u32, word: u32) -> Answer
        requires { CanRead place self.now }
        ensures { Reads place word self.now result }
    {
        let slot = self.table.slot(place);
        if word >= (slot.title.len - COUNT_WORD) / WORD_BYTES {
            return Answer::OutOfRange;
        }
        let seen = self.table.seen(place);
        let value = if held(seen.found) {
            slot.content
        } else {
            POISON
        };
        looked_read(seen, value)
    }
}
