ghost use Rattle.std.specs.Prelude.{◌≡◌, ◌<◌};
ghost use Rattle.pa_slot.specs.declared.word.Step.TheVariants.{Issue};
ghost use Rattle.pa_region.specs.Moves.{CanCount, IsFound};
ghost use Rattle.pa_trace.specs.Limits.{register_count, most_partitions};
ghost use Rattle.pa_rules.specs.Sizes.{HasClass};
ghost use Rattle.pa_op_specs.specs.Stocks.{HasNoHandle, register_in};
ghost use Rattle.pa_op_specs.specs.Workers.{HasItsStake};
ghost use Rattle.pa_thread_state.specs.Changes.{IsBack};
ghost use Rattle.pa_thread_state.specs.Allocating.{Pops, Issues, after_issue};

use crate::stock::{Stock, slot_name};
use pa_buckets::Class;
use pa_cells::Handle;
use pa_record::{Answer, Seen};
use pa_region::{
    Name, Region, Seat, counted_steps_leave, filled_words_have_the_value, owns_change,
    sealed_steps_leave,
};
use pa_rules::Register;
use pa_slot::{Title, Word};

impl<N: Name> Stock<N> {
    /// Takes the front title off the list of a partition and a class, or returns `None` if and only if the list is empty.
    pub fn pop(&mut self, region: &Region, partition: u32, class: Class) -> Option<Title>
        requires region { region.now ≡ N.region }
        requires partition { partition < most_partitions }
        requires class { HasClass self.old.caches.version class }
        ensures { Pops partition class result self.old self.new }
    {
        self.kept();
        self.caches.pop(region, &mut self.seat, partition, class)
    }

    /// Issues the free title of a slot to a register, which owns it then. Its content is zeroed before, and the Own of a slot in a
    /// plain partition is sealed.
    pub fn issue(&mut self, region: &Region, handle: Handle, reg: u32) -> Answer
        requires region { region.now ≡ N.region }
        requires stake { HasItsStake self.old }
        requires budget { 0 < self.old.view.budget }
        requires reg { reg < register_count }
        requires none { HasNoHandle (register_in self.old.registers reg) }
        requires back { IsBack handle self.old }
        ensures { Issues handle reg result self.old self.new }
    {
        counted_steps_leave();
        sealed_steps_leave();
        owns_change();
        filled_words_have_the_value();
        self.kept();
        let plain = self.is_plain(&handle);
        self.seat.placed(handle.title);
        pa_quarantine::zero_fill(region, &mut self.seat, handle.title);
        self.seat.aware();
        let found = issue_as(region, &mut self.seat, handle.title, plain);
        self.registers[reg as usize] = Register::Own(handle);
        let slot = slot_name(&handle);
        let seen = Seen { slot, found };
        let usable = handle.title.len - 8;
        Answer::Made { seen, usable }
    }
}

// The step of an issue, whose Own is sealed if the slot is plain.
fn issue_as(region: &Region, seat: &mut Seat, title: Title, plain: bool) -> Word
    requires region { seat.old.region ≡ region.now }
    requires able { CanCount Issue title seat.old.view }
    ensures region { seat.new.region ≡ seat.old.region }
    ensures view { seat.new.view ≡ after_issue plain title result.0 seat.old.view }
    ensures found { IsFound title result.0 seat.old.view }
{
    if plain {
        pa_quarantine::issue_sealed(region, seat, title)
    } else {
        pa_count::issue(region, seat, title)
    }
}
