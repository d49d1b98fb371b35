ghost use Rattle.std.specs.Prelude.{◌≡◌, ℕ, ◌<◌, ◌/◌, ◌↔◌, ◌⊎◌, ◌++◌, ◌∷◌, [], IsTrue, Some, None, IfSome, IfNone, Contains, OnOk, OnErr, length, slice_index, slice_set, if◌then◌else◌, Bool, false};
ghost use Rattle.std.specs.List.{swap_remove};
ghost use Rattle.pa_slot.specs.Titles.{progress};
ghost use Rattle.pa_machine.specs.Tables.{IsHeldBy, CanPoison, IsSameSlot, IsNextSlot, IsIssuedSlot, IsRestatedSlot, IsSlotStepped, is_sealed};

use pa_slot::{OutOfMemory, OwnState, Step, Title};
use std::alloc::Global;

/// The actor that has the Own handle of a title, and how it left the content.
#[derive(Clone, Copy, Debug, PartialEq, Eq)]
pub struct Owner {
    pub actor: u32,
    pub state: OwnState,
    /// No copy of this Own can be made.
    pub sealed: bool,
}

/// A title that some actor holds: the actor that holds it free, its owner, and the actor of each Ref.
#[derive(Debug, Drop)]
pub struct Slot {
    pub title: Title,
    pub free: Option<u32>,
    pub own: Option<Owner>,
    pub refs: Vec<u32>,
}

impl Slot {
    // A title that was just cut out by the actor.
    pub fn cut_out(alloc: Global, actor: u32, title: Title) -> Slot
        ensures title { result.title ≡ title }
        ensures free { result.free ≡ Some actor }
        ensures own { result.own ≡ None }
        ensures refs { result.refs.items ≡ [] }
    {
        Slot {
            title,
            free: Some(actor),
            own: None,
            refs: Vec::new(alloc),
        }
    }

    // How many content words the owner has poisoned so far.
    pub fn progress(&self) -> u32
        ensures { (w : Owner) → self.now.own ≡ Some w → result ≡ progress w.state }
    {
        match self.own {
            Some(owner) => owner.state.progress(),
            None => 0,
        }
    }

    // Where the title starts, if the actor has its Own.
    pub fn own_place(&self, actor: u32) -> Option<usize>
        ensures some { IfSome result
            (λ p. (s : OwnState) × (sealed : Bool) × (self.now.own ≡ Some (record { actor = actor; state = s; sealed = sealed })) ×
            (p ≡ self.now.title.start / 8)) }
        ensures none { IfNone result
            ((s : OwnState) (sealed : Bool) → self.now.own ≡ Some (record { actor = actor; state = s; sealed = sealed }) → ⊥) }
    {
        if self.is_own_of(actor) {
            Some(self.title.first_word())
        } else {
            None
        }
    }

    // Whether the slot is free and held by the actor.
    pub fn is_free_of(&self, actor: u32) -> bool
        ensures { IsTrue result ↔ (self.now.free ≡ Some actor) }
    {
        self.free == Some(actor)
    }

    // Whether the actor has the Own in this state, sealed or not.
    pub fn is_owned_by(&self, actor: u32, state: OwnState) -> bool
        ensures { IsTrue result ↔
            ((sealed : Bool) × (self.now.own ≡ Some (record { actor = actor; state = state; sealed = sealed }))) }
    {
        self.is_own(Owner {
            actor,
            state,
            sealed: self.is_sealed(),
        })
    }

    // Whether the actor has the Own clean and not sealed, so that it may copy it.
    pub fn can_copy(&self, actor: u32) -> bool
        ensures { IsTrue result ↔ (self.now.own ≡ Some (record { actor = actor; state = OwnState.Clean; sealed = false })) }
    {
        self.is_own(Owner {
            actor,
            state: OwnState::Clean,
            sealed: false,
        })
    }

    // Whether this is the Own.
    fn is_own(&self, owner: Owner) -> bool
        ensures { IsTrue result ↔ (self.now.own ≡ Some owner) }
    {
        self.own == Some(owner)
    }

    // Whether the Own is sealed, which is false where there is none.
    fn is_sealed(&self) -> bool
        ensures { result ≡ is_sealed self.now.own }
    {
        match self.own {
            Some(owner) => owner.sealed,
            None => false,
        }
    }

    // Whether the actor has a Ref.
    pub fn has_ref_of(&self, actor: u32) -> bool
        ensures { IsTrue result ↔ Contains self.now.refs.items actor }
    {
        self.refs.contains(&actor)
    }

    // Whether the actor holds the title in any way.
    pub fn is_held_by(&self, actor: u32) -> bool
        ensures { IsTrue result ↔ IsHeldBy self.now actor }
    {
        self.is_free_of(actor) || self.is_own_of(actor) || self.has_ref_of(actor)
    }

    // Whether the actor has the Own, in any state.
    fn is_own_of(&self, actor: u32) -> bool
        ensures { IsTrue result ↔
            ((state : OwnState) × (sealed : Bool) × (self.now.own ≡ Some (record { actor = actor; state = state; sealed = sealed }))) }
    {
        match self.own {
            Some(owner) => owner.actor == actor,
            None => false,
        }
    }

    // Whether the actor is the owner and has content words left to poison.
    pub fn can_poison(&self, actor: u32) -> bool
        ensures { IsTrue result ↔ CanPoison self.now actor }
    {
        match self.own {
            Some(owner) => owner.actor == actor
                && owner.state.progress() < self.title.content_words(),
            None => false,
        }
    }

    // The step of the actor on the count word, which gives the title back if `back` says so. Only a copy needs memory.
    pub fn make_step(&mut self, actor: u32, step: Step, back: bool) -> Result<(), OutOfMemory>
        requires { step ≡ Step.Reset → Contains self.old.refs.items actor }
        ensures ok { OnOk result (IsSlotStepped step actor back self.old self.new) }
        ensures err { OnErr result (IsSameSlot self.old self.new) }
        ensures asks { OnErr result (step ≡ Step.Copy) }
    {
        match step {
            Step::Issue => self.issue(actor, false),
            Step::Copy => self.refs.push(actor)?,
            Step::Reset => {
                self.drop_ref(actor);
                self.give_back(actor, back);
            }
            Step::Free => {
                self.own = None;
                self.give_back(actor, back);
            }
            Step::Write => self.restate(actor, OwnState::Clean),
        }
        Ok(())
    }

    // The title, which was free, is the actor's clean Own, sealed or not.
    pub fn issue(&mut self, actor: u32, sealed: bool)
        ensures { IsIssuedSlot sealed actor self.old self.new }
    {
        self.free = None;
        self.own = Some(Owner {
            actor,
            state: OwnState::Clean,
            sealed,
        });
    }

    // The actor holds the slot free, if the step left bit and count 0.
    fn give_back(&mut self, actor: u32, back: bool)
        ensures { IsNextSlot self.old self.new (if back then Some actor else self.old.free) self.old.own self.old.refs.items }
    {
        if back {
            self.free = Some(actor);
        }
    }

    // Removes one Ref of the actor.
    fn drop_ref(&mut self, actor: u32)
        requires { Contains self.old.refs.items actor }
        ensures { (k : ℕ) × (k < length self.old.refs.items) × (slice_index self.old.refs.items k ≡ actor)
            × IsNextSlot self.old self.new self.old.free self.old.own (swap_remove self.old.refs.items k 0) }
    {
        let place = self.ref_place(actor);
        self.refs.swap_remove(place);
    }

    // The actor's index among the Refs.
    fn ref_place(&self, actor: u32) -> usize
        requires { Contains self.now.refs.items actor }
        ensures below { result < length self.now.refs.items }
        ensures found { slice_index self.now.refs.items result ≡ actor }
    {
        for (place, holder) in self.refs.iter().enumerate() {
            if *holder == actor {
                return place;
            }
        }
        0
    }

    // Sets the owner and its state. The Own stays sealed or not.
    pub fn restate(&mut self, actor: u32, state: OwnState)
        ensures { IsRestatedSlot actor state self.old self.new }
    {
        let sealed = self.is_sealed();
        self.own = Some(Owner {
            actor,
            state,
            sealed,
        });
    }

    // The title becomes free of this actor.
    pub fn hand_free(&mut self, to: u32)
        ensures { IsNextSlot self.old self.new (Some to) self.old.own self.old.refs.items }
    {
        self.free = Some(to);
    }

    // One Ref goes from one actor to the other.
    pub fn hand_ref(&mut self, from: u32, to: u32)
        requires { Contains self.old.refs.items from }
        ensures { (k : ℕ) × (k < length self.old.refs.items) × (slice_index self.old.refs.items k ≡ from)
            × IsNextSlot self.old self.new self.old.free self.old.own (slice_set self.old.refs.items k to) }
    {
        let place = self.ref_place(from);
        self.refs[place] = to;
    }
}
