ghost use Rattle.std.specs.Prelude.{◌≡◌, ◌↔◌, IsTrue, ⊤};
ghost use Rattle.pa_rules.specs.Nexts.{HasSomeHandle, copy_next, free_next, is_owner, read_next, reset_next, write_next};

use pa_record::Answer;
use std::alloc::AllocError;

/// What a register of a thread holds. A handle names the object: to the rules by its slot, to a player in its own way.
#[derive(Copy, Debug, PartialEq, Eq)]
pub enum Register<H> {
    /// Nothing yet.
    Empty,
    /// The object's owner, which alone may free it and write it.
    Own(H),
    /// A `raw_ptr` to the object.
    Ref(H),
    /// An owner that freed its object.
    Freed,
    /// A `raw_ptr` that was reset.
    Cleared,
}

/// What a free or a write does, by what its register holds alone.
#[derive(Clone, Copy, Debug, PartialEq, Eq)]
pub enum Next<H> {
    /// It is refused with this answer, and changes nothing.
    Refused(Answer),
    /// It makes its step on the slot of this handle.
    Step(H),
    /// It looks at the slot of this handle, and changes nothing.
    Look(H),
}

impl<H: Copy> Clone for Register<H> {
    ghost is_clone = { λ x y. y ≡ x };

    ghost is_infallible = { λ _. ⊤ };

    fn clone(&self) -> Result<Register<H>, AllocError> {
        Ok(*self)
    }
}

impl<H: Copy> Register<H> {
    /// Whether the register has a handle, so that it can get no other.
    pub fn has_handle(self) -> bool
        ensures { IsTrue result ↔ HasSomeHandle self }
    {
        match self {
            Register::Own(_) | Register::Ref(_) => true,
            Register::Empty | Register::Freed | Register::Cleared => false,
        }
    }

    /// Whether the register is an object's owner. A copy of an owner would not be counted if its slot is in a partition
    /// without reference counts.
    pub fn is_owner(self) -> bool
        ensures { result ≡ is_owner self }
    {
        match self {
            Register::Own(_) => true,
            Register::Empty | Register::Ref(_) | Register::Freed | Register::Cleared => false,
        }
    }

    /// The handle on which a copy makes its step, or the answer with which it is refused.
    /// If the second register has a handle, it is refused too, and so it is if the copy would not be counted.
    pub fn for_copy(self) -> Result<H, Answer>
        ensures { result ≡ copy_next self }
    {
        match self {
            Register::Empty => Err(Answer::Nothing),
            Register::Own(handle) | Register::Ref(handle) => Ok(handle),
            Register::Freed | Register::Cleared => Err(Answer::StaleUse { seen: None }),
        }
    }

    /// The handle on which a reset makes its step, or the answer with which it is refused.
    pub fn for_reset(self) -> Result<H, Answer>
        ensures { result ≡ reset_next self }
    {
        match self {
            Register::Empty => Err(Answer::Nothing),
            Register::Ref(handle) => Ok(handle),
            Register::Own(_) | Register::Freed => Err(Answer::NotRef),
            Register::Cleared => Err(Answer::StaleReset),
        }
    }

    /// What a free of the register does.
    pub fn for_free(self) -> Next<H>
        ensures { result ≡ free_next self }
    {
        match self {
            Register::Empty => Next::Refused(Answer::Nothing),
            Register::Own(handle) => Next::Step(handle),
            Register::Ref(handle) => Next::Look(handle),
            Register::Freed => Next::Refused(Answer::SecondFree { seen: None }),
            Register::Cleared => Next::Refused(Answer::StaleUse { seen: None }),
        }
    }

    /// What a write through the register does. If a `raw_ptr` points to the slot, its step is refused too.
    pub fn for_write(self) -> Next<H>
        ensures { result ≡ write_next self }
    {
        match self {
            Register::Empty => Next::Refused(Answer::Nothing),
            Register::Own(handle) => Next::Step(handle),
            Register::Ref(handle) => Next::Look(handle),
            Register::Freed | Register::Cleared => Next::Refused(Answer::StaleUse { seen: None }),
        }
    }

    /// The handle whose slot a read looks at, or the answer with which it is refused.
    /// A word that isn't the slot's is out of range as well.
    pub fn for_read(self) -> Result<H, Answer>
        ensures { result ≡ read_next self }
    {
        match self {
            Register::Empty => Err(Answer::Nothing),
            Register::Own(handle) | Register::Ref(handle) => Ok(handle),
            Register::Freed | Register::Cleared => Err(Answer::StaleUse { seen: None }),
        }
    }
}
