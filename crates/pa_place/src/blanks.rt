ghost use Rattle.std.specs.Prelude.{◌≡◌, IfOk, All};
ghost use Rattle.pa_place.specs.Served.{blank_span};
ghost use Rattle.pa_place.specs.Store.{HasBlanks};

use crate::plain_span::PlainSpan;
use pa_buckets::Class;
use pa_slot::OutOfMemory;
use std::alloc::Global;
use std::marker::Model;
use std::mem;

// The number of classes.
const CLASSES: usize = pa_buckets::CLASSES as usize;

// Blank spans that are ready for use, in a list for each class. They aren't part of the root.
#[derive(Drop)]
pub(crate) struct Blanks {
    lists: Vec<Vec<PlainSpan>>,
}

impl Model for Blanks {
    ghost use Rattle.std.specs.Prelude.{◌≡◌, ℕ, Some, All, slice_get, vec_len};

    ghost Value = { Unit {0} };

    ghost use Rattle.pa_place.specs.Served.{AreBlank};

    ghost view = { λ b. tt };

    ghost invariant = { λ b. AreBlank b.lists };
}

impl Blanks {
    // No blank spans.
    pub(crate) fn new(alloc: Global) -> Result<Blanks, OutOfMemory> {
        let mut lists = Vec::with_capacity(alloc, CLASSES)?;
        for _class in 0..CLASSES {
            lists.push_reserved(Vec::new(alloc));
        }
        Ok(Blanks { lists })
    }

    // Takes the list of the class, with at least `count` spans. If memory runs out, it is empty.
    pub(crate) fn take(
        &mut self,
        alloc: Global,
        class: Class,
        count: u32,
    ) -> Result<Vec<PlainSpan>, OutOfMemory>
        ensures { IfOk result (λ blanks. HasBlanks class count blanks.items) }
    {
        let list = mem::replace(&mut self.lists[class.number() as usize], Vec::new(alloc));
        with_blanks(alloc, class, count, list)
    }

    // Puts the list of the class back.
    pub(crate) fn put(&mut self, class: Class, list: Vec<PlainSpan>)
        requires { All (λ s. s ≡ blank_span class) list.items }
    {
        self.lists[class.number() as usize] = list;
    }
}

// The list, with at least `count` blank spans of the class.
fn with_blanks(
    alloc: Global,
    class: Class,
    count: u32,
    mut list: Vec<PlainSpan>,
) -> Result<Vec<PlainSpan>, OutOfMemory>
    requires { All (λ s. s ≡ blank_span class) list.items }
    ensures { IfOk result (λ blanks. HasBlanks class count blanks.items) }
{
    let missing = (count as usize).saturating_sub(list.len());
    list.reserve(missing)?;
    for _blank in 0..missing {
        list.push_reserved(PlainSpan::blank(alloc, class)?);
    }
    Ok(list)
}
