//! Spans in a vector, as a store of spans.
ghost use Rattle.std.specs.Prelude.{◌≡◌, ◌+◌, ◌<◌, ◌≤◌, refl, All, IfOk, length};
ghost use Rattle.std.proofs.Common.{◌∙◌};
ghost use Rattle.pa_buckets.specs.Limits.{class_count};
ghost use Rattle.pa_spans.specs.Lists.{IsOutside};
ghost use Rattle.pa_test_spans.specs.Table.{listed_spans, has_number};

use pa_buckets::{Class, State};
use pa_spans::{Span, SpanStore};
use std::alloc::{AllocError, Global};

// The span at each number from 1 on.
#[derive(Drop)]
pub(crate) struct Table {
    pub(crate) spans: Vec<Span>,
}

impl SpanStore for Table {
    ghost spans = { λ t u. listed_spans t.spans.items u };

    ghost has = { λ t u. has_number t.spans.items u };

    ghost follows = { λ a b. length b.spans.items ≡ length a.spans.items };

    fn get(&mut self, at: u32) -> Span {
        self.spans[at as usize]
    }

    fn set(&mut self, at: u32, span: Span) {
        self.spans[at as usize] = span;
    }

    ghost follows_same = { λ a. refl };

    ghost follows_on = { λ a b c p q. q ∙ p };
}

// This many spans that aren't in use, of five classes in turn, from this one on.
pub(crate) fn new_table(alloc: Global, count: u32, first: u32) -> Result<Table, AllocError>
    requires classes { first + 5 ≤ class_count }
    ensures { IfOk result (λ t. All IsOutside t.spans.items) }
{
    let mut spans = Vec::new(alloc);
    for number in 0..count {
        spans.push(new_span(first + number % 5))?;
    }
    Ok(Table { spans })
}

// A span of the class that isn't in use.
fn new_span(class: u32) -> Span
    requires { class < class_count }
    ensures { IsOutside result }
{
    Span {
        class: Class::of(class).unwrap(),
        state: State::None,
        allocated: 0,
        provisioned: 0,
        committed: 0,
        made: 0,
        head: 0,
        previous: 0,
        next: 0,
        turn: 0,
    }
}
