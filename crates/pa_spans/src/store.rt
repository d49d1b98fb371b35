ghost use Rattle.std.specs.Prelude.{◌≡◌, ◌==◌, ◌↔◌, ℕ, if◌then◌else◌};
ghost use Rattle.pa_spans.specs.declared.span.Span.{Span};

use crate::span::Span;

/// One span for each payload page of a root's super pages.
pub trait SpanStore {
    /// The span at the offset of each payload page.
    ghost spans: { Self → ℕ → Span };

    /// The offset is that of a payload page of its super pages.
    ghost has: { Self → ℕ → Type 0 };

    /// What its calls leave besides.
    ghost follows: { Self → Self → Type 0 };

    /// The span at the offset of a payload page, in bytes.
    fn get(&mut self, at: u32) -> Span
        requires { has self.old at }
        ensures span { result ≡ spans self.old at }
        ensures same { (u : ℕ) → spans self.new u ≡ spans self.old u }
        ensures has { (u : ℕ) → has self.new u ↔ has self.old u }
        ensures follows { follows self.old self.new };

    /// Puts a span there. Those of other pages stay.
    fn set(&mut self, at: u32, span: Span)
        requires { has self.old at }
        ensures span { (u : ℕ) → spans self.new u ≡ (if u == at then span else spans self.old u) }
        ensures has { (u : ℕ) → has self.new u ↔ has self.old u }
        ensures follows { follows self.old self.new };

    ghost follows_same: { (a : Self) → follows a a };

    ghost follows_on: { (a b c : Self) → follows a b → follows b c → follows a c };
}
