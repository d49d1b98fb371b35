ghost use Rattle.std.specs.Prelude.{◌≡◌, ◌↔◌, ℕ, ◌+◌, ◌*◌, ◌≤◌, ◌++◌, List, [], ◌∷◌, length, codes};
ghost use Rattle.pa_text.specs.Numeral.{IsNumeral};
ghost use Rattle.pa_trace.specs.declared.fault.TraceFault.{TraceFault};
ghost use Rattle.pa_trace.specs.declared.line.Head.{Head};
ghost use Rattle.pa_trace.specs.declared.script.Trace.{Trace};
ghost use Rattle.pa_trace.specs.Grammar.{IsHeadText, IsTraceText, IsSameTrace, last_version};
ghost use Rattle.pa_trace.specs.Limits.{IsWithinLimits, IsInput};
ghost use Rattle.pa_trace.specs.Faults.{IsFirstFault, IsFault};
ghost use Rattle.pa_trace.specs.Generated.{drawn_words, IsGeneratedOf, KeepsCellsApart};

/// A trace has one text, and a text belongs to one trace, even if numbers pass their limits.
pub fn one_text()
    ensures text { (t : Trace) (a b : List ℕ) → IsTraceText t a → IsTraceText t b → a ≡ b }
    ensures trace { (s t : Trace) (text : List ℕ) → IsTraceText s text → IsTraceText t text → IsSameTrace s t }
{}

/// The head of version 1 is the one that it was when there was no other version, and none of its partitions is plain.
pub fn first_version_text()
    ensures { (h : Head) (text : List ℕ) → h.version ≡ 1 → IsHeadText h text ↔ ((n p t : List ℕ) × IsNumeral h.region n
        × IsNumeral h.partitions p × IsNumeral h.threads t × (h.plain ≡ 0)
        × (text ≡ codes "trace 1 region " ++ n ++ codes " partitions " ++ p ++ codes " threads " ++ t)) }
{}

/// Bytes are an input of a version up to the last one that is known, or they have one first fault: its line and its cause are determined.
pub fn one_answer()
    ensures none { (known : ℕ) (t : Trace) (bytes : List ℕ) (e : TraceFault) → t.version ≤ known → IsInput t bytes
        → IsFirstFault known e bytes → ⊥ }
    ensures one { (known : ℕ) (d e : TraceFault) (bytes : List ℕ) → IsFirstFault known d bytes → IsFirstFault known e bytes → d ≡ e }
    ensures some { (known : ℕ) (bytes : List ℕ) → known ≤ last_version → ((t : Trace) → t.version ≤ known → IsInput t bytes → ⊥)
        → (e : TraceFault) × IsFirstFault known e bytes }
{}

/// The first 4,194,305 bytes have the fault of the whole: no more of the text has to be read.
pub fn early_fault()
    ensures { (known : ℕ) (e : TraceFault) (bytes more : List ℕ) → length bytes ≡ 4194305 → IsFault known e bytes
        → IsFault known e (bytes ++ more) }
{}

/// The text of a trace within the limits is an input, so what is written can be read again.
pub fn short_text()
    ensures { (t : Trace) (text : List ℕ) → IsWithinLimits t → IsTraceText t text → IsInput t text }
{}

/// A generated trace has 81 lines a round, the head included, and is within the limits, and no cell is touched by two threads
/// in one phase, whatever words were drawn.
pub fn generated_lines_fit()
    ensures lines { (words : List ℕ) (n : ℕ) (t : Trace) → 1 ≤ n → IsGeneratedOf words n t → length t.lines + 1 ≡ 81 * n }
    ensures limits { (words : List ℕ) (n : ℕ) (t : Trace) → 1 ≤ n → n ≤ 800 → IsGeneratedOf words n t → IsWithinLimits t }
    ensures cells { (words : List ℕ) (n : ℕ) (t : Trace) → 1 ≤ n → IsGeneratedOf words n t → KeepsCellsApart t.lines }
{}

/// The first three words of key 7.
pub fn first_draws()
    ensures { drawn_words 7 3 ≡ 0x840d99ca ∷ 0x12c757de ∷ 0x7481b420 ∷ [] }
{}
