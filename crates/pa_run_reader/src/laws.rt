ghost use Rattle.std.specs.Prelude.{◌≡◌, ℕ, List, None};
ghost use Rattle.std.specs.List.{flat_map};
ghost use Rattle.pa_trace.specs.Faults.{lines_of};
ghost use Rattle.pa_record.specs.Text.{run_text};
ghost use Rattle.pa_record.specs.RunText.{IsRunText};
ghost use Rattle.pa_record.specs.declared.run.Run.{Run};
ghost use Rattle.pa_run_reader.specs.declared.item.Item.{Item};
ghost use Rattle.pa_run_reader.specs.Item.{item_text};
ghost use Rattle.pa_run_reader.specs.Order.{IsFirstBad, AreInOrder, items_of};
ghost use Rattle.pa_run_reader.specs.Gathered.{Gathered, TellsGathered};

/// The law that the text of a run has no bad line, so no text is both read and refused.
pub fn one_reading()
    ensures { (r : Run) (bytes : List ℕ) (m : ℕ) → IsRunText r bytes → IsFirstBad 1 None (lines_of bytes) m → ⊥ }
{}

/// A text has one first bad line at most.
pub fn one_bad_line()
    ensures { (bytes : List ℕ) (m n : ℕ) → IsFirstBad 1 None (lines_of bytes) m → IsFirstBad 1 None (lines_of bytes) n → m ≡ n }
{}

/// A run's text is the lines of its items, and these are in order from the head to `end`.
pub fn runs_are_in_order()
    ensures text { (r : Run) → run_text r ≡ flat_map item_text (items_of r) }
    ensures order { (r : Run) (bytes : List ℕ) → IsRunText r bytes → AreInOrder None (items_of r) }
{}

/// Items in order are those of each run with the lists that they gather, and their lines are its text.
pub fn items_in_order_are_runs()
    ensures { (is : List Item) → AreInOrder None is → (g : Gathered)
        × ((r : Run) → TellsGathered g r → IsRunText r (flat_map item_text is) × (items_of r ≡ is)) }
{}
