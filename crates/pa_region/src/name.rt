ghost use Rattle.std.specs.Prelude.{[], ℕ};

use std::marker::Brand;

/// Which region a value that is kept behind a lock belongs to, and which partition is the first whose Owns are sealed: only its type
/// can say what is known of it. It has no calls. One call of a program picks both: it gives `Brand` for the name.
pub trait Name {
    ghost use Rattle.atomic_table.specs.Seated.{TableId};

    ghost region: { TableId };

    ghost plain_from: { ℕ };
}

impl Name for Brand {
    ghost region = { record { words = 0; slots = 0; views_name = 0; atom = 0; block = 0; offset = 0; slot_names = [] } };

    ghost plain_from = { 0 };
}
