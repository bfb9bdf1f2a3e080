//! The entries of a history.

/// The type of the entries, and which lists of them are legal histories.
pub trait Chronicle {
    ghost use Rattle.std.specs.Prelude.{ℕ, Bool, List, []};

    type Entry;

    // The histories of a channel of this capacity, reserved or not.
    ghost legal: { ℕ → Bool → List Self.Entry → Type 0 };

    // The number of the pass that made the call.
    ghost who: { Self.Entry → ℕ };

    ghost begins: { (capacity : ℕ) (is_reserved : Bool) → legal capacity is_reserved [] };
}

/// A value of the code that determines an entry.
pub trait Telling<H: Chronicle> {
    ghost entry: { Self → H.Entry };
}
