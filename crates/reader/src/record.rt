// A record as the bytes of its section write it.
ghost use Rattle.std.specs.Prelude.{◌≡◌, ℕ, ◌<◌, List, MatchOption};
ghost use Rattle.framing.specs.declared.fault.Part.{Part};
ghost use Rattle.framing.specs.declared.fault.Refusal.{Refusal};
ghost use Rattle.reader.specs.Read.{There};

use framing::fault::{Part, Refusal};

pub trait Record: Sized {
    // The section that such records stand in.
    const PART: Part;

    ghost PART: { Part };

    // What a bad one is refused for.
    const REFUSAL: Refusal;

    ghost REFUSAL: { Refusal };

    // How many bytes one has.
    const WIDTH: usize;

    ghost WIDTH: { ℕ };

    ghost has_bytes: { 0 < WIDTH };

    // What a table has at the places where no record stands yet.
    const BLANK: Self;

    // Which record a section's bytes write at a place, from 0, and whether it is good.
    ghost written: { List ℕ → ℕ → Self };

    ghost good: { List ℕ → ℕ → Type 0 };

    // The record at a place, or nothing where it is bad.
    fn read(bytes: &[u8], i: usize) -> Option<Self>
        requires is_there { There WIDTH bytes.now i }
        ensures as_written_or_bad { MatchOption result
            (good bytes.now i → ⊥)
            (λ v. (v ≡ written bytes.now i) × good bytes.now i) };
}
