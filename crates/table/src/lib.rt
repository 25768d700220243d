// Fixed tables: up to so many records, in order of adding, and no memory asked for.
#![tactic(auto)]

ghost use Rattle.std.specs.Prelude.{◌≡◌, ℕ, ◌≤◌, length};

// The first `len` of N records count, the rest are blank.
#[derive(Drop)]
pub struct Table<T, const N: usize> {
    records: [T; N],
    len: usize,
    ghost whole: { length records ≡ N },
    ghost few: { len ≤ N },
}

pub mod records;
