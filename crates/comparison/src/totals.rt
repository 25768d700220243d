// How the sheets came out, all together.
ghost use Rattle.std.specs.Prelude.{◌≡◌, ◌+◌, ◌<◌, ◌≤◌, min};

use crate::compared::Compared;
use std::fmt;

// From so many nodes on a sheet is a large one.
const LARGE: usize = 200;

// How many sheets of some kind there were. Counts stop at their largest number, here and elsewhere by
// `saturating_add` where they are added to: a type of counts would say no more.
#[derive(Clone, Copy)]
pub struct Sheets {
    all: u32,
    large: u32,
    with_taken: u32,
    differ: u32,
    ghost no_more_large_than_all: { large ≤ all },
    ghost no_more_with_taken_than_all: { with_taken ≤ all },
    ghost no_more_differ_than_all: { differ ≤ all },
}

impl Sheets {
    // By hand: a struct with facts of its fields derives no `Default`.
    fn new() -> Sheets
        ensures nothing_counted { (result.all ≡ 0) × (result.large ≡ 0) × (result.with_taken ≡ 0) × (result.differ ≡ 0) }
    {
        Sheets {
            all: 0,
            large: 0,
            with_taken: 0,
            differ: 0,
        }
    }

    // Counts a sheet by its size, by whether an entry is taken in it, and by whether it differs.
    fn count(&mut self, nodes: usize, taken: u32, differences: u32)
        ensures counts_the_sheet { self.new.all ≡ min (self.old.all + 1) 4294967295 }
        ensures counts_a_large_one { 200 ≤ nodes → self.new.large ≡ min (self.old.large + 1) 4294967295 }
        ensures counts_no_small_one { nodes < 200 → self.new.large ≡ self.old.large }
        ensures counts_one_with_taken { 0 < taken → self.new.with_taken ≡ min (self.old.with_taken + 1) 4294967295 }
        ensures counts_no_other { taken ≡ 0 → self.new.with_taken ≡ self.old.with_taken }
        ensures counts_what_differs { 0 < differences → self.new.differ ≡ min (self.old.differ + 1) 4294967295 }
        ensures counts_no_agreeing_one { differences ≡ 0 → self.new.differ ≡ self.old.differ }
    {
        self.all = self.all.saturating_add(1);
        if nodes >= LARGE {
            self.large = self.large.saturating_add(1);
        }
        if taken > 0 {
            self.with_taken = self.with_taken.saturating_add(1);
        }
        if differences > 0 {
            self.differ = self.differ.saturating_add(1);
        }
    }
}

// How much was compared in all sheets.
#[derive(Clone, Copy, Default)]
pub struct Sums {
    scopes: u32,
    entries: u32,
    taken: u32,
    expressions: u32,
}

impl Sums {
    fn add(&mut self, compared: Compared)
        ensures adds_the_scopes { self.new.scopes ≡ min (self.old.scopes + compared.scopes) 4294967295 }
        ensures adds_the_entries { self.new.entries ≡ min (self.old.entries + compared.entries) 4294967295 }
        ensures adds_the_taken { self.new.taken ≡ min (self.old.taken + compared.taken) 4294967295 }
        ensures adds_the_expressions { self.new.expressions ≡ min (self.old.expressions + compared.expressions) 4294967295 }
    {
        self.scopes = self.scopes.saturating_add(u32::from(compared.scopes));
        self.entries = self.entries.saturating_add(compared.entries);
        self.taken = self.taken.saturating_add(compared.taken);
        self.expressions = self.expressions.saturating_add(compared.expressions);
    }
}

#[derive(Clone, Copy)]
pub struct Totals {
    sheets: Sheets,
    sums: Sums,
}

impl Totals {
    pub(crate) fn new() -> Totals
        ensures nothing_counted { result.sheets.all ≡ 0 }
    {
        Totals {
            sheets: Sheets::new(),
            sums: Sums::default(),
        }
    }

    // Counts a sheet, and what was compared in it.
    pub(crate) fn count(&mut self, compared: Compared, differences: u32)
        ensures counts_the_sheet { self.new.sheets.all ≡ min (self.old.sheets.all + 1) 4294967295 }
        ensures counts_what_differs { 0 < differences → self.new.sheets.differ ≡ min (self.old.sheets.differ + 1) 4294967295 }
        ensures counts_no_agreeing_one { differences ≡ 0 → self.new.sheets.differ ≡ self.old.sheets.differ }
    {
        self.sheets
            .count(compared.nodes, compared.taken, differences);
        self.sums.add(compared);
    }
}

impl fmt::Display for Totals {
    fn fmt<W: fmt::Write>(&self, f: &mut fmt::Formatter<W>) -> fmt::Result {
        let Sums {
            scopes,
            entries,
            taken,
            expressions,
        } = self.sums;
        let Sheets {
            all,
            large,
            with_taken,
            differ,
        } = self.sheets;
        writeln!(
            f,
            "{scopes} scopes, {entries} entries, {expressions} expressions compared"
        )?;
        writeln!(
            f,
            "{taken} entries in {with_taken} sheets are taken from another scope by the ported crate alone: not compared"
        )?;
        writeln!(f, "{large} sheets of {LARGE} nodes and more")?;
        write!(f, "{all} sheets, {differ} differ")
    }
}
