// What a table does with its records.
ghost use Rattle.std.specs.Prelude.{◌≡◌, ℕ, ◌≤◌, [], length, replicate, nat_lt, slice_set};
ghost use Rattle.table.specs.Tables.{after_push, found, listed};

use crate::Table;

impl<T: Copy, const N: usize> Table<T, N> {
    // A table of repeated blank records, none of which counts.
    pub fn new(blank: T) -> Table<T, N>
        ensures lists_nothing { listed result ≡ [] }
        ensures is_blank { result.records ≡ replicate N blank }
    {
        Table {
            records: [blank; N],
            len: 0,
        }
    }

    // How many records count.
    pub fn len(&self) -> usize
        ensures counts_them { result ≡ length (listed self.now) }
        ensures fits { result ≤ N }
    {
        self.as_slice().len()
    }

    // One record more, if there is room; whether there was, as a set's `insert` says whether it was new. A
    // full table stays as it is.
    pub fn push(&mut self, record: T) -> bool
        ensures says_whether_there_was_room { result ≡ nat_lt (length (listed self.old)) N }
        ensures adds_it_last_if_there_was { listed self.new ≡ after_push result (listed self.old) «record» }
    {
        let at = self.len;
        if at >= N {
            return false;
        }
        self.records[at] = record;
        self.len = at + 1;
        true
    }

    // Another record at an index, if one counts there; whether one did. A table stays as long as it is.
    #[tactic(auto, using(crate::proofs::Listed::put_among))]
    pub fn set(&mut self, i: usize, record: T) -> bool
        ensures says_whether_one_counts_there { result ≡ nat_lt i (length (listed self.old)) }
        ensures puts_it_there { listed self.new ≡ slice_set (listed self.old) i «record» }
    {
        let there = i < self.len;
        if there {
            self.records[i] = record;
        }
        there
    }

    // The record at an index, or nothing where none counts there.
    pub fn get(&self, i: usize) -> Option<T>
        ensures is_found_there { result ≡ found (listed self.now) i }
    {
        self.as_slice().get(i).copied()
    }

    // The records that count.
    pub fn as_slice(&self) -> &[T]
        ensures are_the_listed { result.now ≡ listed self.now }
    {
        let all = &self.records[..];
        &all[0..self.len]
    }
}
