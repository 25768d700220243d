// A whole section.
ghost use Rattle.std.specs.Prelude.{◌/◌, ◌≤◌, length, MatchResult};
ghost use Rattle.framing.specs.Sections.{bytes_of};
ghost use Rattle.reader.specs.Read.{FirstUnread, ReadFrom};
ghost use Rattle.table.specs.Tables.{listed};

use crate::record::Record;
use framing::fault::Fault;
use framing::section::Section;
use table::Table;

// The records that the bytes of a section write, in a table, or the refusal of the first bad one.
pub fn read_records<R: Record + Copy, const N: usize>(
    section: Section,
) -> Result<Table<R, N>, Fault>
    ensures all_read_or_the_first_refused { length (bytes_of section.entry) / R.Record.WIDTH ≤ N → length (bytes_of section.entry) / R.Record.WIDTH ≤ 65535 → MatchResult result
        (λ t. ReadFrom R.Record.WIDTH R.Record.written R.Record.good (bytes_of section.entry) (listed t))
        (FirstUnread R.Record.WIDTH R.Record.good R.Record.REFUSAL R.Record.PART (bytes_of section.entry)) }
{
    let bytes = section.bytes();
    let mut table: Table<R, N> = Table::new(R::BLANK);
    // Counted by the record's width and not by `Section::count`, which goes by the section's: a caller then
    // need not show that the two are one.
    // By place and not by chunks: what is written and what is refused are both told by place.
    for i in 0..bytes.len() / R::WIDTH {
        let Some(row) = R::read(bytes, i) else {
            return Err(Fault::at_record(R::REFUSAL, R::PART, i));
        };
        table.push(row);
    }
    Ok(table)
}
