// The frame of a sheet of any format: refusals 1 to 3, and each section as a part of the bytes.
ghost use Rattle.std.specs.Prelude.{◌≡◌, ℕ, ◌+◌, ◌*◌, ◌<◌, ◌≤◌, length, MatchResult};
ghost use Rattle.framing.specs.Faults.{First, part_number};
ghost use Rattle.framing.specs.Framing.{CountFits, Framing, Version1};
ghost use Rattle.framing.specs.Layout.{bytes_in, count_of, end_from, last_end, start_of, u16at, u32at};
ghost use Rattle.framing.specs.Plans.{format_of, part_at, sections_of, width_of};
ghost use Rattle.framing.specs.Stages.{FirstOf, NoRecord, Sound};

use crate::bytes::{u16_at, u32_at};
use crate::fault::{Fault, Part, Refusal};
use crate::sheet_format::SheetFormat;

// Refusal 1.
fn check_version(bytes: &[u8]) -> Result<(), Fault>
    ensures version_1_or_refused { MatchResult result
        (λ _. Version1 bytes.now)
        (λ f. NoRecord Refusal.Version Part.Whole f × (Version1 bytes.now → ⊥)) }
{
    if bytes.first() != Some(&1) {
        return Err(Fault::of_part(Refusal::Version, Part::Whole));
    }
    Ok(())
}

// Where the section that begins at a place ends, or refusal 2 where it runs past the bytes.
fn end_of(bytes: &[u8], at: usize, part: Part) -> Result<usize, Fault>
    requires within { at ≤ length bytes.now }
    ensures its_end_or_runs_past { MatchResult result
        (λ e. (e ≡ end_from bytes.now at (width_of part)) × (e ≤ length bytes.now))
        (λ f. NoRecord Refusal.Length part f × (length bytes.now < end_from bytes.now at (width_of part))) }
{
    if bytes.len() - at < 2 {
        return Err(Fault::of_part(Refusal::Length, part));
    }
    let size = part.limits().width * usize::from(u16_at(bytes, at));
    if bytes.len() - at - 2 < size {
        return Err(Fault::of_part(Refusal::Length, part));
    }
    Ok(at + 2 + size)
}

// Refusal 2: the length says what follows it, each section ends within the bytes, and none is left.
fn check_length(format: SheetFormat, bytes: &[u8]) -> Result<(), Fault>
    ensures fits_or_the_first_refused { MatchResult result
        (λ _. (5 + u32at bytes.now 1 ≡ length bytes.now) × (last_end bytes.now format ≡ length bytes.now))
        (FirstOf (Framing format bytes.now) Refusal.Length) }
{
    if bytes.len() < 5 {
        return Err(Fault::of_part(Refusal::Length, Part::Whole));
    }
    if bytes.len() - 5 != u32_at(bytes, 1) as usize {
        return Err(Fault::of_part(Refusal::Length, Part::Whole));
    }
    let mut at = 5;
    for part in format.plan() {
        at = end_of(bytes, at, *part)?;
    }
    if at < bytes.len() {
        return Err(Fault::of_part(Refusal::Length, Part::Whole));
    }
    Ok(())
}

// Where a section begins, in a sheet whose sections all end within the bytes. That the part is a section,
// and that all end within, is asked here and of two more: a type for a sheet that is cut so far would ask
// of each that the part is one of its format, which is no less.
fn start_of(bytes: &[u8], part: Part) -> usize
    requires is_a_section { 1 ≤ part_number part }
    requires all_end_within { last_end bytes.now (format_of part) ≤ length bytes.now }
    ensures is_its_start { result ≡ start_of bytes.now part }
    ensures its_records_follow { result + 2 + width_of part * count_of bytes.now part ≤ length bytes.now }
{
    let before = part.number() as usize - 1;
    let mut at = 5;
    for earlier in &part.format().plan()[..before] {
        let width = earlier.limits().width;
        at += 2 + width * usize::from(u16_at(bytes, at));
    }
    at
}

// Refusal 3 at one section.
fn check_count(bytes: &[u8], part: Part) -> Result<(), Fault>
    requires is_a_section { 1 ≤ part_number part }
    requires all_end_within { last_end bytes.now (format_of part) ≤ length bytes.now }
    ensures in_limits_or_refused { MatchResult result
        (λ _. CountFits bytes.now part)
        (λ f. NoRecord Refusal.Count part f × (CountFits bytes.now part → ⊥)) }
{
    let count = usize::from(u16_at(bytes, start_of(bytes, part)));
    let limits = part.limits();
    if !(limits.least..=limits.most).contains(&count) {
        return Err(Fault::of_part(Refusal::Count, part));
    }
    Ok(())
}

// Refusal 3 at the first section that it fits.
fn check_counts(format: SheetFormat, bytes: &[u8]) -> Result<(), Fault>
    requires all_end_within { last_end bytes.now format ≤ length bytes.now }
    ensures all_fit_or_the_first_refused { MatchResult result
        (λ _. (i : ℕ) → i < sections_of format → CountFits bytes.now (part_at format i))
        (FirstOf (Framing format bytes.now) Refusal.Count) }
{
    for part in format.plan() {
        check_count(bytes, *part)?;
    }
    Ok(())
}

// The first of refusals 1 to 3.
pub(crate) fn check_frame(format: SheetFormat, bytes: &[u8]) -> Result<(), Fault>
    ensures sound_or_the_first_cause { MatchResult result (λ _. Sound format bytes.now) (First (Framing format bytes.now)) }
{
    check_version(bytes)?;
    check_length(format, bytes)?;
    check_counts(format, bytes)?;
    Ok(())
}

// The records of a section, in a sheet whose sections all end within the bytes.
pub(crate) fn records<'a>(bytes: &'a [u8], part: Part) -> &'a [u8]
    requires is_a_section { 1 ≤ part_number part }
    requires all_end_within { last_end bytes.now (format_of part) ≤ length bytes.now }
    ensures are_the_sections { result.now ≡ bytes_in bytes.now part }
    ensures are_as_many_as_it_says { length result.now ≡ width_of part * count_of bytes.now part }
{
    let start = start_of(bytes, part);
    let first = start + 2;
    &bytes[first..first + part.limits().width * usize::from(u16_at(bytes, start))]
}
