// Numbers in a sheet are unsigned and big-endian.
ghost use Rattle.std.specs.Prelude.{◌≡◌, ℕ, ◌+◌, ◌<◌, ◌≤◌, length, replicate, slice_index};
ghost use Rattle.framing.specs.Layout.{u16at, u32at};

// The N bytes at a place, or zeros where they are not all there.
fn bytes_at<const N: usize>(bytes: &[u8], at: usize) -> [u8; N]
    ensures are_those { at + N ≤ length bytes.now → (i : ℕ) → i < N → slice_index result i ≡ slice_index bytes.now (i + at) }
    ensures else_zeros { length bytes.now < at + N → result ≡ replicate N 0 }
{
    let rest = &bytes[at.min(bytes.len())..];
    rest.first_chunk().copied().unwrap_or([0; N])
}

// The two bytes at a place as a number, or 0 where they are not all there.
#[tactic(auto, using(crate::proofs::Numbers::two))]
pub fn u16_at(bytes: &[u8], at: usize) -> u16
    ensures reads_them { at + 2 ≤ length bytes.now → result ≡ u16at bytes.now at }
    ensures else_0 { length bytes.now < at + 2 → result ≡ 0 }
{
    u16::from_be_bytes(bytes_at(bytes, at))
}

// The four bytes at a place as a number, or 0 where they are not all there.
#[tactic(auto, using(crate::proofs::Numbers::four))]
pub fn u32_at(bytes: &[u8], at: usize) -> u32
    ensures reads_them { at + 4 ≤ length bytes.now → result ≡ u32at bytes.now at }
    ensures else_0 { length bytes.now < at + 4 → result ≡ 0 }
{
    u32::from_be_bytes(bytes_at(bytes, at))
}
