// The bindings and the outer frames: refusal 7.
ghost use Rattle.std.specs.Prelude.{◌≡◌, ◌≤◌, MatchOption};
ghost use Rattle.framing.specs.declared.fault.Part.TheVariants.{Bindings, Frames};
ghost use Rattle.framing.specs.declared.fault.Refusal.TheVariants.{NameOrFrame};
ghost use Rattle.sheet.specs.Records.{GoodBinding, GoodFrame, binding_at, frame_at, frame_from};
ghost use Rattle.std.proofs.Common.{lit<};

use crate::node::{BLANK_BINDING, Binding, Frame};
use format::ids::{BlockId, HygieneId, Name, OwnerId};
use framing::bytes::u32_at;
use framing::fault::{Part, Refusal};
use reader::record::Record;

impl Record for Binding {
    const PART: Part = Part::Bindings;

    ghost PART = { Bindings };

    const REFUSAL: Refusal = Refusal::NameOrFrame;

    ghost REFUSAL = { NameOrFrame };

    const WIDTH: usize = 8;

    ghost WIDTH = { 8 };

    ghost has_bytes = { lit< tt };

    const BLANK: Binding = BLANK_BINDING;

    ghost written = { binding_at };

    ghost good = { GoodBinding };

    // Refused where it has no name or that of `Self`.
    fn read(bytes: &[u8], i: usize) -> Option<Binding> {
        let name = u32_at(bytes, 8 * i);
        if name == 0 || name == 2 {
            return None;
        }
        Some(Binding {
            name: Name(name),
            hygiene: HygieneId(u32_at(bytes, 8 * i + 4)),
        })
    }
}

// The frame of a kind and a number, or none of an unknown kind. Its kind has the number with it, so
// this is no `TryFrom` of one number.
fn frame_from(code: u8, number: u32) -> Option<Frame>
    ensures by_its_kind { MatchOption result ((1 ≤ code) × (code ≤ 3) → ⊥) (λ f. (f ≡ frame_from code number) × (1 ≤ code) × (code ≤ 3)) }
{
    match code {
        1 => Some(Frame::ImplGenerics(OwnerId(number))),
        2 => Some(Frame::Generics(OwnerId(number))),
        3 => Some(Frame::Block(BlockId(number))),
        _ => None,
    }
}

impl Record for Frame {
    const PART: Part = Part::Frames;

    ghost PART = { Frames };

    const REFUSAL: Refusal = Refusal::NameOrFrame;

    ghost REFUSAL = { NameOrFrame };

    const WIDTH: usize = 5;

    ghost WIDTH = { 5 };

    ghost has_bytes = { lit< tt };

    const BLANK: Frame = Frame::ImplGenerics(OwnerId(0));

    ghost written = { frame_at };

    ghost good = { GoodFrame };

    // Refused where its kind is unknown or its number 0.
    fn read(bytes: &[u8], i: usize) -> Option<Frame> {
        let number = u32_at(bytes, 5 * i + 1);
        if number == 0 {
            return None;
        }
        frame_from(bytes[5 * i], number)
    }
}
