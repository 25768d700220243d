// What stands around the body: the outer frames, and the module. These functions take the items and a
// name, and are no methods of a resolver: as such each would carry the expansions, which none asks.
ghost use Rattle.host.specs.First.{first};
ghost use Rattle.resolve.specs.Outward.{const_param_of, frame_answer, item_at, item_in, no_frame, outside};
ghost use Rattle.sheet.specs.Held.{frames_of};
ghost use Rattle.std.specs.Prelude.{◌≡◌, ◌<◌, reverse, length, slice_index_or};

use crate::resolution::Resolution;
use format::ids::{Name, OwnerId};
use host::hosts::ItemHost;
use host::item::{MODULE, PlaceId};
use reach::data::ScopeKind;
use sheet::body::Body;
use sheet::node::Frame;

// The name `Self`.
const SELF_TYPE: Name = Name(2);

fn item_at<I: ItemHost>(items: &I, place: PlaceId, name: Name) -> Option<Resolution>
    ensures as_the_host_has_it { result ≡ item_at (I.ItemHost.tables items.now) place name }
{
    items.item(place, name).map(Resolution::Item)
}

fn const_param_of<I: ItemHost>(items: &I, owner: OwnerId, name: Name) -> Option<Resolution>
    ensures as_the_host_has_it { result ≡ const_param_of (I.ItemHost.tables items.now) owner name }
{
    items.const_param(owner, name).map(Resolution::ConstParam)
}

// The item at the place of a block's scope; other scopes have no place. A block's place is its number,
// which is said here and at a frame alone, so it is no `From`.
pub(crate) fn ask_block<I: ItemHost>(items: &I, kind: ScopeKind, name: Name) -> Option<Resolution>
    ensures at_its_place { result ≡ item_in (I.ItemHost.tables items.now) kind name }
{
    match kind {
        ScopeKind::Block { id, .. } => item_at(items, PlaceId(id.0), name),
        _ => None,
    }
}

fn ask_frame<I: ItemHost>(items: &I, frame: Frame, name: Name) -> Option<Resolution>
    ensures by_its_kind { result ≡ frame_answer (I.ItemHost.tables items.now) name frame }
{
    match frame {
        Frame::ImplGenerics(owner) if name == SELF_TYPE => Some(Resolution::ImplSelf(owner)),
        Frame::ImplGenerics(owner) | Frame::Generics(owner) => const_param_of(items, owner, name),
        Frame::Block(id) => item_at(items, PlaceId(id.0), name),
    }
}

// What the frame at a place, from 0, the outermost, answers.
fn ask_frame_at<I: ItemHost>(items: &I, body: &Body, place: usize, name: Name) -> Option<Resolution>
    ensures as_that_frame { place < length (frames_of body.now) → result ≡ frame_answer (I.ItemHost.tables items.now) name (slice_index_or (frames_of body.now) place no_frame) }
{
    ask_frame(items, body.frame(place)?, name)
}

// What the innermost frame that answers says.
#[tactic(auto, using(crate::proofs::Frames::frames_step))]
fn ask_frames<I: ItemHost>(items: &I, body: &Body, name: Name) -> Option<Resolution>
    ensures innermost_first { result ≡ first (frame_answer (I.ItemHost.tables items.now) name) (reverse (frames_of body.now)) }
{
    // By place: by `find_map` over the frames in reverse the check leaves one goal, about an iterator's run,
    // that nobody has proved.
    for place in (0..body.frame_count()).rev() {
        if let Some(found) = ask_frame_at(items, body, place, name) {
            return Some(found);
        }
    }
    None
}

// From outside the body: the frames, then the module.
pub(crate) fn ask_outside<I: ItemHost>(items: &I, body: &Body, name: Name) -> Resolution
    ensures frames_then_module { result ≡ outside (I.ItemHost.tables items.now) (frames_of body.now) name }
{
    ask_frames(items, body, name)
        .or_else(|| item_at(items, MODULE, name))
        .unwrap_or(Resolution::Unfound)
}
