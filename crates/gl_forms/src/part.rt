//! Members, nodes and dealings read from a JSON tree.

ghost use Rattle.std.specs.Prelude.{◌≡◌};
ghost use Rattle.gl_base.specs.Answers.{Answers};
ghost use Rattle.gl_forms.specs.Parts.{member_in, node_in, share_in, dealing_in, dealing_at};
ghost use Rattle.gl_forms.specs.Place.{pointer_of};
ghost use Rattle.serde_json.specs.View.{view};

use crate::element::{Element, list_at};
use crate::object::{byte_at, endorsement_at, object_at, sized_at, value_at};
use crate::place::Place;
use gl_base::{FormsFault, OrNoMemory};
use gl_requests::{Dealing, NewMember, NewNode, ShareDigest};
use serde_json::Value;
use std::alloc::Global;

impl Element for NewMember {
    ghost form = { member_in };

    #[tactic(auto, unfolding(crate::specs::Parts::member_in))]
    fn read(
        alloc: Global,
        place: &Place,
        value: &Value,
    ) -> Result<NewMember, OrNoMemory<FormsFault>> {
        object_at(alloc, place, &["key", "number"], value)?;
        let key = sized_at(alloc, place, "key", value)?;
        let number = byte_at(alloc, place, "number", 1, value)?;
        Ok(NewMember { number, key })
    }
}

impl Element for NewNode {
    ghost form = { node_in };

    #[tactic(auto, unfolding(crate::specs::Parts::node_in))]
    fn read(
        alloc: Global,
        place: &Place,
        value: &Value,
    ) -> Result<NewNode, OrNoMemory<FormsFault>> {
        object_at(alloc, place, &["endorsement", "key"], value)?;
        let endorsement = endorsement_at(alloc, place, "endorsement", value)?;
        let key = sized_at(alloc, place, "key", value)?;
        Ok(NewNode { key, endorsement })
    }
}

impl Element for ShareDigest {
    ghost form = { share_in };

    #[tactic(auto, unfolding(crate::specs::Parts::share_in))]
    fn read(
        alloc: Global,
        place: &Place,
        value: &Value,
    ) -> Result<ShareDigest, OrNoMemory<FormsFault>> {
        object_at(alloc, place, &["digest", "member"], value)?;
        let digest = sized_at(alloc, place, "digest", value)?;
        let member = byte_at(alloc, place, "member", 1, value)?;
        Ok(ShareDigest { member, digest })
    }
}

/// The dealing that the value at a place is.
#[tactic(auto, unfolding(crate::specs::Parts::dealing_in))]
pub(crate) fn dealing_in(
    alloc: Global,
    place: &Place,
    value: &Value,
) -> Result<Dealing, OrNoMemory<FormsFault>>
    ensures { Answers (λ d. d) result (dealing_in (pointer_of place.now) (view value.now)) }
{
    object_at(
        alloc,
        place,
        &["secret_digest", "shares", "threshold"],
        value,
    )?;
    let secret_digest = sized_at(alloc, place, "secret_digest", value)?;
    let shares = list_at(alloc, place, "shares", 0, 255, value)?;
    let threshold = byte_at(alloc, place, "threshold", 0, value)?;
    Ok(Dealing {
        threshold,
        secret_digest,
        shares,
    })
}

/// A member that is a dealing.
#[tactic(auto, unfolding(crate::specs::Parts::dealing_at))]
pub(crate) fn dealing_at(
    alloc: Global,
    place: &Place,
    name: &str,
    value: &Value,
) -> Result<Dealing, OrNoMemory<FormsFault>>
    ensures { Answers (λ d. d) result
        (dealing_at (pointer_of place.now) name.now (view value.now)) }
{
    let dealing = value_at(alloc, place, name, value)?;
    dealing_in(alloc, &Place::Member(place, name), dealing)
}
