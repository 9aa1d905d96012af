//! Records read from the bodies of a payload.

ghost use Rattle.std.specs.Prelude.{◌≡◌, option_map};
ghost use Rattle.gl_journal.specs.Records.{whole_number, key_kind_in, types_in, key_in, vote_record_in, record_of};
ghost use Rattle.gl_journal.specs.RecordView.{record_value};

use crate::key::{Key, KeyKind};
use crate::record::Record;
use gl_hss::Types;

/// A body that is exactly a number of four bytes.
#[tactic(auto, using(gl_base::proofs::LittleEndianBytes::from_bytes_4))]
fn number_of_4(body: &[u8]) -> Option<u32>
    ensures { result ≡ whole_number 4 body.now }
{
    if body.len() != 4 {
        return None;
    }
    match body.split_first_chunk::<4>() {
        Some((bytes, _)) => Some(u32::from_le_bytes(*bytes)),
        None => None,
    }
}

/// A body that is exactly a number of eight bytes.
#[tactic(auto, using(gl_base::proofs::LittleEndianBytes::from_bytes_8))]
fn number_of_8(body: &[u8]) -> Option<u64>
    ensures { result ≡ whole_number 8 body.now }
{
    if body.len() != 8 {
        return None;
    }
    match body.split_first_chunk::<8>() {
        Some((bytes, _)) => Some(u64::from_le_bytes(*bytes)),
        None => None,
    }
}

fn key_kind_in(tag: u8) -> Option<KeyKind>
    ensures { result ≡ key_kind_in tag }
{
    match tag {
        1 => Some(KeyKind::Service),
        2 => Some(KeyKind::Node),
        3 => Some(KeyKind::Member),
        _ => None,
    }
}

fn types_in(tag: u8) -> Option<Types>
    ensures { result ≡ types_in tag }
{
    match tag {
        1 => Some(Types::H5W4),
        2 => Some(Types::H5W8),
        3 => Some(Types::H10W4),
        4 => Some(Types::H10W8),
        _ => None,
    }
}

fn key_in(body: &[u8]) -> Option<Record<'_>>
    ensures { option_map record_value result ≡ key_in body.now }
{
    match body {
        [kind, types, seed @ ..] if seed.len() == 32 => {
            let kind = key_kind_in(*kind)?;
            let types = types_in(*types)?;
            let (seed, _) = seed.split_first_chunk::<32>()?;
            Some(Record::Key(Key {
                kind,
                types,
                seed: *seed,
            }))
        }
        _ => None,
    }
}

fn vote_record_in(body: &[u8]) -> Option<Record<'_>>
    ensures { option_map record_value result ≡ vote_record_in body.now }
{
    let (view, rest) = body.split_first_chunk::<4>()?;
    let view = u32::from_le_bytes(*view);
    match rest {
        [0] => Some(Record::Vote { view, vote: None }),
        [1, id @ ..] if id.len() == 32 => {
            let (id, _) = id.split_first_chunk::<32>()?;
            Some(Record::Vote {
                view,
                vote: Some(*id),
            })
        }
        _ => None,
    }
}

/// The record of this kind with this body.
#[tactic(auto, unfolding(crate::specs::Records::record_of))]
pub(crate) fn record_of(kind: u8, body: &[u8]) -> Option<Record<'_>>
    ensures { option_map record_value result ≡ record_of kind body.now }
{
    match kind {
        1 => key_in(body),
        2 => vote_record_in(body),
        3 => match number_of_8(body) {
            Some(to) => Some(Record::Cut { to }),
            None => None,
        },
        4 => Some(Record::Append { frame: body }),
        5 => match number_of_4(body) {
            Some(reserved) => Some(Record::Signer { reserved }),
            None => None,
        },
        6 => Some(Record::Install { body }),
        7 => match number_of_4(body) {
            Some(leaves) => Some(Record::Start { leaves }),
            None => None,
        },
        _ => None,
    }
}
