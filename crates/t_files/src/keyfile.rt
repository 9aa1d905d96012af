//! Key files on disks in memory, with a fault or a stop at each call. The digests of keys are by
//! RFC 8554 over Python's hashlib, from a seed of 32 bytes 07.

ghost use Rattle.std.specs.Prelude.{None, IfOk};
ghost use Rattle.gl_outside.specs.SureDisk.{disk_past};
ghost use Rattle.gl_journal.specs.Frames.{is_frame};
ghost use Rattle.gl_journal.specs.Parts.{items_of};
ghost use Rattle.gl_keyfile.specs.KeyFile.{IsOpened};

use gl_base::OrNoMemory;
use gl_forms::KeyForm;
use gl_hss::Types;
use gl_journal::{FrameLog, JournalFault, Key, KeyKind};
use gl_keyfile::{KeyFile, KeyFileFault, LeafUse, TakenLeaf, key_form};
use gl_outside::{Disk, MemDisk, SureDisk, Tear};
use sha2::{Digest, Sha256};
use std::alloc::Global;
use std::test::*;

// The digest of the HSS key of one level.
const MEMBER: [u8; 32] = [
    0x0c, 0xd6, 0x13, 0x45, 0x65, 0xc9, 0x05, 0x79, 0xb5, 0x32, 0x23, 0xaa, 0x9a, 0x08, 0xe1, 0x9e,
    0x0a, 0xbb, 0x32, 0xb4, 0xe8, 0x02, 0x5b, 0x18, 0x07, 0x42, 0x17, 0x86, 0x42, 0x82, 0x46, 0x0e,
];

// The digest of the HSS key of two levels.
const SERVICE: [u8; 32] = [
    0x90, 0xa6, 0x3c, 0x53, 0x91, 0xb5, 0xaa, 0xc7, 0xb5, 0x19, 0x55, 0xfc, 0x94, 0x4e, 0x5c, 0xd2,
    0x8c, 0x52, 0x44, 0x79, 0xb1, 0x10, 0x6a, 0xe8, 0x79, 0xc0, 0x6a, 0x30, 0x68, 0x7d, 0xe8, 0x28,
];

// The digest of the LMS key.
const NODE: [u8; 32] = [
    0x29, 0xc7, 0xcc, 0xcf, 0x04, 0xa1, 0xd8, 0x85, 0x47, 0xef, 0xc3, 0x36, 0x04, 0x5b, 0xa1, 0xfa,
    0x92, 0x9d, 0xcb, 0x74, 0x7a, 0x37, 0xee, 0x6a, 0xd2, 0x15, 0x0c, 0xce, 0xb5, 0xf6, 0x7a, 0xa7,
];

const TEARS: [Tear; 5] = [
    Tear::Old,
    Tear::Whole,
    Tear::Half,
    Tear::Filled(0),
    Tear::Filled(0xff),
];

const NO_LEAF: KeyFileFault = KeyFileFault::KeyExhausted { reserved: 32 };

const DISK_FAULT: OrNoMemory<KeyFileFault> = OrNoMemory::Fault(KeyFileFault::Journal(
    JournalFault::DiskFault,
));

fn key_of(kind: KeyKind) -> Key {
    Key {
        kind,
        types: Types::H5W4,
        seed: [7; 32],
    }
}

/// A member's key file, as it was begun.
fn created(alloc: Global) -> Result<KeyFile<SureDisk, FrameLog>, OrNoMemory<KeyFileFault>>
    ensures { IfOk result (λ file. IsOpened
        (record { appends = λ _ _ frame. is_frame frame; installs = λ _. None })
        (λ log. items_of log.frames.items) (λ d. d.bytes.items) disk_past file) }
{
    match KeyFile::create(alloc, SureDisk::new(alloc), key_of(KeyKind::Member)) {
        Ok(file) => Ok(file),
        Err((error, _)) => Err(error),
    }
}

/// The file with these bytes, opened for a key of a kind.
fn opened(
    alloc: Global,
    bytes: &[u8],
    want: KeyKind,
) -> Result<KeyFile<SureDisk, FrameLog>, OrNoMemory<KeyFileFault>>
    ensures { IfOk result (λ file. IsOpened
        (record { appends = λ _ _ frame. is_frame frame; installs = λ _. None })
        (λ log. items_of log.frames.items) (λ d. d.bytes.items) disk_past file) }
{
    match KeyFile::open(alloc, SureDisk::holding(alloc, bytes)?, want) {
        Ok(file) => Ok(file),
        Err((error, _)) => Err(error),
    }
}

/// The next leaf of a member's file with these bytes.
fn next_leaf(
    alloc: Global,
    bytes: &[u8],
    leaf_use: LeafUse,
) -> Result<TakenLeaf<SureDisk>, OrNoMemory<KeyFileFault>> {
    match opened(alloc, bytes, KeyKind::Member)?.take_leaf(leaf_use) {
        Ok(taken) => Ok(taken),
        Err((error, _)) => Err(error),
    }
}

/// The kind of a key's form, the digest of the key, and of a node's the node that it names.
fn digests(form: &KeyForm) -> (KeyKind, [u8; 32], Option<[u8; 32]>) {
    match form {
        KeyForm::Service { key } => (KeyKind::Service, Sha256::digest(key), None),
        KeyForm::Member { key } => (KeyKind::Member, Sha256::digest(key), None),
        KeyForm::Node { key, node, .. } => (KeyKind::Node, Sha256::digest(key), Some(*node)),
    }
}

#[test]
fn a_key_has_the_form_of_its_kind(rt: HostRuntime) -> Result<(), Fail> {
    for output in [
        (KeyKind::Service, SERVICE, None),
        (KeyKind::Member, MEMBER, None),
        (KeyKind::Node, NODE, Some(NODE)),
    ] {
        let (kind, _, _) = output;
        let form = key_form(rt.alloc(), &key_of(kind))?;
        assert!(rt; digests(&form) == output);
        assert!(rt;
            !matches!(
                form,
                KeyForm::Node {
                    endorsement: Some(_),
                    ..
                }
            )
        );
    }
    Ok(())
}

#[test]
fn a_file_that_was_begun_opens_to_its_key(rt: HostRuntime) -> Result<(), Fail> {
    let alloc = rt.alloc();
    let disk = created(alloc)?.into_disk();
    assert!(rt; disk.bytes.len() == 53);
    let file = opened(alloc, &disk.bytes, KeyKind::Member)?;
    assert!(rt; *file.key() == key_of(KeyKind::Member));
    assert!(rt; (file.reserved(), file.start()) == (0, None));
    Ok(())
}

#[test]
fn a_file_opens_for_its_kind_alone(rt: HostRuntime) -> Result<(), Fail> {
    let disk = created(rt.alloc())?.into_disk();
    let error = opened(rt.alloc(), &disk.bytes, KeyKind::Node).err();
    let fault = KeyFileFault::KeyKind {
        want: KeyKind::Node,
        got: KeyKind::Member,
    };
    assert!(rt; error == Some(OrNoMemory::Fault(fault)));
    Ok(())
}

#[test]
fn no_file_is_begun_on_a_disk_that_holds_one(rt: HostRuntime) -> Result<(), Fail> {
    let alloc = rt.alloc();
    let disk = created(alloc)?.into_disk();
    let begun = KeyFile::<SureDisk, FrameLog>::create(alloc, disk, key_of(KeyKind::Node));
    let Err((error, disk)) = begun else {
        return Err(Fail::from("begun on a disk that holds a file"));
    };
    let fault = KeyFileFault::Journal(JournalFault::NotEmpty { len: 53 });
    assert!(rt; error == OrNoMemory::Fault(fault));
    assert!(rt; disk.bytes.len() == 53);
    Ok(())
}

#[test]
fn a_key_of_height_5_has_32_leaves(rt: HostRuntime) -> Result<(), Fail> {
    let alloc = rt.alloc();
    let mut disk = created(alloc)?.into_disk();
    for leaf in 0..32 {
        let taken = next_leaf(alloc, &disk.bytes, LeafUse::Signature)?;
        assert!(rt; taken.leaf == leaf);
        disk = taken.disk;
    }
    let error = next_leaf(alloc, &disk.bytes, LeafUse::Start).err();
    assert!(rt; error == Some(OrNoMemory::Fault(NO_LEAF)));
    Ok(())
}

/// How many images that a stop may leave, while a leaf is taken from the file with these bytes,
/// give the same leaf once more, and how many the next one.
fn count_images(alloc: Global, bytes: &[u8], leaf_use: LeafUse) -> Result<[u32; 2], Fail> {
    let file = opened(alloc, bytes, KeyKind::Member)?;
    let first = file.journal.gated.disk.calls.len();
    let Ok(taken) = file.take_leaf(leaf_use) else {
        return Err(Fail::from("no leaf"));
    };
    let mut counts: [u32; 2] = [0; 2];
    for calls in first..=taken.disk.calls.len() {
        for tear in TEARS {
            let image = taken.disk.image(alloc, calls, tear)?;
            let leaf = next_leaf(alloc, &image, LeafUse::Signature)?.leaf;
            let Some(count) = counts.get_mut(leaf.saturating_sub(taken.leaf) as usize) else {
                return Err(Fail::from("a leaf was left out"));
            };
            *count = count.saturating_add(1);
        }
    }
    Ok(counts)
}

/// The file with these bytes, in which a leaf is taken for this use, and what it tells as its
/// start.
fn taken(alloc: Global, bytes: &[u8], leaf_use: LeafUse) -> Result<(SureDisk, Option<u32>), Fail> {
    let disk = next_leaf(alloc, bytes, leaf_use)?.disk;
    let start = opened(alloc, &disk.bytes, KeyKind::Member)?.start();
    Ok((disk, start))
}

#[test]
fn a_stop_leaves_the_leaf_or_the_next_one(rt: HostRuntime) -> Result<(), Fail> {
    let alloc = rt.alloc();
    let begun = created(alloc)?.into_disk();
    for (leaf_use, output) in [(LeafUse::Signature, None), (LeafUse::Start, Some(1))] {
        assert!(rt; count_images(alloc, &begun.bytes, leaf_use)? == [19, 6]);
        let (disk, start) = taken(alloc, &begun.bytes, leaf_use)?;
        assert!(rt; start == output);
        assert!(rt; count_images(alloc, &disk.bytes, leaf_use)? == [19, 6]);
    }
    Ok(())
}

/// What is told where calls of a disk fail, and how often they did.
fn expect_fault(error: OrNoMemory<KeyFileFault>, faults: u64) -> Result<(), Fail> {
    if error == DISK_FAULT && faults == 1 {
        Ok(())
    } else {
        Err(Fail::from("another error"))
    }
}

/// Where a file is begun and a leaf is taken while a call of the disk fails: 0 where the first of
/// the two is reported, 1 where the second is, and 2 where both were done.
fn end_at(alloc: Global, failing: u64) -> Result<usize, Fail> {
    let failing = [failing];
    let disk = MemDisk::new(SureDisk::new(alloc), &failing);
    match KeyFile::<MemDisk<'_>, FrameLog>::create(alloc, disk, key_of(KeyKind::Member)) {
        Err((error, disk)) => {
            expect_fault(error, disk.faults())?;
            Ok(0)
        }
        Ok(file) => match file.take_leaf(LeafUse::Start) {
            Err((error, disk)) => {
                expect_fault(error, disk.faults())?;
                let again = next_leaf(alloc, &disk.inner.bytes, LeafUse::Start)?;
                if again.leaf > 1 {
                    return Err(Fail::from("a leaf was left out"));
                }
                Ok(1)
            }
            Ok(taken) => {
                if taken.leaf != 0 || taken.disk.faults() != 0 {
                    return Err(Fail::from("another leaf than the first, or a fault"));
                }
                Ok(2)
            }
        },
    }
}

#[test]
fn each_call_of_the_disk_fails_in_turn(rt: HostRuntime) -> Result<(), Fail> {
    let mut ends: [u32; 3] = [0; 3];
    for number in 1..14 {
        let Some(count) = ends.get_mut(end_at(rt.alloc(), number)?) else {
            return Err(Fail::from("another end"));
        };
        *count = count.saturating_add(1);
    }
    assert!(rt; ends == [8, 4, 1]);
    Ok(())
}

#[test]
fn a_fault_while_a_file_is_opened_is_printed(rt: HostRuntime) -> Result<(), Fail> {
    let alloc = rt.alloc();
    let begun = created(alloc)?.into_disk();
    let mut faults: u32 = 0;
    for number in 1..5 {
        let failing = [number];
        let disk = MemDisk::new(SureDisk::holding(alloc, &begun.bytes)?, &failing);
        if let Err((error, disk)) = KeyFile::<MemDisk<'_>, FrameLog>::open(
            alloc,
            disk,
            KeyKind::Member,
        ) {
            assert!(rt; (error, disk.faults()) == (DISK_FAULT, 1));
            faults = faults.saturating_add(1);
        }
    }
    assert!(rt; faults == 3);
    Ok(())
}
