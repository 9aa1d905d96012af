//! Runs that stop at each call of their disk, and what is run over what a stop may leave.

use crate::tests::expected::difference;
use crate::tests::part::{Left, Part, bytes_of};
use crate::tests::play::{count_calls, play, play_stopped};
use crate::tests::run::Run;
use crate::tests::told::Told;
use gl_outside::{SureDisk, Tear};
use std::alloc::{AllocError, Global};

/// A run that stops, and what is run over each image of its disk. No leaf of the file's key signs
/// twice in the earlier runs, the one that stops and those after it.
#[derive(Clone, Copy)]
pub struct Stop<'a> {
    pub name: &'static str,
    /// The run. Once it stopped, the image is its disk.
    pub run: Run<'a>,
    /// What a stop leaves of the writes that no sync followed.
    pub tears: &'a [Tear],
    /// The earlier runs over the file, by their names.
    pub earlier: &'a [&'a str],
    /// What stands before each signature by the file's key.
    pub before: &'a [Part<'a>],
    /// The runs after the stop, each with the signatures that it tells first.
    pub after: &'a [(Run<'a>, usize)],
    /// Whether an image may be no key file; then the runs after it end with 1.
    pub may_lack_key: bool,
}

/// What comes otherwise after a stop: at which call of the disk, and how writes are torn.
pub type Unexpected = Option<(u64, Tear, &'static str)>;

fn is_named(left: &Left, stop: &Stop<'_>) -> bool {
    left.name == stop.run.name || stop.earlier.iter().any(|name| left.name == *name)
}

/// What the earlier runs told, and the one that stopped.
fn told_before(alloc: Global, stop: &Stop<'_>, lefts: &[Left]) -> Result<Told, AllocError> {
    let mut told = Told::new(alloc, bytes_of(alloc, stop.before, lefts)?);
    for left in lefts {
        if is_named(left, stop) {
            told.add_run(left)?;
        }
    }
    Ok(told)
}

/// What differs where a run stopped at a call; or ended, since it makes no such call.
fn stop_difference(
    alloc: Global,
    stop: &Stop<'_>,
    left: &Left,
    lefts: &[Left],
) -> Result<Option<&'static str>, AllocError> {
    if left.faults == 0 {
        return difference(alloc, &stop.run, left, lefts);
    }
    if left.status == 5 && left.faults == 1 && left.written.is_empty() {
        Ok(None)
    } else {
        Ok(Some("the stop"))
    }
}

/// How many signatures there are to be after a run that tells so many.
fn count_after(before: Option<usize>, told: usize) -> Option<usize> {
    match before {
        Some(before) => Some(before.saturating_add(told)),
        None => None,
    }
}

/// What differs in a run after a stop, which is added to what is told.
fn run_difference(
    alloc: Global,
    stop: &Stop<'_>,
    after: &(Run<'_>, usize),
    told: &mut Told,
    lefts: &mut Vec<Left>,
) -> Result<Option<&'static str>, AllocError> {
    let (run, signatures) = after;
    let left = play(alloc, run, lefts)?;
    let has_no_key = stop.may_lack_key && left.status == 1;
    let new = if has_no_key { 0 } else { *signatures };
    let differs = if has_no_key {
        None
    } else {
        difference(alloc, run, &left, lefts)?
    };
    let count = count_after(told.count(), new);
    told.add_run(&left)?;
    lefts.push(left)?;
    Ok(match differs {
        None if told.count() == count => None,
        None => Some("the leaves"),
        differs => differs,
    })
}

/// What differs in the runs after a stop.
fn first_difference(
    alloc: Global,
    stop: &Stop<'_>,
    lefts: &mut Vec<Left>,
) -> Result<Option<&'static str>, AllocError> {
    let mut told = told_before(alloc, stop, lefts)?;
    for after in stop.after {
        let differs = run_difference(alloc, stop, after, &mut told, lefts)?;
        if differs.is_some() {
            return Ok(differs);
        }
    }
    Ok(None)
}

/// Plays what comes after the last run, which stopped, over an image of its disk.
fn image_difference(
    alloc: Global,
    stop: &Stop<'_>,
    image: Vec<u8>,
    lefts: &mut Vec<Left>,
) -> Result<Option<&'static str>, AllocError> {
    let count = lefts.len();
    if let Some(left) = lefts.last_mut() {
        left.disk = image;
    }
    let differs = first_difference(alloc, stop, lefts)?;
    lefts.truncate(count);
    Ok(differs)
}

/// Plays what comes after the last run over each image of its disk. Tells with which tear something
/// differs.
fn first_tear(
    alloc: Global,
    stop: &Stop<'_>,
    disk: &SureDisk,
    lefts: &mut Vec<Left>,
) -> Result<Option<(Tear, &'static str)>, AllocError> {
    let mut images: Vec<Vec<u8>> = Vec::new(alloc);
    for tear in stop.tears {
        let image = disk.image(alloc, disk.calls.len(), *tear)?;
        if !images.iter().any(|other| *other == image) {
            images.push(image.to_vec(alloc)?)?;
            if let Some(what) = image_difference(alloc, stop, image, lefts)? {
                return Ok(Some((*tear, what)));
            }
        }
    }
    Ok(None)
}

/// Stops a run at a call, and plays what comes after it.
fn first_at_call(
    alloc: Global,
    stop: &Stop<'_>,
    call: u64,
    lefts: &mut Vec<Left>,
) -> Result<Option<(Tear, &'static str)>, AllocError> {
    let count = lefts.len();
    let (left, disk) = play_stopped(alloc, &stop.run, call, lefts)?;
    if let Some(what) = stop_difference(alloc, stop, &left, lefts)? {
        return Ok(Some((Tear::Whole, what)));
    }
    lefts.push(left)?;
    let differs = first_tear(alloc, stop, &disk, lefts)?;
    lefts.truncate(count);
    Ok(differs)
}

/// Stops a run at each call of its disk, and once after the last. Tells where something differs.
pub fn first_unexpected_stop(
    alloc: Global,
    stop: &Stop<'_>,
    lefts: &mut Vec<Left>,
) -> Result<Unexpected, AllocError> {
    let calls = count_calls(alloc, &stop.run, lefts)?;
    for before in 0..=calls {
        let call = before.saturating_add(1);
        if let Some((tear, what)) = first_at_call(alloc, stop, call, lefts)? {
            return Ok(Some((call, tear, what)));
        }
    }
    Ok(None)
}
