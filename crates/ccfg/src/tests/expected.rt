//! What a run left is compared with the expected output.

use crate::tests::part::{Left, bytes_of, framed};
use crate::tests::run::{Frame, Output, Run};
use gl_outside::Traffic;
use std::alloc::{AllocError, Global};

/// Whether a text has each of these somewhere.
fn has_each(text: &str, pieces: &[&str]) -> bool {
    pieces.iter().all(|piece| text.contains(*piece))
}

/// The bytes of a signature of one level by an h5w4 key (RFC 8554, sections 4.5, 5.4 and 6.2).
const SIGNATURE_LEN: usize = 2352;

/// Whether the signature at the end of a request is by this leaf.
fn is_signed_by(request: &[u8], leaf: u8) -> bool {
    let at = request.len().saturating_sub(SIGNATURE_LEN);
    match request.get(at..) {
        Some([0, 0, 0, 0, 0, 0, 0, by, ..]) => *by == leaf,
        _ => false,
    }
}

fn is_expected_output(
    alloc: Global,
    output: &Output<'_>,
    written: &[u8],
    lefts: &[Left],
) -> Result<bool, AllocError> {
    Ok(match output {
        Output::Is(parts) => written == bytes_of(alloc, parts, lefts)?.as_slice(),
        Output::Line(text) => written.strip_suffix(b"\n") == Some(text.as_bytes()),
        Output::Begins(parts) => written.starts_with(&bytes_of(alloc, parts, lefts)?),
        Output::Ends(parts) => written.ends_with(&bytes_of(alloc, parts, lefts)?),
        Output::Has(pieces) => {
            let text = str::from_utf8(written).unwrap_or("");
            let first = pieces.first().copied().unwrap_or("");
            text.starts_with(first) && has_each(text, pieces)
        }
        Output::SignedBy(leaf) => is_signed_by(written, *leaf),
        Output::Any => true,
    })
}

/// Whether a frame is this one.
fn is_frame(
    alloc: Global,
    traffic: &Traffic,
    frame: &Frame<'_>,
    lefts: &[Left],
) -> Result<bool, AllocError> {
    let Traffic::Sent(to, sent) = traffic else {
        return Ok(false);
    };
    Ok(match frame {
        Frame::Whole(conn, parts) => to == conn && *sent == bytes_of(alloc, parts, lefts)?,
        Frame::Payload(conn, parts) => {
            to == conn && *sent == framed(alloc, &bytes_of(alloc, parts, lefts)?)?
        }
        Frame::Begins(conn, parts) => {
            let payload = sent.get(4..).unwrap_or(&[]);
            to == conn && payload.starts_with(&bytes_of(alloc, parts, lefts)?)
        }
    })
}

/// Whether exactly these frames were sent after so many first ones.
fn are_sent(
    alloc: Global,
    past: &[Traffic],
    first_frames: usize,
    output: &[Frame<'_>],
    lefts: &[Left],
) -> Result<bool, AllocError> {
    let mut left = first_frames;
    let mut expected_output = output.iter();
    for traffic in past {
        if matches!(traffic, Traffic::Sent(_, _)) {
            if left > 0 {
                left = left.saturating_sub(1);
                continue;
            }
            let is_expected = match expected_output.next() {
                Some(frame) => is_frame(alloc, traffic, frame, lefts)?,
                None => false,
            };
            if !is_expected {
                return Ok(false);
            }
        }
    }
    Ok(left == 0 && expected_output.next().is_none())
}

/// Whether the disk is the expected one, as far as the row tells it.
fn is_disk_output(
    alloc: Global,
    run: &Run<'_>,
    left: &Left,
    lefts: &[Left],
) -> Result<bool, AllocError> {
    let is_held = match run.disk_after {
        Some(parts) => left.disk == bytes_of(alloc, parts, lefts)?,
        None => true,
    };
    let is_changed = match run.disk_changes {
        Some(count) => left.disk_changes == count,
        None => true,
    };
    Ok(is_held && is_changed && left.disk_faults == u64::from(run.status == 5))
}

/// What differs from the expected output, if anything.
pub fn difference(
    alloc: Global,
    run: &Run<'_>,
    left: &Left,
    lefts: &[Left],
) -> Result<Option<&'static str>, AllocError> {
    if left.status != run.status {
        return Ok(Some("the status"));
    }
    if !is_expected_output(alloc, &run.output, &left.written, lefts)? {
        return Ok(Some("what is written"));
    }
    if !is_disk_output(alloc, run, left, lefts)? {
        return Ok(Some("the disk"));
    }
    if let Some(frames) = run.sent
        && !are_sent(alloc, &left.traffic, run.first_frames, frames, lefts)?
    {
        return Ok(Some("what is sent"));
    }
    match run.is_read_whole {
        Some(whole) if whole != left.is_read_whole => Ok(Some("how far is read")),
        _ => Ok(None),
    }
}
