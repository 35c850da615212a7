//! Values that tests make. Each call tries again when memory is refused, so it fails only at a second refusal.

use std::alloc::{AllocError, Global};
use wl_frames::{Frame, Name, ReportPart, Sequence, encode};

/// Panic message of a test to which memory is refused a second time.
pub const BACK: &str = "memory is back";

fn name_once(alloc: Global, text: &str) -> Result<Name, AllocError> {
    Ok(Name::new(String::from_str(alloc, text)?))
}

/// Returns a name of locks, channels or files.
pub fn name(alloc: Global, text: &str) -> Result<Name, AllocError> {
    match name_once(alloc, text) {
        Ok(name) => Ok(name),
        Err(_) => name_once(alloc, text),
    }
}

fn letters_once(alloc: Global, count: usize) -> Result<String, AllocError> {
    "x".repeat(alloc, count)
}

/// Returns a text of `count` letters `x`.
pub fn letters(alloc: Global, count: usize) -> Result<String, AllocError> {
    match letters_once(alloc, count) {
        Ok(text) => Ok(text),
        Err(_) => letters_once(alloc, count),
    }
}

fn bytes_once(alloc: Global, byte: u8, count: usize) -> Result<Vec<u8>, AllocError> {
    vec![in alloc; byte; count]
}

/// Returns `count` copies of a byte.
pub fn bytes(alloc: Global, byte: u8, count: usize) -> Result<Vec<u8>, AllocError> {
    match bytes_once(alloc, byte, count) {
        Ok(bytes) => Ok(bytes),
        Err(_) => bytes_once(alloc, byte, count),
    }
}

/// Appends bytes.
pub fn append(bytes: &mut Vec<u8>, more: &[u8]) -> Result<(), AllocError> {
    match bytes.extend_from_slice(more) {
        Ok(()) => Ok(()),
        Err(_) => bytes.extend_from_slice(more),
    }
}

fn with_numbers_once(
    alloc: Global,
    template: &str,
    number: u32,
    other: u32,
) -> Result<String, AllocError> {
    let number = format!(in alloc; "{number}")?;
    let other = format!(in alloc; "{other}")?;
    let text = template.replace(alloc, "{n}", number.as_str())?;
    text.replace(alloc, "{m}", other.as_str())
}

/// Returns a template with one number in place of each `{n}` and another in place of each `{m}`.
pub fn with_numbers(
    alloc: Global,
    template: &str,
    number: u32,
    other: u32,
) -> Result<String, AllocError> {
    match with_numbers_once(alloc, template, number, other) {
        Ok(text) => Ok(text),
        Err(_) => with_numbers_once(alloc, template, number, other),
    }
}

/// Returns a report part of generation 1 without entries.
pub fn report_part(alloc: Global, part: u16, parts: u16) -> Frame {
    Frame::ReportPart(ReportPart {
        generation: 1,
        base: 0,
        part,
        parts,
        entries: Sequence::new(Vec::new(alloc)),
    })
}

/// Returns the bytes of a frame, or None if it is not well-formed.
pub fn spelling(alloc: Global, frame: &Frame) -> Option<Vec<u8>> {
    if !frame.is_well_formed() {
        return None;
    }
    match encode(alloc, frame) {
        Ok(bytes) => Some(bytes),
        Err(_) => encode(alloc, frame).ok(),
    }
}

/// Returns whether a frame is well-formed and has these bytes.
pub fn is_spelled(alloc: Global, frame: &Frame, bytes: &[u8]) -> bool {
    match spelling(alloc, frame) {
        Some(spelled) => spelled.as_slice() == bytes,
        None => false,
    }
}
