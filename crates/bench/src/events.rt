//! The payloads: the lines of a file of events in JSON. Ingest is the first to read them.

use crate::words::Failure;
use fish_lines::Lines;
use fish_value::{Text, Texts};
use std::alloc::{AllocError, Global};
use std::fs;
use std::rt::Files;

/// The payloads of the file of this name.
pub fn read_events<R: Files + AllocGlobal>(rt: &R, name: &str) -> Result<Texts, Failure> {
    let Ok(bytes) = fs::read(rt, name) else {
        return Err(Failure::Events);
    };
    match texts_of(rt.alloc(), bytes.as_slice()) {
        Ok(texts) => Ok(texts),
        Err(_) => Err(Failure::Events),
    }
}

/// The lines that are text, which every payload is.
fn texts_of(alloc: Global, bytes: &[u8]) -> Result<Texts, AllocError> {
    let mut texts = Texts::new(alloc);
    let mut lines = Lines::new(bytes);
    while let Some(line) = lines.next_line() {
        if let Ok(text) = str::from_utf8(line) {
            texts.push(Text::copy_of(alloc, text)?)?;
        }
    }
    Ok(texts)
}
