//! Bytes, as a line of a test names them.
//!
//! A text in quotation marks is itself, with `\n` for a newline. Each other word is one of these:
//!
//! - the name of a sample, as `ENTRY`
//! - `head:KIND:START`: the header of an upload
//! - `cut:N`: only the first N bytes of all that was named before

use super::entry::{
    BINARY_FRONT, BOOT_FIELD, CHANGED_ENTRY, ENTRY, ENTRY_2, ENTRY_3, LAST_ENTRY, METADATA,
    METADATA_2,
};
use super::file::{JOURNAL_FILE, LONG_HEADER_FILE};
use super::upload::head;
use std::alloc::Global;
use std::io;

/// Adds the bytes of the pieces of a line, one after the other. What isn't in the grammar is an input that is invalid.
pub fn add_pieces(alloc: Global, pieces: &str, bytes: &mut Vec<u8>) -> io::Result<()> {
    let mut is_text = false;
    for part in pieces.split('"') {
        if is_text {
            add_text(alloc, part, bytes)?;
        } else {
            add_words(part, bytes)?;
        }
        is_text = !is_text;
    }
    // an odd number of parts: each quotation mark has its other one
    if is_text { Ok(()) } else { no_piece() }
}

/// Adds a text that has `\n` for a newline.
fn add_text(alloc: Global, text: &str, bytes: &mut Vec<u8>) -> io::Result<()> {
    add(bytes, text.replace(alloc, "\\n", "\n")?.as_bytes())
}

fn add_words(words: &str, bytes: &mut Vec<u8>) -> io::Result<()> {
    for word in words.split_whitespace() {
        add_word(word, bytes)?;
    }
    Ok(())
}

/// Adds what one word names, or changes what is there.
fn add_word(word: &str, bytes: &mut Vec<u8>) -> io::Result<()> {
    match word.split_once(':') {
        Some((name, numbers)) => add_made(name, numbers, bytes),
        None => add_sample(word, bytes),
    }
}

/// The failure of what isn't in the grammar.
fn no_piece() -> io::Result<()> {
    Err(io::Error::from(io::ErrorKind::InvalidInput))
}

fn add(bytes: &mut Vec<u8>, more: &[u8]) -> io::Result<()> {
    Ok(bytes.extend_from_slice(more)?)
}

fn add_sample(name: &str, bytes: &mut Vec<u8>) -> io::Result<()> {
    let sample = match name {
        "ENTRY" => ENTRY,
        "ENTRY_2" => ENTRY_2,
        "ENTRY_3" => ENTRY_3,
        "CHANGED_ENTRY" => CHANGED_ENTRY,
        "LAST_ENTRY" => LAST_ENTRY,
        "METADATA" => METADATA,
        "METADATA_2" => METADATA_2,
        "BOOT_FIELD" => BOOT_FIELD,
        "BINARY_FRONT" => BINARY_FRONT,
        "JOURNAL_FILE" => &JOURNAL_FILE,
        "LONG_HEADER_FILE" => &LONG_HEADER_FILE,
        _ => return no_piece(),
    };
    add(bytes, sample)
}

/// Adds what a word with one or two numbers makes, or changes what is there.
fn add_made(name: &str, numbers: &str, bytes: &mut Vec<u8>) -> io::Result<()> {
    let (first, second) = numbers.split_once(':').unwrap_or((numbers, "0"));
    let (Ok(first), Ok(second)) = (first.parse::<u64>(), second.parse::<u64>()) else {
        return no_piece();
    };
    match name {
        "head" => add(bytes, &head(low_byte(first), low_byte(second))),
        "cut" => {
            bytes.truncate(first as usize);
            Ok(())
        }
        _ => no_piece(),
    }
}

/// A number below 256 as a byte.
fn low_byte(number: u64) -> u8 {
    let [low, ..] = number.to_le_bytes();
    low
}
