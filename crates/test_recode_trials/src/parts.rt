//! Reads words as bytes, and as numbers in decimal digits.

use anyhow::Context;
use std::alloc::Global;
use test_case_lines::words::add_bytes;

/// Reads a number in decimal digits.
pub fn integer(word: &str) -> anyhow::Result<u64> {
    u64::from_str_radix(word.trim(), 10)
        .ok()
        .context("a number is not decimal")
}

// Adds bytes so many times.
fn add_times(bytes: &[u8], times: u64, all: &mut Vec<u8>) -> anyhow::Result<()> {
    for _ in 0..times {
        all.extend_from_slice(bytes)?;
    }
    Ok(())
}

// Adds the bytes of a word such as `836E`, `61*80` or `"A"`: pairs of hexadecimal digits, the same
// so many times, or the characters themselves.
fn add_word(alloc: Global, word: &str, bytes: &mut Vec<u8>) -> anyhow::Result<()> {
    if let Some(rest) = word.strip_prefix('"') {
        let text = rest.strip_suffix('"').context("a text has no end")?;
        return add_times(text.as_bytes(), 1, bytes);
    }
    let (digits, times) = word.split_once('*').unwrap_or((word, "1"));
    let mut part = Vec::new(alloc);
    add_bytes(digits, &mut part)?;
    add_times(part.as_slice(), integer(times)?, bytes)
}

/// Returns the bytes of words.
pub fn bytes_of(alloc: Global, words: &str) -> anyhow::Result<Vec<u8>> {
    let mut bytes = Vec::new(alloc);
    for word in words.split_whitespace() {
        add_word(alloc, word, &mut bytes)?;
    }
    Ok(bytes)
}
