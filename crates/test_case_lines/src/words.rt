//! Reads the words of a line as numbers, bytes and characters.

use anyhow::{Context, bail};
use std::alloc::Global;

/// Reads a number in decimal digits.
pub fn decimal(word: &str) -> anyhow::Result<usize> {
    usize::from_str_radix(word, 10)
        .ok()
        .context("a number is not decimal")
}

/// Reads a number in hexadecimal digits.
pub fn hexadecimal(word: &str) -> anyhow::Result<u32> {
    u32::from_str_radix(word, 16)
        .ok()
        .context("a number is not hexadecimal")
}

/// Returns the character whose number a word gives in hexadecimal digits.
pub fn scalar(word: &str) -> anyhow::Result<char> {
    char::from_u32(hexadecimal(word)?).context("a number is not a character's")
}

/// Adds the bytes that a word gives as pairs of hexadecimal digits.
pub fn add_bytes(word: &str, bytes: &mut Vec<u8>) -> anyhow::Result<()> {
    let mut high = None;
    for c in word.chars() {
        let digit = c.to_digit(16).context("a digit is not hexadecimal")?;
        match high {
            None => high = Some(digit),
            Some(first) => {
                let byte = digit.wrapping_add(16_u32.wrapping_mul(first));
                bytes.push((byte % 256) as u8)?;
                high = None;
            }
        }
    }
    if high.is_some() {
        bail!("a byte has one digit");
    }
    Ok(())
}

/// Returns the bytes of a text in which `\t`, `\n`, `\r` and `\xEF` stand for a tab, the ends of
/// lines and any byte.
pub fn unescaped(alloc: Global, text: &str) -> anyhow::Result<Vec<u8>> {
    let mut bytes = Vec::new(alloc);
    let mut parts = text.split('\\');
    bytes.extend_from_slice(parts.next().unwrap_or("").as_bytes())?;
    for part in parts {
        if let Some(rest) = part.strip_prefix('t') {
            bytes.push(b'\t')?;
            bytes.extend_from_slice(rest.as_bytes())?;
        } else if let Some(rest) = part.strip_prefix('n') {
            bytes.push(b'\n')?;
            bytes.extend_from_slice(rest.as_bytes())?;
        } else if let Some(rest) = part.strip_prefix('r') {
            bytes.push(b'\r')?;
            bytes.extend_from_slice(rest.as_bytes())?;
        } else {
            let rest = part.strip_prefix('x').context("an escape is not known")?;
            let (digits, rest) = rest.split_at_checked(2).context("a byte has one digit")?;
            add_bytes(digits, &mut bytes)?;
            bytes.extend_from_slice(rest.as_bytes())?;
        }
    }
    Ok(bytes)
}

/// Reads words as numbers in hexadecimal digits.
pub fn numbers(alloc: Global, words: &str) -> anyhow::Result<Vec<u32>> {
    let mut numbers = Vec::new(alloc);
    for word in words.split_whitespace() {
        numbers.push(hexadecimal(word)?)?;
    }
    Ok(numbers)
}

/// Splits a line at its `->` into what is done and what must come of it.
pub fn halves(words: &str) -> anyhow::Result<(&str, &str)> {
    let (call, told) = words.split_once("->").context("a line has no `->`")?;
    Ok((call.trim(), told.trim()))
}

/// Returns the first word, and the words after it.
pub fn first_word(words: &str) -> (&str, &str) {
    let (word, rest) = words.split_once(' ').unwrap_or((words, ""));
    (word, rest.trim())
}
