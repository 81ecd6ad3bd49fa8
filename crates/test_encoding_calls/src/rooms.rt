//! The room that decoders and encoders must ask for.

use crate::kinds::Form;
use crate::names::encoding_of;
use anyhow::{Context, bail};
use encoding_front::{Encoding, Mark};
use test_case_lines::words::decimal;

/// A room: a multiple of the length that is handed in, plus a constant.
#[derive(Clone, Copy, Debug)]
pub struct Room {
    factor: usize,
    more: usize,
}

impl Room {
    /// Returns the room for `n` bytes or units. Returns `None` if it does not fit a `usize`.
    pub fn of(self, n: usize) -> Option<usize> {
        self.factor.checked_mul(n)?.checked_add(self.more)
    }
}

/// Which decoder or encoder is called.
#[derive(Clone, Copy, PartialEq, Eq, Debug)]
pub enum Side {
    Decoder,
    Encoder,
    /// The `Encoder` of `encoding_front`.
    FrontEncoder,
    /// The `Decoder` of `encoding_front`, and what it does with a byte order mark.
    FrontDecoder(Mark),
}

/// The room that a decoder or an encoder of an encoding must ask for in a form.
#[derive(Clone, Copy)]
pub struct Asked {
    side: Side,
    encoding: Encoding,
    form: Form,
    room: Room,
}

impl Asked {
    /// Reads words such as `decoder big5 utf-8 3 1`.
    pub fn of(words: &str) -> anyhow::Result<Asked> {
        let mut words = words.split_whitespace();
        let side = match words.next() {
            Some("decoder") => Side::Decoder,
            Some("encoder") => Side::Encoder,
            _ => bail!("neither a decoder nor an encoder is named"),
        };
        let encoding = encoding_of(words.next().unwrap_or(""))?;
        let form = Form::of(words.next().unwrap_or(""));
        Ok(Asked {
            side,
            encoding,
            form: form.context("a form is not known")?,
            room: Room {
                factor: decimal(words.next().unwrap_or(""))?,
                more: decimal(words.next().unwrap_or(""))?,
            },
        })
    }
}

/// Returns the room that must be asked for, if a line of the cases gives one.
pub fn room_of(asked: &[Asked], side: Side, encoding: Encoding, form: Form) -> Option<Room> {
    for one in asked {
        if one.side == side && one.encoding == encoding && one.form == form {
            return Some(one.room);
        }
    }
    None
}
