//! The handle of a conversion by steps, as C holds it.

ghost use Rattle.std.specs.Prelude.{◌≤◌, take};
ghost use Rattle.jillapun_c.specs.ConverterWords.{IsSoundConverter};
ghost use Rattle.jillapun_c.specs.HeldTables.{held_lists};

use crate::converter::Converter;
use crate::converter::words::{ConverterWords, SavedStep};
use crate::status::{CLOSED, FINISHED};
use crate::tables_handle::TablesHandle;

/// A conversion of one input by steps, begun by `jillapun_converter_new`.
#[repr(C)]
#[derive(Drop)]
pub struct ConverterHandle {
    pub tables: TablesHandle,
    pub(crate) words: ConverterWords,
    // The text that waits to be encoded is the first of these bytes, and so many.
    pub(crate) text_len: usize,
    pub(crate) text: [u8; 1024],
    pub ghost fits: { text_len ≤ 1024 },
    pub ghost sound: { IsSoundConverter (held_lists tables.tables) words
        (take text_len text) },
}

impl ConverterHandle {
    ghost use Rattle.std.specs.Prelude.{◌≡◌, false, MatchResult, Some};
    ghost use Rattle.jillapun_c.specs.ConverterCalls.{HoldsNoStep, HoldsStep, TellsWhyIdle};
    ghost use Rattle.jillapun_c.specs.ConverterWords.{saved_step_in};
    ghost use Rattle.jillapun_c.specs.Converters.{step_view};

    /// One that holds nothing.
    pub(crate) fn none() -> ConverterHandle
        ensures { HoldsNoStep result }
    {
        ConverterHandle {
            tables: TablesHandle::none(),
            words: ConverterWords::none(),
            text_len: 0,
            text: [0; 1024],
        }
    }

    /// Holds a converter from now on, whose job has these tables.
    #[inline(always)]
    pub(crate) fn keep(&mut self, tables: TablesHandle, converter: &Converter<'_>)
        requires { held_lists tables.tables ≡ (step_view converter.now).stream.lists }
        ensures { HoldsStep self.new (step_view converter.now) }
    {
        let (saved, text) = converter.saved();
        if !text.is_empty() {
            let mut bytes = self.text;
            bytes[..text.len()].copy_from_slice(text);
            self.text = bytes;
        }
        self.tables = tables;
        self.words = ConverterWords::of(saved);
        self.text_len = text.len();
    }

    /// What was saved of the converter that it holds, if that goes on. Else the status: `CLOSED`,
    /// it holds no converter; `FINISHED`, an end was reported.
    #[inline(always)]
    pub(crate) fn live(&self) -> Result<SavedStep, u8>
        ensures { MatchResult result
            (λ w. (saved_step_in self.now.words ≡ Some w) × (w.is_finished ≡ false))
            (λ status. TellsWhyIdle self.now status) }
    {
        let Some(saved) = self.words.saved() else {
            return Err(CLOSED);
        };
        if saved.is_finished {
            return Err(FINISHED);
        }
        Ok(saved)
    }
}
