//! What an encoder keeps between calls, as plain words, and an encoder that goes on from them.

ghost use Rattle.std.specs.Prelude.{◌≡◌};
ghost use Rattle.encoding_mem.specs.calls.EncoderRule.{Moves};
ghost use Rattle.encoding_mem.specs.declared.codec.form.EscapeState.TheVariants.{Ascii};
ghost use Rattle.encoding_front.specs.Encodings.{IsReady, coding_of, lists_of};
ghost use Rattle.encoding_front.specs.Encodings.{output_encoding_of};
ghost use Rattle.encoding_front.specs.calls.Encoder.{new_state};
ghost use Rattle.encoding_front.specs.calls.SavedEncoders.{saved_of};

use crate::encoder::Encoder;
use crate::encoding::Encoding;
use crate::variant_encoder::VariantEncoder;
use encoding_mem::form::EscapeState;
use encoding_mem::source_encoder::SourceEncoder;
use encoding_tables::Tables;

/// What an `Encoder` keeps between calls, as plain words that can be copied, without the indexes.
/// [`Encoder::saved`] returns it, and [`Encoder::resumed`] makes an encoder of it that goes on.
#[derive(Clone, Copy)]
pub struct SavedEncoder {
    /// The output encoding.
    pub encoding: Encoding,
    /// The set in force.
    pub set: EscapeState,
}

impl<'t> Encoder<'t> {
    /// What this encoder keeps between calls, as it stands. The encoder itself stays as it is.
    #[inline(always)]
    pub fn saved(&self) -> SavedEncoder
        ensures { result ≡ saved_of self.now }
    {
        SavedEncoder {
            encoding: self.encoding,
            set: self.variant.current_set(),
        }
    }

    /// An encoder that goes on where one was saved.
    ///
    /// The conditions are that the indexes of the output encoding are in `tables`
    /// (`Encoding::is_ready` of `Encoding::output_encoding`; if that needs none, `None` will do),
    /// and that the set is one that calls of an encoder into this encoding leave, as that of a
    /// saved encoder is.
    #[inline(always)]
    pub fn resumed(saved: SavedEncoder, tables: Option<&'t Tables>) -> Self
        requires ready { IsReady (lists_of tables) (output_encoding_of saved.encoding) }
        requires set { ∥ Moves (coding_of (lists_of tables) saved.encoding) Ascii saved.set ∥₁ }
        ensures { result
            ≡ record (new_state (lists_of tables.entry) saved.encoding) { set = saved.set } }
    {
        let encoding = saved.encoding.output_encoding();
        let mut variant = VariantEncoder::new(encoding, tables);
        variant.enter(saved.set);
        Encoder {
            tables,
            encoding,
            variant,
        }
    }
}
