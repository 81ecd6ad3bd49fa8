//! What a converter keeps between calls, as plain words, and a converter that goes on from them.

ghost use Rattle.std.specs.Prelude.{◌≡◌};
ghost use Rattle.recode.specs.Converter.{saved_job};
ghost use Rattle.recode.specs.SavedConverters.{CanGoOnFrom, SavesConverter, job_with};
ghost use Rattle.recode.specs.calls.ConverterView.{converter_view};

use crate::converter::{Converter, ROOM};
use crate::counts::Counts;
use crate::engine::Engine;
use crate::job::{Job, Policy};
use crate::verdict::Verdict;
use encoding_front::{Decoder, Encoding, Mark, SavedDecoder, VariantEncoder};
use encoding_mem::DecoderResult;
use encoding_mem::form::EscapeState;
use encoding_mem::source_encoder::SourceEncoder;
use encoding_tables::Tables;

/// What a `Job` says, without the indexes.
#[derive(Clone, Copy)]
pub struct SavedJob {
    /// The encoding of the input, unless a byte order mark says another.
    pub from: Encoding,
    /// The encoding that is asked for.
    pub to: Encoding,
    /// What is done with a byte order mark at the start of the input.
    pub mark: Mark,
    /// What is done about a character that has no bytes in the output's encoding.
    pub policy: Policy,
    /// How many bytes the input may have.
    pub limit: u64,
}

/// What is known of whether the output reads back as the text.
#[derive(Clone, Copy)]
pub struct SavedVerdict {
    /// What the decoder keeps that reads the output back.
    pub reader: SavedDecoder,
    /// Whether the log alone says what is lost, and nothing is read back.
    pub by_log: bool,
    /// Whether nothing was lost so far.
    pub faithful: bool,
}

/// What a `Converter` keeps between calls, as plain words that can be copied, without the indexes
/// and without the text that waits. [`Converter::saved`] returns it, and [`Converter::resumed`]
/// makes a converter of it that goes on.
#[derive(Clone, Copy)]
pub struct SavedConverter {
    /// The job.
    pub job: SavedJob,
    /// What the decoder of the input keeps.
    pub decoder: SavedDecoder,
    /// The set in force in the output.
    pub set: EscapeState,
    /// What is known of the output.
    pub verdict: SavedVerdict,
    /// What was counted.
    pub counts: Counts,
    /// How the call of the decoder ended that wrote the text that waits; none waits if there is
    /// none.
    pub answer: Option<DecoderResult>,
    /// Whether the end was read (`Converter::is_ended`).
    pub ended: bool,
    /// Whether all is written (`Converter::is_over`).
    pub over: bool,
}

impl SavedJob {
    // What a job says.
    #[inline(always)]
    fn of(job: &Job<'_>) -> SavedJob
        ensures { result ≡ saved_job job.now }
    {
        SavedJob {
            from: job.from,
            to: job.to,
            mark: job.mark,
            policy: job.policy,
            limit: job.limit,
        }
    }

    // The job with these tables.
    #[inline(always)]
    fn with(self, tables: &Tables) -> Job<'_>
        ensures { result ≡ job_with self tables.entry }
    {
        Job {
            from: self.from,
            to: self.to,
            mark: self.mark,
            policy: self.policy,
            limit: self.limit,
            tables,
        }
    }
}

impl<'t> Converter<'t> {
    /// What this converter keeps between calls, as it stands, and the text that waits to be
    /// encoded: at most 1 KiB, in UTF-8. The converter itself stays as it is.
    #[inline(always)]
    pub fn saved(&self) -> (SavedConverter, &[u8])
        ensures { SavesConverter result.0 result.1.now (converter_view self.now) }
    {
        let engine = &self.engine;
        let saved = SavedConverter {
            job: SavedJob::of(&self.job),
            decoder: engine.decoder.saved(),
            set: engine.encoder.current_set(),
            verdict: SavedVerdict {
                reader: engine.verdict.reader.saved(),
                by_log: engine.verdict.by_log,
                faithful: engine.verdict.faithful,
            },
            counts: engine.counts,
            answer: engine.answer,
            ended: self.ended,
            over: self.over,
        };
        (saved, &self.text[engine.from..engine.to])
    }

    /// A converter that goes on where one was saved, with the text that waited: its calls do what
    /// those of the saved converter would have done (`laws::resumed_converters_go_on`).
    ///
    /// The condition is what `saved` promises of a converter whose job had these `tables`: its
    /// caller keeps them together.
    #[inline(always)]
    pub fn resumed(saved: SavedConverter, text: &[u8], tables: &'t Tables) -> Self
        requires { CanGoOnFrom tables.now saved text.now }
        ensures saves { SavesConverter saved text.now (converter_view result) }
        ensures lists { (converter_view result).lists ≡ tables.now }
    {
        let job = saved.job.with(tables);
        let mut bytes = [0; ROOM];
        bytes[..text.len()].copy_from_slice(text);
        let mut encoder = VariantEncoder::new(job.to, Some(tables));
        encoder.enter(saved.set);
        Converter {
            engine: Engine {
                decoder: Decoder::resumed(saved.decoder, Some(tables)),
                encoder,
                verdict: Verdict {
                    reader: Decoder::resumed(saved.verdict.reader, Some(tables)),
                    by_log: saved.verdict.by_log,
                    faithful: saved.verdict.faithful,
                },
                counts: saved.counts,
                answer: saved.answer,
                from: 0,
                to: text.len(),
            },
            job,
            text: bytes,
            ended: saved.ended,
            over: saved.over,
        }
    }
}
