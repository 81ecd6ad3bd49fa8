//! A converter in plain words, as its handle keeps it.

ghost use Rattle.std.specs.Prelude.{◌≡◌, None, Some};
ghost use Rattle.jillapun_c.specs.ConverterWords.{saved_answer_in, saved_job_in, saved_stage_in};
ghost use Rattle.jillapun_c.specs.ConverterWords.{saved_step_in, saved_stream_in, saved_verdict_in};

use crate::converter::Stage;
use crate::decoder::words::DecoderWords;
use crate::encoder::words::{number_of_set, set_of};
use crate::encoding_number::{encoding_of, mark_of, number_of, number_of_mark};
use crate::losses::Loss;
use crate::request::{number_of_policy, policy_of};
use encoding_mem::DecoderResult;
use recode::{Counts, SavedConverter, SavedJob, SavedVerdict};

/// What a converter of this library keeps between calls.
#[derive(Clone, Copy)]
pub struct SavedStep {
    /// What its conversion keeps.
    pub stream: SavedConverter,
    /// The bytes that wait for room are the first of these.
    pub held: [u8; 32],
    /// How many they are.
    pub held_len: usize,
    /// The record that waits for room, if one does.
    pub loss: Option<Loss>,
    /// What the conversion has come to.
    pub stage: Stage,
    /// Whether the end was reported.
    pub is_finished: bool,
}

/// Private parameters of a conversion.
#[repr(C)]
#[derive(Clone, Copy)]
pub struct JobWords {
    limit: u64,
    from: u8,
    to: u8,
    mark: u8,
    policy: u8,
}

impl JobWords {
    // Those of a job.
    #[inline(always)]
    fn of(job: SavedJob) -> JobWords
        ensures { saved_job_in result ≡ Some job }
    {
        JobWords {
            limit: job.limit,
            from: number_of(job.from),
            to: number_of(job.to),
            mark: number_of_mark(job.mark),
            policy: number_of_policy(job.policy),
        }
    }

    // The job, if each number stands for something.
    #[inline(always)]
    fn saved(self) -> Option<SavedJob>
        ensures { result ≡ saved_job_in self }
    {
        let from = encoding_of(self.from)?;
        let to = encoding_of(self.to)?;
        let mark = mark_of(self.mark)?;
        let policy = policy_of(self.policy)?;
        Some(SavedJob {
            from,
            to,
            mark,
            policy,
            limit: self.limit,
        })
    }
}

/// Private state of the check that the output decodes to the text.
#[repr(C)]
#[derive(Clone, Copy)]
pub struct VerdictWords {
    reader: DecoderWords,
    by_log: bool,
    faithful: bool,
}

impl VerdictWords {
    // Those of a verdict.
    #[inline(always)]
    fn of(verdict: SavedVerdict) -> VerdictWords
        ensures { saved_verdict_in result ≡ Some verdict }
    {
        VerdictWords {
            reader: DecoderWords::of(verdict.reader),
            by_log: verdict.by_log,
            faithful: verdict.faithful,
        }
    }

    // The verdict, if its reader's numbers stand for something.
    #[inline(always)]
    fn saved(self) -> Option<SavedVerdict>
        ensures { result ≡ saved_verdict_in self }
    {
        let reader = self.reader.saved()?;
        Some(SavedVerdict {
            reader,
            by_log: self.by_log,
            faithful: self.faithful,
        })
    }
}

/// Private result of a decoder call.
#[repr(C)]
#[derive(Clone, Copy)]
pub struct AnswerWords {
    kind: u8,
    size: u8,
    after: u8,
}

impl AnswerWords {
    // Those of a call, if there was one.
    #[inline(always)]
    fn of(answer: Option<DecoderResult>) -> AnswerWords
        ensures { saved_answer_in result ≡ Some answer }
    {
        let (kind, size, after) = match answer {
            None => (0, 0, 0),
            Some(DecoderResult::InputEmpty) => (1, 0, 0),
            Some(DecoderResult::OutputFull) => (2, 0, 0),
            Some(DecoderResult::Malformed(size, after)) => (3, size, after),
        };
        AnswerWords { kind, size, after }
    }

    // How the call ended, if the number stands for something.
    #[inline(always)]
    fn saved(self) -> Option<Option<DecoderResult>>
        ensures { result ≡ saved_answer_in self }
    {
        match self.kind {
            0 => Some(None),
            1 => Some(Some(DecoderResult::InputEmpty)),
            2 => Some(Some(DecoderResult::OutputFull)),
            3 => Some(Some(DecoderResult::Malformed(self.size, self.after))),
            _ => None,
        }
    }
}

/// Private state of a conversion.
#[repr(C)]
#[derive(Clone, Copy)]
pub struct StreamWords {
    read: u64,
    index: u64,
    bad: u64,
    lost: u64,
    calls: u64,
    job: JobWords,
    decoder: DecoderWords,
    verdict: VerdictWords,
    answer: AnswerWords,
    set: u8,
    ended: bool,
    over: bool,
}

impl StreamWords {
    // Those of a conversion, by what was saved of it.
    #[inline(always)]
    fn of(stream: SavedConverter) -> StreamWords
        ensures { saved_stream_in result ≡ Some stream }
    {
        StreamWords {
            read: stream.counts.read,
            index: stream.counts.index,
            bad: stream.counts.bad,
            lost: stream.counts.lost,
            calls: stream.counts.calls,
            job: JobWords::of(stream.job),
            decoder: DecoderWords::of(stream.decoder),
            verdict: VerdictWords::of(stream.verdict),
            answer: AnswerWords::of(stream.answer),
            set: number_of_set(stream.set),
            ended: stream.ended,
            over: stream.over,
        }
    }

    // What was saved of the conversion, if the numbers stand for something.
    #[inline(always)]
    fn saved(self) -> Option<SavedConverter>
        ensures { result ≡ saved_stream_in self }
    {
        let job = self.job.saved()?;
        let decoder = self.decoder.saved()?;
        let set = set_of(self.set)?;
        let verdict = self.verdict.saved()?;
        let answer = self.answer.saved()?;
        Some(SavedConverter {
            job,
            decoder,
            set,
            verdict,
            counts: Counts {
                read: self.read,
                index: self.index,
                bad: self.bad,
                lost: self.lost,
                calls: self.calls,
            },
            answer,
            ended: self.ended,
            over: self.over,
        })
    }
}

/// Private stage of a conversion.
#[repr(C)]
#[derive(Clone, Copy)]
pub struct StageWords {
    index: u64,
    scalar: u32,
    stage: u8,
}

impl StageWords {
    // Those of a stage.
    #[inline(always)]
    fn of(stage: Stage) -> StageWords
        ensures { saved_stage_in result ≡ Some stage }
    {
        let (stage, index, scalar) = match stage {
            Stage::Open => (0, 0, 0),
            Stage::Stopped { index, scalar } => (1, index, scalar),
            Stage::TooLong => (2, 0, 0),
        };
        StageWords {
            index,
            scalar,
            stage,
        }
    }

    // The stage, if the number stands for one.
    #[inline(always)]
    fn saved(self) -> Option<Stage>
        ensures { result ≡ saved_stage_in self }
    {
        match self.stage {
            0 => Some(Stage::Open),
            1 => Some(Stage::Stopped {
                index: self.index,
                scalar: self.scalar,
            }),
            2 => Some(Stage::TooLong),
            _ => None,
        }
    }
}

/// Private state of a converter.
#[repr(C)]
#[derive(Clone, Copy)]
pub struct ConverterWords {
    is_there: bool,
    is_finished: bool,
    has_loss: bool,
    loss: Loss,
    stage: StageWords,
    held_len: usize,
    held: [u8; 32],
    stream: StreamWords,
}

impl StreamWords {
    // There is no conversion.
    fn none() -> StreamWords {
        StreamWords {
            read: 0,
            index: 0,
            bad: 0,
            lost: 0,
            calls: 0,
            job: JobWords {
                limit: 0,
                from: 0,
                to: 0,
                mark: 0,
                policy: 0,
            },
            decoder: DecoderWords::none(),
            verdict: VerdictWords {
                reader: DecoderWords::none(),
                by_log: false,
                faithful: false,
            },
            answer: AnswerWords {
                kind: 0,
                size: 0,
                after: 0,
            },
            set: 0,
            ended: false,
            over: false,
        }
    }
}

impl ConverterWords {
    /// There is no converter.
    pub(crate) fn none() -> ConverterWords
        ensures { saved_step_in result ≡ None }
    {
        ConverterWords {
            is_there: false,
            is_finished: false,
            has_loss: false,
            loss: Loss::NONE,
            stage: StageWords {
                index: 0,
                scalar: 0,
                stage: 0,
            },
            held_len: 0,
            held: [0; 32],
            stream: StreamWords::none(),
        }
    }

    /// Those of a converter, by what was saved of it.
    #[inline(always)]
    pub(crate) fn of(saved: SavedStep) -> ConverterWords
        ensures { saved_step_in result ≡ Some saved }
    {
        let held = saved.held;
        ConverterWords {
            is_there: true,
            is_finished: saved.is_finished,
            has_loss: saved.loss.is_some(),
            loss: saved.loss.unwrap_or(Loss::NONE),
            stage: StageWords::of(saved.stage),
            held_len: saved.held_len,
            held,
            stream: StreamWords::of(saved.stream),
        }
    }

    /// What was saved of the converter: `None` if there is none, or if a number stands for nothing.
    #[inline(always)]
    pub(crate) fn saved(self) -> Option<SavedStep>
        ensures { result ≡ saved_step_in self }
    {
        if !self.is_there {
            return None;
        }
        let held = self.held;
        let stream = self.stream.saved()?;
        let stage = self.stage.saved()?;
        Some(SavedStep {
            stream,
            held,
            held_len: self.held_len,
            loss: if self.has_loss { Some(self.loss) } else { None },
            stage,
            is_finished: self.is_finished,
        })
    }
}
