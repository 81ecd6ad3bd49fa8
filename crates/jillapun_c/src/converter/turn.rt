//! The turns of a conversion: each converts what there is room for, or up to what it finds.

ghost use Rattle.std.specs.Prelude.{◌≡◌, ◌↔◌, ◌≤◌, ◌<◌, ◌+◌, [], IsTrue, drop, length, take, true};
ghost use Rattle.recode.specs.Converter.{owes};
ghost use Rattle.jillapun_c.specs.ConverterRuns.{Carries};
ghost use Rattle.jillapun_c.specs.ConverterTurns.{ConvertsInto, CanTurn, TakesFound, TakesEnd};
ghost use Rattle.jillapun_c.specs.ConverterTurns.{MakesTurn};
ghost use Rattle.jillapun_c.specs.Converters.{ConvertsAll, step_view};
ghost use Rattle.jillapun_c.specs.Room.{IsFilled};
ghost use Rattle.jillapun_c.specs.declared.converter.Stage.TheVariants.{Open};

use crate::converter::progress::ConverterProgress;
use crate::converter::{Converter, Stage};
use crate::losses::Loss;
use encoding_front::write_reference;
use recode::{ConverterResult, LogLine};

impl Converter<'_> {
    // Whether a turn can be made: all that was made was handed out, and the conversion goes on.
    fn is_ready(&self) -> bool
        ensures { IsTrue result ↔ CanTurn (step_view self.now) }
    {
        self.holds_nothing() && matches!(self.stage, Stage::Open) && !self.stream.is_over()
    }

    // How many of these bytes the limit allows.
    fn allowed(&self, src: &[u8]) -> usize
        ensures within { result ≤ length src.now }
        ensures allowed { (step_view self.now).stream.state.counts.read + result
            ≤ (step_view self.now).stream.job.limit }
        ensures most { result < length src.now
            → (step_view self.now).stream.state.counts.read + result
            ≡ (step_view self.now).stream.job.limit }
    {
        (src.len() as u64).min(self.stream.bytes_left()) as usize
    }

    // Converts into a room from a place on; or, if fewer than 4 bytes are free there, into bytes
    // that wait for room.
    fn convert_into(
        &mut self,
        src: &[u8],
        last: bool,
        dst: &mut [u8],
        at: usize,
    ) -> (ConverterResult, usize, usize)
        requires at { at ≤ length dst.old }
        requires ready { CanTurn (step_view self.old) }
        requires ended { (step_view self.old).stream.ended ≡ true → (src.now ≡ []) × (last ≡ true) }
        requires limit { (step_view self.old).stream.state.counts.read + length src.now
            ≤ (step_view self.old).stream.job.limit }
        ensures into { ConvertsInto (step_view self.old) (step_view self.new) last src.now
            (drop result.1 src.now) dst.old dst.new at result.2 result.0 }
        ensures within { result.1 ≤ length src.now }
    {
        if dst.len() - at >= 4 {
            let (result, read, written) = self.stream.convert(src, &mut dst[at..], last);
            return (result, read, at + written);
        }
        let mut room = [0; 22];
        let (result, read, written) = self.stream.convert(src, &mut room, last);
        self.held.push(&room[..written]);
        (result, read, at)
    }

    // Takes a line that was found: its record and its reference wait for room, or it stops the
    // conversion.
    fn take_found(&mut self, line: LogLine)
        requires room { length self.old.held ≤ 22 }
        requires stage { self.old.stage ≡ Open }
        ensures { TakesFound (step_view self.old) (step_view self.new) line }
    {
        self.loss = Some(Loss::of(line));
        let LogLine::Lost { index, scalar } = line else {
            return;
        };
        match self.stream.policy().reference() {
            Some(form) => {
                let mut bytes = [0; 10];
                let len = write_reference(scalar, form, &mut bytes);
                self.held.push(&bytes[..len]);
            }
            None => {
                self.stage = Stage::Stopped {
                    index,
                    scalar: u32::from(scalar),
                };
            }
        }
    }

    // Takes how a call ended that was handed all that there is, or less, since the limit allows no
    // more.
    fn take_end(&mut self, end: ConverterResult, all: bool)
        requires room { length self.old.held ≤ 22 }
        requires stage { self.old.stage ≡ Open }
        ensures { TakesEnd (step_view self.old) (step_view self.new) end all }
    {
        match end {
            ConverterResult::InputEmpty => {
                if !all {
                    self.stage = Stage::TooLong;
                }
            }
            ConverterResult::OutputFull => {}
            ConverterResult::Found(line) => self.take_found(line),
        }
    }

    // One turn. Returns how it ended, how many bytes it read, and up to where the room is filled.
    fn turn(
        &mut self,
        src: &[u8],
        last: bool,
        dst: &mut [u8],
        at: usize,
    ) -> (ConverterResult, usize, usize)
        requires at { at ≤ length dst.old }
        requires ready { CanTurn (step_view self.old) }
        requires ended { (step_view self.old).stream.ended ≡ true → (src.now ≡ []) × (last ≡ true) }
        ensures turns { MakesTurn (step_view self.old) (step_view self.new) last src.now
            (drop result.1 src.now) dst.old dst.new at result.2 result.0 }
        ensures within { result.1 ≤ length src.now }
    {
        let count = self.allowed(src);
        let all = count == src.len();
        let (result, read, to) = self.convert_into(&src[..count], last && all, dst, at);
        self.take_end(result, all);
        (result, read, to)
    }

    /// Hands out what waits for room, and converts turn by turn until all is read, room is wanted,
    /// or the conversion has ended. Returns how much was read and handed out.
    ///
    /// The condition: once the end was read, `src` is empty and `last` is given.
    pub(crate) fn run(
        &mut self,
        src: &[u8],
        last: bool,
        dst: &mut [u8],
        losses: &mut [Loss],
    ) -> ConverterProgress
        requires { (step_view self.old).stream.ended ≡ true → (src.now ≡ []) × (last ≡ true) }
        ensures carries { Carries (step_view self.old) (step_view self.new) last src.now
            (drop result.read src.now) (take result.written dst.new)
            (take result.losses losses.new) }
        ensures converts { ConvertsAll (step_view self.new) last (drop result.read src.now) dst.new
            losses.new result }
        ensures lists { (step_view self.new).stream.lists ≡ (step_view self.old).stream.lists }
        ensures read { result.read ≤ length src.now }
        ensures output { IsFilled dst.old dst.new result.written }
        ensures lost { IsFilled losses.old losses.new result.losses }
        ensures fewer { result.wants_room ≡ true → 32 ≤ length dst.new → 0 < length losses.new
            → length (owes (step_view self.new).stream (drop result.read src.now))
            < length (owes (step_view self.old).stream src.now) }
    {
        let mut progress = ConverterProgress::NONE;
        self.hand_out(dst, losses, &mut progress);
        'turns: while self.is_ready() {
            let (result, read, to) = self.turn(&src[progress.read..], last, dst, progress.written);
            progress.read += read;
            progress.written = to;
            self.hand_out(dst, losses, &mut progress);
            match result {
                ConverterResult::InputEmpty => return progress,
                ConverterResult::OutputFull | ConverterResult::Found(_) => {}
            }
        }
        progress
    }
}
