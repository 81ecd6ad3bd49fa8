//! What a converter made, on its way into the caller's memory.

ghost use Rattle.std.specs.Prelude.{◌≡◌, ◌↔◌, ◌+◌, ◌-◌, ◌≤◌, IsTrue, drop, length};
ghost use Rattle.jillapun_c.specs.Converters.{HandsOut, HoldsNothing, held_losses, step_view};
ghost use Rattle.jillapun_c.specs.Room.{FillsRoom};

use crate::converter::Converter;
use crate::converter::progress::ConverterProgress;
use crate::losses::Loss;

/// Puts the first elements of a list into a room that is filled up to a place, as many as fit.
/// Returns up to where it is filled then.
pub(crate) fn fill<T: Copy>(list: &[T], room: &mut [T], at: usize) -> usize
    requires { at ≤ length room.old }
    ensures fills { FillsRoom list.now (drop (result - at) list.now) room.old room.new at result }
    ensures within { result ≤ at + length list.now }
{
    let count = list.len().min(room.len() - at);
    let to = at + count;
    room[at..to].copy_from_slice(&list[..count]);
    to
}

impl Converter<'_> {
    /// Whether all that was made was handed out.
    pub(crate) fn holds_nothing(&self) -> bool
        ensures { IsTrue result ↔ HoldsNothing (step_view self.now) }
    {
        self.held.is_empty() && self.loss.is_none()
    }

    // Hands out the record that waits, if one does and there is room.
    fn hand_out_loss(&mut self, losses: &mut [Loss], at: usize) -> usize
        requires { at ≤ length losses.old }
        ensures fills { FillsRoom (held_losses (step_view self.old))
            (held_losses (step_view self.new)) losses.old losses.new at result }
        ensures rest { step_view self.new
            ≡ record (step_view self.old) { loss = self.new.loss } }
    {
        match self.loss {
            Some(loss) if at < losses.len() => {
                losses[at] = loss;
                self.loss = None;
                at + 1
            }
            _ => at,
        }
    }

    /// Hands out what was made, as far as there is room, after what was handed out before. Reports
    /// whether something is left.
    pub(crate) fn hand_out(
        &mut self,
        dst: &mut [u8],
        losses: &mut [Loss],
        progress: &mut ConverterProgress,
    )
        requires written { progress.old.written ≤ length dst.old }
        requires told { progress.old.losses ≤ length losses.old }
        ensures { HandsOut (step_view self.old) (step_view self.new) dst.old dst.new losses.old
            losses.new progress.old progress.new }
    {
        progress.written = self.held.hand_out(dst, progress.written);
        progress.losses = self.hand_out_loss(losses, progress.losses);
        progress.wants_room = !self.holds_nothing();
    }
}
