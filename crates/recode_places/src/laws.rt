//! Laws of logs. The functions do nothing: each contract is a law.

ghost use Rattle.std.specs.Prelude.{◌≡◌, ℕ, ◌^◌, ◌<◌, ◌≤◌, [], ◌∷◌, ◌++◌, List, length, take};
ghost use Rattle.std.specs.List.{All, flat_map};
ghost use Rattle.recode_log.specs.Line.{line_bytes};
ghost use Rattle.recode_log.specs.declared.line.LogLine.{LogLine};
ghost use Rattle.recode.specs.Conversion.{message_of};
ghost use Rattle.recode.specs.Job.{IsValidJob, input_pieces, log_lines, log_of, target_of};
ghost use Rattle.recode.specs.Parts.{lines_of};
ghost use Rattle.recode.specs.TaggedByte.{IsPrefix};
ghost use Rattle.recode.specs.declared.job.Fault.{Fault};
ghost use Rattle.recode.specs.declared.job.Job.{Job};
ghost use Rattle.recode_places.specs.Fits.{Fits};
ghost use Rattle.recode_places.specs.Logs.{CanBeLogged, IsLogEnd};
ghost use Rattle.recode_places.specs.Places.{feeds};

use recode::laws::{pieces_are_the_input, stops_at_first_loss, trace_of_input};

/// A log is cut into lines in one way alone: no two lines that can be logged begin the same bytes.
pub fn lines_are_told_apart()
    ensures { (a b : LogLine) (x y : List ℕ) → CanBeLogged a → CanBeLogged b
        → line_bytes a ++ x ≡ line_bytes b ++ y → (a ≡ b) × (x ≡ y) }
{}

/// A line that can be logged ends in its only line feed, before which are fewer than 64 bytes.
pub fn lines_end_in_feeds()
    ensures { (l : LogLine) → CanBeLogged l → (body : List ℕ) × (line_bytes l ≡ body ++ 10 ∷ [])
        × (feeds body ≡ 0) × (length body < 64) }
{}

/// Each line that a run of `recode` writes to its log can be logged, if the input has at most 2^48
/// bytes.
pub fn lines_of_runs_can_be_logged()
    ensures { (j : Job) (x : List ℕ) → IsValidJob j → length x ≤ 2 ^ 48
        → All CanBeLogged (lines_of j x) }
{
    pieces_are_the_input();
}

/// The log of a run of `recode` fits the input, if that has at most 2^48 bytes: so `tell_places`
/// does not refuse it. So do the first bytes of it, which a run leaves that ended early, and its
/// first lines with what ends a log after them, as a message of `recode` does, or the part of it
/// that was written.
pub fn logs_of_runs_fit()
    ensures log { (j : Job) (x bytes : List ℕ) → IsValidJob j → length x ≤ 2 ^ 48
        → IsPrefix bytes (log_of j x) → Fits 0 0 (input_pieces j x) bytes }
    ensures lines { (j : Job) (x end : List ℕ) (lines : List LogLine) → IsValidJob j
        → length x ≤ 2 ^ 48 → IsPrefix lines (log_lines (target_of j) 0 0 (input_pieces j x))
        → IsLogEnd end → Fits 0 0 (input_pieces j x) (flat_map line_bytes lines ++ end) }
    ensures message { (f : Fault) (told : ℕ) → IsLogEnd (take told (message_of f)) }
{
    trace_of_input();
    stops_at_first_loss();
    pieces_are_the_input();
}
