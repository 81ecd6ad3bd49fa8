//! Laws of what is joined. The functions do nothing: each contract is a law.

ghost use Rattle.std.specs.Prelude.{◌≡◌, ℕ, ◌^◌, ◌≤◌, ◌++◌, List, length};
ghost use Rattle.encoding_mem.specs.Parts.{EndsInCut};
ghost use Rattle.recode.specs.Devices.{Written};
ghost use Rattle.recode.specs.Job.{IsValidJob, RunsThrough, input_text, log_of, output_of};
ghost use Rattle.recode.specs.Parts.{CanBeCut, later, unwritten};
ghost use Rattle.recode.specs.Session.{IsConverted};
ghost use Rattle.recode.specs.declared.job.Job.{Job};
ghost use Rattle.recode.specs.declared.job.Report.{Report};
ghost use Rattle.recode_parts.specs.Joins.{CanBeMoved, JoinsLog, MovesLines};
ghost use Rattle.recode_parts.specs.Summaries.{AddsParts, IsSummary};
ghost use Rattle.recode_parts.specs.declared.summary.Summary.{Summary};

use recode::laws::{parts_are_the_whole, pieces_are_the_input};
use recode_places::laws::{lines_are_told_apart, lines_end_in_feeds, lines_of_runs_can_be_logged};

/// Once two parts are joined, the next part follows them as it would the first: the input can be
/// cut behind both, and the job of later parts stays.
pub fn parts_follow_one_another()
    ensures cut { (j : Job) (x y : List ℕ) → IsValidJob j → CanBeCut j x → EndsInCut y
        → CanBeCut j (x ++ y) }
    ensures job { (j : Job) (x y : List ℕ) → IsValidJob j → CanBeCut j x
        → later j (x ++ y) ≡ later j x }
{
    parts_are_the_whole();
}

/// The summaries of two parts, added, are that of the whole.
pub fn summaries_add_up()
    ensures { (j : Job) (x y : List ℕ) (p q s : Summary) → IsValidJob j → CanBeCut j x
        → IsSummary j x p → IsSummary (later j x) y q → AddsParts p q s
        → IsSummary j (x ++ y) s }
{
    parts_are_the_whole();
}

/// The log of a part has one reading as lines: whatever its lines were read as, moved by the bytes
/// and the characters before the part, they are what the log of the whole has behind the log of
/// what stands before the part.
pub fn joined_logs_are_the_log()
    ensures { (j : Job) (x y moved : List ℕ) → IsValidJob j → CanBeCut j x → RunsThrough j x
        → length y ≤ 2 ^ 48
        → MovesLines (length x) (length (input_text j x)) (log_of (later j x) y) moved
        → log_of j (x ++ y) ≡ log_of j x ++ moved }
{
    parts_are_the_whole();
    lines_are_told_apart();
    lines_of_runs_can_be_logged();
}

/// The log of a part can be joined to that of what stands before it, if the whole has at most 2^48
/// bytes: its lines can be moved, and it is not too long. So `join_log` does not refuse it.
pub fn logs_of_parts_can_be_joined()
    ensures moved { (j : Job) (x y : List ℕ) → IsValidJob j → CanBeCut j x → RunsThrough j x
        → length (x ++ y) ≤ 2 ^ 48
        → CanBeMoved (length x) (length (input_text j x)) (log_of (later j x) y) }
    ensures size { (j : Job) (x : List ℕ) → IsValidJob j → length x ≤ 2 ^ 48
        → length (log_of j x) ≤ 2 ^ 55 }
{
    parts_are_the_whole();
    pieces_are_the_input();
    lines_end_in_feeds();
    lines_of_runs_can_be_logged();
}

/// Two runs on the parts of an input, whose log and output are joined: the log of the second is
/// joined to that of the first, behind the bytes that the first read and the characters of its
/// text. Then both are those of the whole.
pub fn joined_runs_are_a_run()
    ensures { (j : Job) (x y : List ℕ) (v w : Written) (p q : Report)
        (reads reads' : List (List ℕ)) (log : List ℕ) → IsValidJob j → CanBeCut j x
        → IsConverted unwritten v j x p → IsConverted unwritten w (later j x) y q
        → (joins : JoinsLog p.read (length (input_text j x)) reads reads' v.log log)
        → joins.part ≡ w.log
        → (output_of j (x ++ y) ≡ v.output ++ w.output) × (log_of j (x ++ y) ≡ log) }
{
    parts_are_the_whole();
    joined_logs_are_the_log();
}
