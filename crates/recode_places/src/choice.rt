//! Which characters and malformed sequences are reported.

ghost use Rattle.std.specs.Prelude.{◌≡◌, ℕ, ◌+◌, ◌<◌, ◌≤◌, List, [], ◌∷◌, length};
ghost use Rattle.std.specs.Prelude.{IfErr, IfOk, IfSome, IsOk, IsTrue, None, OnOk, Some, false};
ghost use Rattle.std.specs.Prelude.{true};
ghost use Rattle.std.specs.Str.{chars};
ghost use Rattle.encoding_mem.specs.Piece.{Piece, malformed};
ghost use Rattle.recode_places.specs.Fits.{Fits, FitsFrom, GoesOn, IsLeftOfLog};
ghost use Rattle.recode_places.specs.Entries.{IsOfCharacter};
ghost use Rattle.recode_places.specs.Stops.{IsOfItsLog, IsUnfit};
ghost use Rattle.recode_places.specs.Logs.{IsLogEnd, TakesLines, ended, unknown};
ghost use Rattle.recode_places.specs.declared.fates.Fate.{Fate};
ghost use Rattle.recode_places.specs.calls.LogViews.{NamesFound, NamesMalformed, TakesSome};
ghost use Rattle.recode_places.specs.calls.LogViews.{choice_left, match_left};
ghost use Rattle.recode_places.specs.calls.FatesViews.{AreKeptIfAsked, IsToldOf, asked_by};
ghost use Rattle.recode_places.specs.calls.FatesViews.{fates_target};
ghost use Rattle.recode_places.specs.Findings.{fate_asked, told_by_fate};

use crate::entry::{Finding, Stop};
use crate::fates::{Fate, Fates};
use crate::log_match::LogMatch;
use std::io::Read;

/// Which characters and malformed sequences of an input are reported: those that a log names, or,
/// if no log is read, each malformed sequence and each character that a target encoding has no
/// bytes for. If folds are asked for, so is each character that the target writes as another.
#[derive(Drop)]
pub struct Choice<'t, L> {
    log: Option<LogMatch<L>>,
    fates: Option<Fates<'t>>,
    folds: bool,
}

impl<'t, L: Read> Choice<'t, L> {
    /// What the log names.
    pub fn of_log(log: LogMatch<L>) -> Choice<'t, L>
        ensures left { choice_left L.remaining result ≡ match_left L.remaining log }
        ensures asked { asked_by result ≡ record {
          has_log = true;
          target = None;
          folds = false;
        } }
    {
        Choice {
            log: Some(log),
            fates: None,
            folds: false,
        }
    }

    /// What the log names, and each character that the target writes as another.
    pub fn of_log_with_folds(log: LogMatch<L>, fates: Fates<'t>) -> Choice<'t, L>
        ensures left { choice_left L.remaining result ≡ match_left L.remaining log }
        ensures asked { asked_by result ≡ record {
          has_log = true;
          target = Some (fates_target fates.entry);
          folds = true;
        } }
    {
        Choice {
            log: Some(log),
            fates: Some(fates),
            folds: true,
        }
    }

    /// What a run would log, and, with `folds`, each character that the target writes as another.
    pub fn of_target(fates: Fates<'t>, folds: bool) -> Choice<'t, L>
        ensures left { choice_left L.remaining result ≡ unknown }
        ensures asked { asked_by result ≡ record {
          has_log = false;
          target = Some (fates_target fates.entry);
          folds = folds;
        } }
    {
        Choice {
            log: None,
            fates: Some(fates),
            folds,
        }
    }

    /// If this is true, nothing is reported of the characters of a text, the first of which has
    /// this index. It may be false of any text, which costs only time.
    pub fn passes_over(&self, index: u64, text: &str) -> bool
        ensures kept { IsTrue result → AreKeptIfAsked (asked_by self.now).target (chars text.now) }
        ensures fits { (offset : ℕ) (t : List ℕ) (ps : List Piece) → IsTrue result
            → length t ≤ length text.now
            → IsLeftOfLog (FitsFrom index offset t ps) (choice_left L.remaining self.now)
            → IsLeftOfLog (Fits (index + length t) offset ps) (choice_left L.remaining self.now) }
    {
        self.log_passes_over(index, text.len()) && self.target_keeps(text)
    }

    // Whether the log, if there is one, names no character of a text of so many bytes.
    fn log_passes_over(&self, index: u64, len: usize) -> bool
        ensures fits { (offset : ℕ) (t : List ℕ) (ps : List Piece) → IsTrue result
            → length t ≤ len
            → IsLeftOfLog (FitsFrom index offset t ps) (choice_left L.remaining self.now)
            → IsLeftOfLog (Fits (index + length t) offset ps) (choice_left L.remaining self.now) }
    {
        match &self.log {
            Some(log) => log.passes_over(index, len),
            None => true,
        }
    }

    // Whether the target, if it is asked, keeps each character of a text.
    fn target_keeps(&self, text: &str) -> bool
        ensures { IsTrue result → AreKeptIfAsked (asked_by self.now).target (chars text.now) }
    {
        match &self.fates {
            Some(fates) => fates.keeps(text),
            None => true,
        }
    }

    /// What is reported of this character, which has this index, if anything is. The error is that
    /// of the log, `Unfit` or `Log`: without a log there is none.
    pub fn character(&mut self, index: u64, c: char) -> Result<Option<Finding>, Stop>
        ensures of { IfOk result (λ found. IfSome found (IsOfCharacter c)) }
        ensures told { IfOk result (IsToldOf (asked_by self.old) c) }
        ensures asked { asked_by self.new ≡ asked_by self.old }
        ensures named { IfOk result (λ found. TakesSome (choice_left L.remaining self.old)
            (choice_left L.remaining self.new) (NamesFound index found)) }
        ensures fits { (offset : ℕ) (t : List ℕ) (ps : List Piece)
            → IsLeftOfLog (FitsFrom index offset (c ∷ t) ps) (choice_left L.remaining self.old)
            → GoesOn result (FitsFrom (index + 1) offset t ps)
            (choice_left L.remaining self.new) }
        ensures stop { IfErr result (IsOfItsLog (asked_by self.old)) }
    {
        match &mut self.log {
            Some(log) => {
                if log.names_character(index, c)? {
                    return Ok(Some(Finding::Lost { scalar: c }));
                }
                match self.fate(c) {
                    Fate::Folded(becomes) => Ok(self.fold(c, becomes)),
                    Fate::Kept | Fate::Lost => Ok(None),
                }
            }
            None => match self.fate(c) {
                Fate::Lost => Ok(Some(Finding::Lost { scalar: c })),
                Fate::Folded(becomes) => Ok(self.fold(c, becomes)),
                Fate::Kept => Ok(None),
            },
        }
    }

    // What becomes of a character in the target. If that isn't asked, it is taken to be kept.
    fn fate(&mut self, c: char) -> Fate
        ensures log { self.new.log ≡ self.old.log }
        ensures asked { asked_by self.new ≡ asked_by self.old }
        ensures fate { result ≡ fate_asked (asked_by self.old).target c }
    {
        match &mut self.fates {
            Some(fates) => fates.of(c),
            None => Fate::Kept,
        }
    }

    // A character that is folded, if folds are asked for.
    fn fold(&self, c: char, becomes: Option<char>) -> Option<Finding>
        ensures { result ≡ told_by_fate (asked_by self.now) c (Fate.Folded becomes) }
    {
        self.folds.then_some(Finding::Folded { scalar: c, becomes })
    }

    /// Whether this malformed sequence is reported, for which the U+FFFD with this index stands:
    /// each is, if there is no log. The error is that of the log, `Unfit` or `Log`: without a log
    /// there is none.
    pub fn malformed(&mut self, index: u64, offset: u64, length: u8) -> Result<bool, Stop>
        ensures told { IfOk result (λ is_told. (asked_by self.old).has_log ≡ false
            → is_told ≡ true) }
        ensures asked { asked_by self.new ≡ asked_by self.old }
        ensures named { IfOk result (λ is_told. TakesSome (choice_left L.remaining self.old)
            (choice_left L.remaining self.new) (NamesMalformed index offset length is_told)) }
        ensures fits { (ps : List Piece) → 0 < length
            → IsLeftOfLog (Fits index offset (malformed length ∷ ps))
            (choice_left L.remaining self.old)
            → GoesOn result (Fits (index + 1) (offset + length) ps)
            (choice_left L.remaining self.new) }
        ensures stop { IfErr result (IsOfItsLog (asked_by self.old)) }
    {
        match &mut self.log {
            Some(log) => log.names_malformed(index, offset, length),
            None => Ok(true),
        }
    }

    /// Tells that the input is at its end. The error is `Unfit`, if the log has one more line, or
    /// something that is none: without a log there is no error.
    pub fn finish(&self) -> Result<(), Stop>
        ensures lines { OnOk result (TakesLines (choice_left L.remaining self.now) ended []) }
        ensures fits { IsLeftOfLog IsLogEnd (choice_left L.remaining self.now) → IsOk result }
        ensures log { IfErr result (IsOfItsLog (asked_by self.now)) }
        ensures stop { IfErr result IsUnfit }
    {
        match &self.log {
            Some(log) => log.finish(),
            None => Ok(()),
        }
    }
}
