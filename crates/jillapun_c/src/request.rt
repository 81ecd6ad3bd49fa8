//! The numbers of a call, and the job that they ask for.

ghost use Rattle.std.specs.Prelude.{◌≡◌, IfErr, IfNone, IfOk, IfSome, Some};
ghost use Rattle.jillapun_c.specs.Asked.{AreKnown, EndsAtOnce, IsAskedFor, NamesJob, policy_at};

use crate::encoding_number::{encoding_of, mark_of};
use crate::status::{DECIMAL, HEXADECIMAL, NOT_READY, STOP, UNKNOWN};
use encoding_tables::Tables;
use recode::{GREATEST_LIMIT, Job, Policy};

/// What a conversion is asked for, by numbers.
#[derive(Clone, Copy)]
pub(crate) struct Request {
    pub(crate) from: u8,
    pub(crate) to: u8,
    pub(crate) mark: u8,
    pub(crate) policy: u8,
    pub(crate) limit: u64,
}

/// The number of a policy.
pub(crate) fn number_of_policy(policy: Policy) -> u8
    ensures { policy_at result ≡ Some policy }
{
    policy as u8
}

/// The policy with a number.
pub(crate) fn policy_of(number: u8) -> Option<Policy>
    ensures { result ≡ policy_at number }
{
    match number {
        DECIMAL => Some(Policy::Decimal),
        HEXADECIMAL => Some(Policy::Hexadecimal),
        STOP => Some(Policy::Stop),
        _ => None,
    }
}

impl Request {
    // The job, if each number stands for something. It may want indexes that are not there.
    fn named(self, tables: &Tables) -> Option<Job<'_>>
        ensures some { IfSome result
            (NamesJob tables.now self.from self.to self.mark self.policy self.limit) }
        ensures none { IfNone result (¬ (AreKnown self.from self.to self.mark self.policy)) }
    {
        let from = encoding_of(self.from)?;
        let to = encoding_of(self.to)?;
        let mark = mark_of(self.mark)?;
        let policy = policy_of(self.policy)?;
        Some(Job {
            from,
            to,
            mark,
            policy,
            limit: self.limit.min(GREATEST_LIMIT),
            tables,
        })
    }

    /// The job, or the status that says why there is none: a number stands for nothing (`UNKNOWN`),
    /// or an index is not in the tables (`NOT_READY`).
    pub(crate) fn job(self, tables: &Tables) -> Result<Job<'_>, u8>
        ensures ok { IfOk result
            (IsAskedFor tables.now self.from self.to self.mark self.policy self.limit) }
        ensures err { IfErr result
            (EndsAtOnce tables.now self.from self.to self.mark self.policy self.limit) }
    {
        let Some(job) = self.named(tables) else {
            return Err(UNKNOWN);
        };
        if !job.is_valid() {
            return Err(NOT_READY);
        }
        Ok(job)
    }
}
