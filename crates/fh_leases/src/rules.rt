// The rules that refuse what is asked, in order of their numbers.
ghost use Rattle.std.specs.Prelude.{◌≡◌, map, option_copied, MatchResult, IfOk, IfErr};
ghost use Rattle.fh_leases.specs.Rules.{range_rule, held_rule, acquire_rule, owned, all_owned};
ghost use Rattle.fh_leases.specs.Faults.{IsFaultOf};

use crate::{HeldLease, Lease, Leases};
use fh_base::{Moment, NoMemory, Rule};
use fh_event::PlanFault;
use std::alloc::Global;

/// The greatest number of a holder.
const MOST_HOLDER: u64 = 999_999_999_999_999;

/// The shortest and the longest lease, in seconds.
const LEAST_SECONDS: u64 = 15;

const MOST_SECONDS: u64 = 60;

impl Leases {
    pub(crate) fn acquire_rule(
        &self,
        m: Moment,
        name: &str,
        holder: u64,
        seconds: u64,
    ) -> Option<Rule>
        ensures { result ≡ acquire_rule self.now.part m name.now holder seconds }
    {
        if let Some(rule) = range_rule(holder, 1, MOST_HOLDER) {
            return Some(rule);
        }
        if let Some(rule) = range_rule(seconds, LEAST_SECONDS, MOST_SECONDS) {
            return Some(rule);
        }
        held_rule(m, self.lease_of(name), holder)
    }

    /// The lease, whose last holder has to be this one.
    pub(crate) fn owned(&self, name: &str, holder: u64) -> Result<&Lease, Rule>
        ensures { MatchResult result (λ lease. owned self.now.part name.now holder ≡ Ok lease.now)
            (λ rule. owned self.now.part name.now holder ≡ Err rule) }
    {
        match self.lease_of(name) {
            None => Err(Rule::LeaseMismatch { holder: 0 }),
            Some(lease) if lease.holder == holder => Ok(lease),
            Some(lease) => Err(Rule::LeaseMismatch {
                holder: lease.holder,
            }),
        }
    }

    /// The leases, whose last holders have to be these.
    pub(crate) fn all_owned<'a>(
        &'a self,
        alloc: Global,
        held: &[HeldLease],
    ) -> Result<Vec<&'a Lease>, PlanFault>
        ensures ok { IfOk result
            (λ found. all_owned self.entry.now.part held.now ≡ Ok (map (λ lease. lease.now) found.items)) }
        ensures err { IfErr result (λ fault. IsFaultOf fault (all_owned self.entry.now.part held.now)) }
    {
        let mut found = Vec::new(alloc);
        for one in held {
            match self.owned(one.name.as_str(), one.holder) {
                Ok(lease) => found.push(lease).map_err(NoMemory::from)?,
                Err(rule) => return Err(PlanFault::Rule(rule)),
            }
        }
        Ok(found)
    }
}

fn range_rule(given: u64, low: u64, high: u64) -> Option<Rule>
    ensures { result ≡ range_rule given low high }
{
    if low <= given && given <= high {
        return None;
    }
    Some(Rule::OutOfRange { given, low, high })
}

fn held_rule(m: Moment, lease: Option<&Lease>, holder: u64) -> Option<Rule>
    ensures { result ≡ held_rule m (option_copied lease.entry) holder }
{
    match lease {
        Some(lease) if lease.holder != holder && m.ms() < lease.until => Some(Rule::LeaseHeld {
            holder: lease.holder,
            until: lease.until,
        }),
        _ => None,
    }
}
