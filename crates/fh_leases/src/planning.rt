// What an ask comes to, before anything changes.
ghost use Rattle.std.specs.Prelude.{◌≡◌, ◌∷◌, [], map, IfOk};
ghost use Rattle.fh_leases.specs.Asks.{ask_of};
ghost use Rattle.fh_leases.specs.Outcome.{after, renewals, untils, acquiring, renewing, releasing, renewing_all, made_by, outcome};
ghost use Rattle.fh_leases.specs.Edits.{IsIdle};
ghost use Rattle.fh_leases.specs.Faults.{IsPlanOf};

use crate::act::Act;
use crate::{HeldLease, Lease, LeaseAsk, LeaseChange, LeaseDone, Leases, Moments};
use fh_base::{Moment, NoMemory, Text};
use fh_event::PlanFault;
use std::alloc::Global;

const MILLISECONDS: u64 = 1000;

impl Leases {
    /// The change that an ask makes at a moment, or the rule that refuses it. Rules are tested in the
    /// order of their numbers. No change is quiet.
    #[tactic(auto, unfolding(crate::specs::Outcome::acting, crate::specs::Outcome::outcome))]
    pub fn plan(
        &self,
        alloc: Global,
        ask: &LeaseAsk<'_>,
        m: Moment,
    ) -> Result<LeaseChange, PlanFault>
        requires { IsIdle self.now }
        ensures { IsPlanOf self.now.part (outcome self.now.part (ask_of ask.now) m) result }
    {
        match ask {
            LeaseAsk::Acquire {
                name,
                holder,
                seconds,
            } => self.plan_acquire(alloc, m, name, *holder, *seconds),
            LeaseAsk::Renew { name, holder } => self.plan_renew(alloc, m, name, *holder),
            LeaseAsk::Release { name, holder } => self.plan_release(alloc, name, *holder),
            LeaseAsk::RenewAll { leases } => self.plan_renew_all(alloc, m, leases),
            LeaseAsk::Nothing => Ok(LeaseChange {
                acts: Vec::new(alloc),
                done: LeaseDone::Nothing,
            }),
        }
    }

    fn plan_acquire(
        &self,
        alloc: Global,
        m: Moment,
        name: &str,
        holder: u64,
        seconds: u64,
    ) -> Result<LeaseChange, PlanFault>
        ensures { IsPlanOf self.now.part (made_by self.now.part (acquiring self.now.part m name.now holder seconds)) result }
    {
        if let Some(rule) = self.acquire_rule(m, name, holder, seconds) {
            return Err(PlanFault::Rule(rule));
        }
        let until = m.ms() + seconds * MILLISECONDS;
        let lease = Lease {
            name: Text::from_str(alloc, name)?,
            holder,
            seconds: seconds as u8,
            until,
        };
        let acts = one_act(alloc, Act::Set { lease })?;
        Ok(LeaseChange {
            acts,
            done: LeaseDone::Acquired { until },
        })
    }

    fn plan_renew(
        &self,
        alloc: Global,
        m: Moment,
        name: &str,
        holder: u64,
    ) -> Result<LeaseChange, PlanFault>
        ensures { IsPlanOf self.now.part (made_by self.now.part (renewing self.now.part m name.now holder)) result }
    {
        let lease = match self.owned(name, holder) {
            Ok(lease) => lease,
            Err(rule) => return Err(PlanFault::Rule(rule)),
        };
        let until = after(m, lease.seconds);
        let lease = lease.copy_until(alloc, until)?;
        let acts = one_act(alloc, Act::Set { lease })?;
        Ok(LeaseChange {
            acts,
            done: LeaseDone::Renewed { until },
        })
    }

    fn plan_release(&self, alloc: Global, name: &str, holder: u64) -> Result<LeaseChange, PlanFault>
        ensures { IsPlanOf self.now.part (made_by self.now.part (releasing self.now.part name.now holder)) result }
    {
        if let Err(rule) = self.owned(name, holder) {
            return Err(PlanFault::Rule(rule));
        }
        let name = Text::from_str(alloc, name)?;
        let acts = one_act(alloc, Act::Remove { name })?;
        Ok(LeaseChange {
            acts,
            done: LeaseDone::Released,
        })
    }

    fn plan_renew_all(
        &self,
        alloc: Global,
        m: Moment,
        held: &[HeldLease],
    ) -> Result<LeaseChange, PlanFault>
        ensures { IsPlanOf self.now.part (made_by self.now.part (renewing_all self.now.part m held.now)) result }
    {
        let leases = self.all_owned(alloc, held)?;
        let acts = renewals(alloc, m, &leases)?;
        let untils = untils(alloc, m, &leases)?;
        Ok(LeaseChange {
            acts,
            done: LeaseDone::AllRenewed { untils },
        })
    }
}

// The moment so many seconds later.
fn after(m: Moment, seconds: u8) -> u64
    ensures { result ≡ after m seconds }
{
    m.ms() + u64::from(seconds) * MILLISECONDS
}

fn one_act(alloc: Global, act: Act) -> Result<Vec<Act>, NoMemory>
    ensures { IfOk result (λ acts. acts.items ≡ act ∷ []) }
{
    let mut acts = Vec::new(alloc);
    acts.push(act)?;
    Ok(acts)
}

fn renewals(alloc: Global, m: Moment, leases: &[&Lease]) -> Result<Vec<Act>, NoMemory>
    ensures { IfOk result (λ acts. acts.items ≡ renewals m (map (λ lease. lease.now) leases.now)) }
{
    let mut acts = Vec::new(alloc);
    for lease in leases {
        let lease = lease.copy_until(alloc, after(m, lease.seconds))?;
        acts.push(Act::Set { lease })?;
    }
    Ok(acts)
}

fn untils(alloc: Global, m: Moment, leases: &[&Lease]) -> Result<Moments, NoMemory>
    ensures { IfOk result (λ moments. moments ≡ untils m (map (λ lease. lease.now) leases.now)) }
{
    let mut moments = Vec::new(alloc);
    for lease in leases {
        moments.push(after(m, lease.seconds))?;
    }
    Ok(Moments::new(moments))
}
