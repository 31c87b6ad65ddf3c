use super::*;
use fh_base::{Moment, NoMemory, Rule, Text};
use fh_event::PlanFault;
use std::alloc::AllocGlobal;
use std::process::Abort;
use std::test::Fail;

#[derive(Clone, Copy, Debug, PartialEq, Eq)]
enum Told {
    Until(u64),
    Released,
    Refused(Rule),
}

fn moment(ms: u64) -> Result<Moment, Fail> {
    Ok(Moment::new(ms).ok_or("a moment")?)
}

// Plans, stages and settles an ask.
fn done(
    rt: &impl AllocGlobal,
    leases: &mut Leases,
    ask: &LeaseAsk<'_>,
    m: Moment,
) -> Result<LeaseDone, PlanFault> {
    let change = leases.plan(rt.alloc(), ask, m)?;
    match leases.stage(change) {
        Err(NoMemory) => Err(PlanFault::NoMemory),
        Ok(staged) => Ok(leases.settle(staged)),
    }
}

fn answer(
    rt: &impl AllocGlobal,
    leases: &mut Leases,
    ask: &LeaseAsk<'_>,
    ms: u64,
) -> Result<Told, Fail> {
    match done(rt, leases, ask, moment(ms)?) {
        Err(PlanFault::Rule(rule)) => Ok(Told::Refused(rule)),
        Err(PlanFault::NoMemory) => Err("memory was refused".into()),
        Ok(LeaseDone::Acquired { until } | LeaseDone::Renewed { until }) => Ok(Told::Until(until)),
        Ok(LeaseDone::Released) => Ok(Told::Released),
        Ok(LeaseDone::AllRenewed { .. } | LeaseDone::Nothing) => Err("another answer".into()),
    }
}

const fn acquire(holder: u64) -> LeaseAsk<'static> {
    LeaseAsk::Acquire {
        name: "jobs",
        holder,
        seconds: 15,
    }
}

// Asks in turn, from no leases on, each at its moment.
fn expect(
    rt: &(impl Abort + AllocGlobal),
    steps: &[(u64, LeaseAsk<'_>, Told)],
) -> Result<(), Fail> {
    let mut leases = Leases::new(rt.alloc());
    for (ms, ask, expected) in steps {
        let told = answer(rt, &mut leases, ask, *ms)?;
        assert_eq!(rt; told, *expected);
    }
    Ok(())
}

#[test]
fn a_lease_goes_to_another_at_its_end(rt: HostRuntime) -> Result<(), Fail> {
    let renew = LeaseAsk::Renew {
        name: "jobs",
        holder: 7,
    };
    let held = Rule::LeaseHeld {
        holder: 7,
        until: 15000,
    };
    let mismatch = Rule::LeaseMismatch { holder: 8 };
    expect(
        &rt,
        &[
            (0, acquire(7), Told::Until(15000)),
            (14999, acquire(8), Told::Refused(held)),
            (15000, acquire(8), Told::Until(30000)),
            (15000, renew, Told::Refused(mismatch)),
        ],
    )
}

#[test]
fn an_expired_lease_is_renewed_and_released(rt: HostRuntime) -> Result<(), Fail> {
    let renew = LeaseAsk::Renew {
        name: "jobs",
        holder: 7,
    };
    let release = LeaseAsk::Release {
        name: "jobs",
        holder: 7,
    };
    let mismatch = Rule::LeaseMismatch { holder: 0 };
    expect(
        &rt,
        &[
            (0, acquire(7), Told::Until(15000)),
            (20000, renew, Told::Until(35000)),
            (40000, release, Told::Released),
            (40000, release, Told::Refused(mismatch)),
        ],
    )
}

#[test]
fn a_list_is_renewed_at_once(rt: HostRuntime) -> Result<(), Fail> {
    let mut leases = Leases::new(rt.alloc());
    answer(&rt, &mut leases, &acquire(7), 0)?;
    let name = Text::from_str(rt.alloc(), "jobs")?;
    let held = [HeldLease { name, holder: 7 }];
    let ask = LeaseAsk::RenewAll { leases: &held };
    let LeaseDone::AllRenewed { untils } = done(&rt, &mut leases, &ask, moment(8000)?)? else {
        return Err("another answer".into());
    };
    assert_eq!(rt; untils.as_slice(), [23000].as_slice());
    assert_eq!(rt; leases.holder_at("jobs", moment(22999)?), Some((7, 23000)));
    assert_eq!(rt; leases.holder_at("jobs", moment(23000)?), None);
    Ok(())
}

#[test]
fn what_is_let_go_leaves_the_leases(rt: HostRuntime) -> Result<(), Fail> {
    let mut leases = Leases::new(rt.alloc());
    let start = moment(0)?;
    let change = leases.plan(rt.alloc(), &acquire(7), start)?;
    match leases.stage(change) {
        Err(NoMemory) => return Err("memory was refused".into()),
        Ok(staged) => leases.unstage(staged),
    }
    assert_eq!(rt; leases.holder_at("jobs", start), None);
    done(&rt, &mut leases, &LeaseAsk::Nothing, start)?;
    assert_eq!(rt; leases.holder_at("jobs", start), None);
    Ok(())
}
