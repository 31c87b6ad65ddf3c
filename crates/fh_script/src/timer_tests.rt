// Timers, over a journal.
use crate::tests::{NEVER, expect, run};
use std::test::Fail;

#[test]
fn a_timer_is_armed_and_ticks_and_then_a_run_is_ready(rt: HostRuntime) -> Result<(), Fail> {
    let cases = [(
        "configure t timer 0%20*/5%20*%20*%20*%20* 0 1 0\narm t\ntick t\nat 300000\ntick t\ntick t\n",
        "ok 1\nok armed 300000\nquiet notdue\nat 300000\nok ticked 300000 600000\nquiet running\n",
    )];
    expect(&rt, b"", &cases)
}

#[test]
fn each_way_of_arming(rt: HostRuntime) -> Result<(), Fail> {
    let cases = [
        // Without a row: no startup, and a startup, with a monitor or not.
        (
            "configure t timer 0%20*/5%20*%20*%20*%20* 0 0 0\narm t\narm t\n",
            "ok 1\nok armed 300000\nok armed 300000\n",
        ),
        (
            "configure t timer 0%20*/5%20*%20*%20*%20* 1 0 0\narm t\narm t\ntick t\n",
            "ok 1\nok armed 300000\nquiet running\nquiet running\n",
        ),
        (
            "configure t timer 0%20*/5%20*%20*%20*%20* 1 1 0\narm t\narm t\n",
            "ok 1\nok armed 300000\nquiet running\n",
        ),
        // With a row: not watched, watched, and watched with a time that was missed.
        (
            "configure t timer 0%20*/5%20*%20*%20*%20* 0 0 0\narm t\nat 900000\narm t\n",
            "ok 1\nok armed 300000\nat 900000\nok armed 1200000\n",
        ),
        (
            "configure t timer 0%20*/5%20*%20*%20*%20* 0 1 0\narm t\narm t\nat 900000\narm t\narm t\n",
            "ok 1\nok armed 300000\nquiet same\nat 900000\nok pastdue 300000 1200000\nquiet running\n",
        ),
        // A startup beside a row that is watched.
        (
            "configure t timer 0%20*/5%20*%20*%20*%20* 0 1 0\narm t\n\
             configure t timer 0%20*/5%20*%20*%20*%20* 1 1 0\narm t\narm t\n",
            "ok 1\nok armed 300000\nok 1\nok armed 300000\nquiet running\n",
        ),
        // Another schedule begins anew, and drops the run that was ready.
        (
            "configure t timer 0%20*/5%20*%20*%20*%20* 1 1 0\narm t\n\
             configure t timer 0%20*/7%20*%20*%20*%20* 0 1 0\ntick t\narm t\n",
            "ok 1\nok armed 300000\nok 1\nquiet unarmed\nok armed 420000\n",
        ),
        // A schedule that has no time left.
        (
            "configure t timer 0%200%200%201%201%20* 0 1 0\nat 253402300799000\narm t\ntick t\n",
            "ok 1\nat 253402300799000\nok armed -\nquiet notdue\n",
        ),
    ];
    expect(&rt, b"", &cases)
}

#[test]
fn refusals_of_timers_in_the_order_of_the_rules(rt: HostRuntime) -> Result<(), Fail> {
    let cases = [
        (
            "arm t\ntick t\narm 1t\n",
            "no 5 NoSuchFunction\nno 5 NoSuchFunction\nno 5 NoSuchFunction\n",
        ),
        (
            "configure f blob 16 8 5 0 0\narm f\ntick f\n",
            "ok 1\nno 5 NoSuchFunction\nno 5 NoSuchFunction\n",
        ),
        (
            "configure t timer 0%20*/5%20*%20*%20*%20* 0 1 14\n",
            "no 4 OutOfRange 14 15 60\n",
        ),
        (
            "configure 1t timer 0%20*/5%20*%20*%20*%20* 0 1 14\n",
            "no 2 BadName\n",
        ),
        (
            "configure t timer 0%20*/5%20*%20*%20*%20* 0 1 15\n\
             configure t timer 0%20*/5%20*%20*%20*%20* 0 1 15\ntick t\n",
            "ok 1\nquiet same\nquiet unarmed\n",
        ),
        (
            "configure t timer 0%20*/5%20*%20*%20*%20* 0 1 0\nblob inbox a x\nnote t inbox a\n",
            "ok 1\nok 1\nno 5 NoSuchFunction\n",
        ),
    ];
    expect(&rt, b"", &cases)
}

#[test]
fn a_run_missed_between_two_runs_of_the_host_is_made_once(rt: HostRuntime) -> Result<(), Fail> {
    let first = "configure t timer 0%20*/5%20*%20*%20*%20* 0 1 0\narm t\n";
    let end = run(&rt, first.as_bytes(), b"", NEVER)?;
    assert_eq!(rt; end.written.as_str(), "ok 1\nok armed 300000\n");
    let cases = [
        (
            "at 1000000\narm t\narm t\n",
            "at 1000000\nok pastdue 300000 1200000\nquiet running\n",
        ),
        (
            "at 300000\ntick t\n",
            "at 300000\nok ticked 300000 600000\n",
        ),
        (
            "at 299999\narm t\ntick t\n",
            "at 299999\nquiet same\nquiet notdue\n",
        ),
    ];
    expect(&rt, &end.journal, &cases)
}
