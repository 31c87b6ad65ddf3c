// What comes of messages that invocations hold.
ghost use Rattle.std.specs.Prelude.{◌≡◌};
ghost use Rattle.fh_queues.specs.Edits.{IsIdle};

use super::*;
use fh_event::{FetchedJob, FetchedJobs, Output, Outputs};

// What is done with the queue `orders` and its messages.
#[derive(Clone, Copy)]
enum Job {
    Plain {
        step: Step,
    },
    Release {
        message: HeldMessage,
        delay: u64,
    },
    Renew {
        first: HeldMessage,
        second: HeldMessage,
        hold: u64,
    },
    // By invocation 7, with an output to each of the two queues, and one to a blob between them.
    Complete {
        message: Option<HeldMessage>,
        first: &'static str,
        second: &'static str,
    },
    // Into `orders-poison`.
    Poison {
        message: HeldMessage,
    },
    PeekIn {
        queue: &'static str,
    },
}

const MAKE: Job = Job::Plain { step: Step::Make };

const PUT: Job = Job::Plain { step: PUT_HI };

const TAKE: Job = Job::Plain { step: TAKE_ONE };

const WHERE: Job = Job::Plain { step: Step::Where };

const fn held(number: u64, receipt: u64) -> HeldMessage {
    HeldMessage { number, receipt }
}

fn output(alloc: Global, queue: &str, text: &str) -> Result<Output, Fail> {
    Ok(Output::Queue {
        queue: Text::from_str(alloc, queue)?,
        text: Text::from_str(alloc, text)?,
    })
}

fn blob_output(alloc: Global) -> Result<Output, Fail> {
    Ok(Output::Blob {
        container: Text::from_str(alloc, "inbox")?,
        blob: Text::from_str(alloc, "a.txt")?,
        text: Text::from_str(alloc, "z")?,
    })
}

fn outputs(alloc: Global, first: &str, second: &str) -> Result<Outputs, Fail> {
    let mut outputs = Vec::new(alloc);
    outputs.push(output(alloc, first, "x")?)?;
    outputs.push(blob_output(alloc)?)?;
    outputs.push(output(alloc, second, "y")?)?;
    Ok(Outputs::new(outputs))
}

fn push_numbers(
    jobs: &mut Vec<FetchedJob>,
    number: u64,
    receipt: u64,
    count: u64,
) -> Result<(), NoMemory> {
    jobs.push(FetchedJob {
        number,
        receipt,
        count,
    })?;
    Ok(())
}

// The numbers of an answer, three and three.
fn numbers(alloc: Global, done: &QueueDone) -> Result<FetchedJobs, Fail> {
    let mut jobs = Vec::new(alloc);
    match done {
        QueueDone::Released {
            receipt,
            visible_at,
        } => push_numbers(&mut jobs, *receipt, *visible_at, 0)?,
        QueueDone::Renewed { messages } => {
            for message in messages.as_slice() {
                push_numbers(&mut jobs, message.number, message.receipt, 0)?;
            }
        }
        QueueDone::Completed {
            number,
            receipt,
            count,
        } => push_numbers(&mut jobs, *number, *receipt, *count)?,
        QueueDone::Poisoned { copy, receipt } => push_numbers(&mut jobs, *copy, *receipt, 0)?,
        _ => return Err("an answer to another ask".into()),
    }
    Ok(FetchedJobs::new(jobs))
}

// Does what is asked, and says its rule or its numbers.
fn told(
    rt: &(impl Abort + AllocGlobal),
    queues: &mut Queues,
    ask: &QueueAsk<'_>,
    m: Moment,
) -> Result<String, Fail>
    requires { IsIdle queues.old }
    ensures { IsIdle queues.new }
{
    match done(rt, queues, ask, m) {
        Err(fault) => line(rt.alloc(), Err(fault)),
        Ok(done) => {
            let jobs = numbers(rt.alloc(), &done)?;
            Ok(answer_text(rt.alloc(), Ok(&Reply::Fetched { jobs }))?)
        }
    }
}

fn release_it(
    rt: &(impl Abort + AllocGlobal),
    queues: &mut Queues,
    message: HeldMessage,
    delay: u64,
    m: Moment,
) -> Result<String, Fail>
    requires { IsIdle queues.old }
    ensures { IsIdle queues.new }
{
    let ask = QueueAsk::Release { message, delay };
    told(rt, queues, &ask, m)
}

fn renew(
    rt: &(impl Abort + AllocGlobal),
    queues: &mut Queues,
    messages: &[HeldMessage],
    hold: u64,
    m: Moment,
) -> Result<String, Fail>
    requires { IsIdle queues.old }
    ensures { IsIdle queues.new }
{
    let ask = QueueAsk::Renew { messages, hold };
    told(rt, queues, &ask, m)
}

fn completion<'a>(message: Option<HeldMessage>, outputs: &'a Outputs) -> QueueAsk<'a> {
    QueueAsk::Complete {
        invocation: 7,
        message,
        outputs,
    }
}

fn complete(
    rt: &(impl Abort + AllocGlobal),
    queues: &mut Queues,
    message: Option<HeldMessage>,
    outputs: &Outputs,
    m: Moment,
) -> Result<String, Fail>
    requires { IsIdle queues.old }
    ensures { IsIdle queues.new }
{
    let ask = completion(message, outputs);
    told(rt, queues, &ask, m)
}

fn poison(
    rt: &(impl Abort + AllocGlobal),
    queues: &mut Queues,
    message: HeldMessage,
    m: Moment,
) -> Result<String, Fail>
    requires { IsIdle queues.old }
    ensures { IsIdle queues.new }
{
    let queue = QueueName::read("orders-poison").ok_or("a queue's name")?;
    let ask = QueueAsk::Poison { message, queue };
    told(rt, queues, &ask, m)
}

fn peek_in(alloc: Global, queues: &Queues, queue: &str, m: Moment) -> Result<String, Fail> {
    let queue = QueueName::read(queue).ok_or("a queue's name")?;
    let items = queues.peek(alloc, &queue, 32, m)?;
    Ok(answer_text(alloc, Ok(&Reply::Peeked { items }))?)
}

fn job_answer(
    rt: &(impl Abort + AllocGlobal),
    queues: &mut Queues,
    job: &Job,
    m: Moment,
) -> Result<String, Fail>
    requires { IsIdle queues.old }
    ensures { IsIdle queues.new }
{
    match *job {
        Job::Plain { step } => answer(rt, queues, &step, m),
        Job::Release { message, delay } => release_it(rt, queues, message, delay, m),
        Job::Renew {
            first,
            second,
            hold,
        } => renew(rt, queues, &[first, second], hold, m),
        Job::Complete {
            message,
            first,
            second,
        } => {
            let outputs = outputs(rt.alloc(), first, second)?;
            complete(rt, queues, message, &outputs, m)
        }
        Job::Poison { message } => poison(rt, queues, message, m),
        Job::PeekIn { queue } => peek_in(rt.alloc(), queues, queue, m),
    }
}

// Does the jobs from no queues on, each at its moment, and expects their answers.
fn expect_jobs(rt: &(impl Abort + AllocGlobal), jobs: &[(u64, Job, &str)]) -> Result<(), Fail> {
    let mut queues = Queues::new(rt.alloc());
    for (ms, job, expected) in jobs {
        let line = job_answer(rt, &mut queues, job, moment(*ms)?)?;
        assert_eq!(rt; line.as_str(), *expected);
    }
    Ok(())
}

const fn release(number: u64, receipt: u64, delay: u64) -> Job {
    Job::Release {
        message: held(number, receipt),
        delay,
    }
}

#[test]
fn a_released_message_is_waiting_and_comes_after_its_delay(rt: HostRuntime) -> Result<(), Fail> {
    expect_jobs(
        &rt,
        &[
            (0, MAKE, "ok"),
            (0, PUT, "ok 1 1"),
            (0, TAKE, "ok 1 1:2:1:hi"),
            (1000, release(1, 1, 5), "no 10 PopReceiptMismatch 2"),
            (1000, release(2, 2, 5), "no 8 MessageNotFound"),
            (
                1000,
                release(1, 2, 604801),
                "no 4 OutOfRange 604801 0 604800",
            ),
            (1000, release(1, 2, 5), "ok 1 3:6000:0"),
            (1000, WHERE, "is waiting orders"),
            (5999, TAKE, "quiet empty"),
            (6000, TAKE, "ok 1 1:4:2:hi"),
        ],
    )
}

const fn renew_both(first: HeldMessage, second: HeldMessage, hold: u64) -> Job {
    Job::Renew {
        first,
        second,
        hold,
    }
}

#[test]
fn a_renewal_gives_each_message_a_receipt_in_turn(rt: HostRuntime) -> Result<(), Fail> {
    let one = held(1, 5);
    expect_jobs(
        &rt,
        &[
            (0, MAKE, "ok"),
            (0, PUT, "ok 1 1"),
            (0, PUT, "ok 2 2"),
            (0, TAKE, "ok 1 1:3:1:hi"),
            (0, TAKE, "ok 1 2:4:1:hi"),
            (
                1000,
                renew_both(held(1, 3), held(2, 4), 600),
                "ok 2 1:5:0 2:6:0",
            ),
            (1000, WHERE, "is held orders 601000"),
            (
                1000,
                renew_both(one, held(2, 4), 600),
                "no 10 PopReceiptMismatch 6",
            ),
            (
                1000,
                renew_both(one, held(3, 1), 600),
                "no 8 MessageNotFound",
            ),
            (1000, renew_both(one, one, 0), "no 4 OutOfRange 0 1 604800"),
            (1000, renew_both(one, one, 1), "ok 2 1:7:0 1:8:0"),
            (1000, WHERE, "is held orders 2000"),
            (2000, TAKE, "ok 1 1:9:2:hi"),
        ],
    )
}

const fn complete_as(message: Option<HeldMessage>, first: &'static str) -> Job {
    Job::Complete {
        message,
        first,
        second: "orders",
    }
}

#[test]
fn a_completion_ends_its_message_and_sends_the_outputs(rt: HostRuntime) -> Result<(), Fail> {
    let own = Some(held(1, 2));
    expect_jobs(
        &rt,
        &[
            (0, MAKE, "ok"),
            (0, PUT, "ok 1 1"),
            (0, TAKE, "ok 1 1:2:1:hi"),
            (
                5,
                complete_as(Some(held(1, 1)), "A"),
                "no 10 PopReceiptMismatch 2",
            ),
            (5, complete_as(own, "A"), "no 2 BadName"),
            (5, WHERE, "is held orders 30000"),
            (5, complete_as(own, "mail"), "ok 1 2:3:2"),
            (5, WHERE, "is completed 7"),
            (5, Job::PeekIn { queue: "mail" }, "is 1 2:0:x"),
            (5, Job::PeekIn { queue: "orders" }, "is 1 3:0:y"),
            (5, complete_as(own, "mail"), "no 8 MessageNotFound"),
            (5, complete_as(None, "mail"), "ok 1 4:5:2"),
            (5, Job::PeekIn { queue: "mail" }, "is 2 2:0:x 4:0:x"),
        ],
    )
}

const fn poison_job(number: u64, receipt: u64) -> Job {
    Job::Poison {
        message: held(number, receipt),
    }
}

#[test]
fn a_poisoned_message_goes_on_as_a_new_one(rt: HostRuntime) -> Result<(), Fail> {
    expect_jobs(
        &rt,
        &[
            (0, MAKE, "ok"),
            (0, PUT, "ok 1 1"),
            (0, TAKE, "ok 1 1:2:1:hi"),
            (5, poison_job(1, 1), "no 10 PopReceiptMismatch 2"),
            (5, poison_job(1, 2), "ok 1 2:3:0"),
            (5, WHERE, "is moved 2"),
            (
                5,
                Job::PeekIn {
                    queue: "orders-poison",
                },
                "is 1 2:0:hi",
            ),
            (5, poison_job(1, 2), "no 8 MessageNotFound"),
        ],
    )
}

fn push_many(alloc: Global, outputs: &mut Vec<Output>, count: u64) -> Result<(), Fail> {
    for _ in 0..count {
        outputs.push(output(alloc, "mail", "x")?)?;
    }
    Ok(())
}

#[test]
fn a_thousand_outputs_are_sent_at_once(rt: HostRuntime) -> Result<(), Fail> {
    let start = moment(0)?;
    let mut queues = Queues::new(rt.alloc());
    let mut outputs = Vec::new(rt.alloc());
    push_many(rt.alloc(), &mut outputs, 1000)?;
    let outputs = Outputs::new(outputs);
    let line = complete(&rt, &mut queues, None, &outputs, start)?;
    assert_eq!(rt; line.as_str(), "ok 1 1:1:1000");
    assert_eq!(rt; queues.live(start), 1000);
    Ok(())
}

// Lets the completion of message 1 go, with these outputs.
fn completion_keeps(
    rt: &(impl Abort + AllocGlobal),
    queues: &mut Queues,
    outputs: &Outputs,
) -> Result<(), Fail>
    requires { IsIdle queues.old }
    ensures { IsIdle queues.new }
{
    let ask = completion(Some(held(1, 2)), outputs);
    keeps_the_queues(rt, queues, &ask)
}

#[test]
fn a_completion_that_is_let_go_sends_nothing(rt: HostRuntime) -> Result<(), Fail> {
    let mut queues = Queues::new(rt.alloc());
    hold_one(&rt, &mut queues)?;
    let outputs = outputs(rt.alloc(), "mail", "orders")?;
    completion_keeps(&rt, &mut queues, &outputs)?;
    let mail = QueueName::read("mail").ok_or("a queue's name")?;
    assert!(rt; !queues.has_queue(&mail));
    Ok(())
}
