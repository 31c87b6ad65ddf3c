ghost use Rattle.std.specs.Prelude.{◌≡◌, true};
ghost use Rattle.fh_queues.specs.Edits.{IsIdle, HasNumbers};

use super::*;
use fh_base::{Moment, NoMemory, QueueName, Text};
use fh_event::{About, PlanFault, Reply, answer_text};
use std::alloc::{AllocGlobal, Global};
use std::process::Abort;
use std::test::Fail;

mod index;
mod jobs;

const LAST_MOMENT: u64 = 253402300799999;

// What is done with the queue `orders`.
#[derive(Clone, Copy)]
enum Step {
    Make,
    Put {
        delay: u64,
        ttl: Option<u64>,
        text: &'static str,
    },
    Take {
        count: u64,
    },
    Update {
        receipt: u64,
        hold: u64,
        text: &'static str,
    },
    Delete {
        receipt: u64,
    },
    Clear,
    Sweep,
    Peek,
    // The place of message 1.
    Where,
}

const PUT_HI: Step = Step::Put {
    delay: 0,
    ttl: None,
    text: "hi",
};

const TAKE_ONE: Step = Step::Take { count: 1 };

fn orders() -> Result<QueueName, Fail> {
    Ok(QueueName::read("orders").ok_or("a queue's name")?)
}

fn moment(ms: u64) -> Result<Moment, Fail> {
    Ok(Moment::new(ms).ok_or("a moment")?)
}

fn has_numbers(queues: &Queues) -> bool
    ensures { (result ≡ true) → HasNumbers queues.now.part }
{
    queues.lists.slots.len() < 1_000_000 && queues.lists.next_receipt < 1_000_000
}

// Plans, stages and settles an ask.
fn done(
    rt: &(impl Abort + AllocGlobal),
    queues: &mut Queues,
    ask: &QueueAsk<'_>,
    m: Moment,
) -> Result<QueueDone, PlanFault>
    requires { IsIdle queues.old }
    ensures { IsIdle queues.new }
{
    assert!(rt; has_numbers(queues));
    let change = queues.plan(rt.alloc(), ask, m)?;
    if change.is_quiet() {
        return Ok(change.into_done());
    }
    if let Some(rule) = queues.too_full(ask, m) {
        return Err(PlanFault::Rule(rule));
    }
    let staged = queues.stage(change)?;
    Ok(queues.settle(staged))
}

// Plans and stages an ask, and lets it go.
fn let_go(
    rt: &(impl Abort + AllocGlobal),
    queues: &mut Queues,
    ask: &QueueAsk<'_>,
    m: Moment,
) -> Result<(), PlanFault>
    requires { IsIdle queues.old }
    ensures { IsIdle queues.new }
{
    assert!(rt; has_numbers(queues));
    let change = queues.plan(rt.alloc(), ask, m)?;
    if change.is_quiet() {
        return Ok(());
    }
    match queues.stage(change) {
        Err(NoMemory) => {}
        Ok(staged) => queues.unstage(staged),
    }
    Ok(())
}

fn ask_of<'a>(queue: QueueName, step: &Step, text: &'a Text) -> QueueAsk<'a> {
    match *step {
        Step::Make => QueueAsk::Make { queue },
        Step::Put { delay, ttl, .. } => QueueAsk::Put {
            queue,
            delay,
            ttl,
            text,
            about: None,
        },
        Step::Take { count } => QueueAsk::Take {
            queue,
            count,
            hold: 30,
        },
        Step::Update { receipt, hold, .. } => QueueAsk::Update {
            queue,
            number: 1,
            receipt,
            hold,
            text: Some(text),
        },
        Step::Delete { receipt } => QueueAsk::Delete {
            queue,
            number: 1,
            receipt,
        },
        Step::Clear => QueueAsk::Clear { queue },
        Step::Sweep | Step::Peek | Step::Where => QueueAsk::Sweep,
    }
}

fn text_of(step: &Step) -> &'static str {
    match *step {
        Step::Put { text, .. } | Step::Update { text, .. } => text,
        _ => "",
    }
}

fn reply_of(done: QueueDone) -> Option<Reply> {
    match done {
        QueueDone::Made => Some(Reply::Made),
        QueueDone::There => Some(Reply::There),
        QueueDone::Stored { number, receipt } => Some(Reply::Stored { number, receipt }),
        QueueDone::Taken { items } => Some(Reply::Taken { items }),
        QueueDone::Empty => Some(Reply::Empty),
        QueueDone::Updated { receipt } => Some(Reply::Updated { receipt }),
        QueueDone::Deleted => Some(Reply::Deleted),
        QueueDone::Cleared { count } => Some(Reply::Cleared { count }),
        QueueDone::Released { .. }
        | QueueDone::Renewed { .. }
        | QueueDone::Completed { .. }
        | QueueDone::Poisoned { .. }
        | QueueDone::Swept => None,
    }
}

// An answer, as a script prints it.
fn line(alloc: Global, answer: Result<QueueDone, PlanFault>) -> Result<String, Fail> {
    match answer {
        Err(PlanFault::NoMemory) => Err("memory was refused".into()),
        Err(PlanFault::Rule(rule)) => Ok(answer_text(alloc, Err(&rule))?),
        Ok(done) => match reply_of(done) {
            None => Ok(String::from_str(alloc, "swept")?),
            Some(reply) => Ok(answer_text(alloc, Ok(&reply))?),
        },
    }
}

fn answer(
    rt: &(impl Abort + AllocGlobal),
    queues: &mut Queues,
    step: &Step,
    m: Moment,
) -> Result<String, Fail>
    requires { IsIdle queues.old }
    ensures { IsIdle queues.new }
{
    match step {
        Step::Peek => {
            let items = queues.peek(rt.alloc(), &orders()?, 32, m)?;
            Ok(answer_text(rt.alloc(), Ok(&Reply::Peeked { items }))?)
        }
        Step::Where => {
            let place = queues.place_of(1, m);
            Ok(answer_text(rt.alloc(), Ok(&Reply::Located { place }))?)
        }
        step => {
            let text = Text::from_str(rt.alloc(), text_of(step))?;
            let ask = ask_of(orders()?, step, &text);
            line(rt.alloc(), done(rt, queues, &ask, m))
        }
    }
}

// Takes the steps from no queues on, each at its moment, and expects their answers.
fn expect(rt: &(impl Abort + AllocGlobal), steps: &[(u64, Step, &str)]) -> Result<(), Fail> {
    let mut queues = Queues::new(rt.alloc());
    for (ms, step, expected) in steps {
        let line = answer(rt, &mut queues, step, moment(*ms)?)?;
        assert_eq!(rt; line.as_str(), *expected);
    }
    Ok(())
}

#[test]
fn an_old_receipt_is_refused(rt: HostRuntime) -> Result<(), Fail> {
    expect(
        &rt,
        &[
            (0, Step::Make, "ok"),
            (0, PUT_HI, "ok 1 1"),
            (0, TAKE_ONE, "ok 1 1:2:1:hi"),
            (0, Step::Delete { receipt: 1 }, "no 10 PopReceiptMismatch 2"),
            (0, Step::Where, "is held orders 30000"),
            (0, Step::Delete { receipt: 2 }, "ok"),
            (0, Step::Where, "is deleted"),
            (0, Step::Delete { receipt: 2 }, "no 8 MessageNotFound"),
        ],
    )
}

#[test]
fn a_receipt_is_good_after_its_hold(rt: HostRuntime) -> Result<(), Fail> {
    expect(
        &rt,
        &[
            (0, Step::Make, "ok"),
            (0, PUT_HI, "ok 1 1"),
            (0, TAKE_ONE, "ok 1 1:2:1:hi"),
            (40000, Step::Where, "is waiting orders"),
            (40000, Step::Delete { receipt: 2 }, "ok"),
        ],
    )
}

#[test]
fn a_renewal_comes_too_late(rt: HostRuntime) -> Result<(), Fail> {
    let update = Step::Update {
        receipt: 2,
        hold: 30,
        text: "hi",
    };
    expect(
        &rt,
        &[
            (0, Step::Make, "ok"),
            (0, PUT_HI, "ok 1 1"),
            (0, TAKE_ONE, "ok 1 1:2:1:hi"),
            (40000, TAKE_ONE, "ok 1 1:3:2:hi"),
            (40000, update, "no 10 PopReceiptMismatch 3"),
            (40000, Step::Where, "is held orders 70000"),
        ],
    )
}

#[test]
fn ranges_and_expiry(rt: HostRuntime) -> Result<(), Fail> {
    let a_week = Step::Put {
        delay: 0,
        ttl: Some(604800),
        text: "a",
    };
    let too_late = Step::Put {
        delay: 10,
        ttl: Some(10),
        text: "a",
    };
    expect(
        &rt,
        &[
            (0, Step::Make, "ok"),
            (0, Step::Take { count: 33 }, "no 4 OutOfRange 33 1 32"),
            (0, a_week, "ok 1 1"),
            (0, too_late, "no 4 OutOfRange 10 0 9"),
            (604799999, Step::Where, "is waiting orders"),
            (604800000, Step::Where, "is expired"),
            (604800000, TAKE_ONE, "quiet empty"),
            (604800000, Step::Sweep, "swept"),
            (604800000, Step::Where, "is expired"),
        ],
    )
}

#[test]
fn at_the_last_moment(rt: HostRuntime) -> Result<(), Fail> {
    let put = Step::Put {
        delay: 5,
        ttl: Some(10),
        text: "a",
    };
    expect(
        &rt,
        &[
            (LAST_MOMENT, Step::Make, "ok"),
            (LAST_MOMENT, put, "ok 1 1"),
            (LAST_MOMENT, TAKE_ONE, "quiet empty"),
        ],
    )
}

#[test]
fn an_update_and_a_clear(rt: HostRuntime) -> Result<(), Fail> {
    let update = Step::Update {
        receipt: 3,
        hold: 0,
        text: "a",
    };
    expect(
        &rt,
        &[
            (0, TAKE_ONE, "no 6 QueueNotFound"),
            (0, Step::Make, "ok"),
            (0, Step::Make, "quiet there"),
            (0, PUT_HI, "ok 1 1"),
            (0, PUT_HI, "ok 2 2"),
            (0, TAKE_ONE, "ok 1 1:3:1:hi"),
            (0, update, "ok 4"),
            (0, Step::Peek, "is 2 1:1:a 2:0:hi"),
            (0, Step::Take { count: 2 }, "ok 2 1:5:2:a 2:6:1:hi"),
            (0, Step::Peek, "is 0"),
            (0, Step::Clear, "ok 2"),
            (0, Step::Where, "is deleted"),
            (0, Step::Clear, "quiet empty"),
        ],
    )
}

fn put_of<'a>(queue: QueueName, text: &'a Text, about: Option<&'a About>) -> QueueAsk<'a> {
    QueueAsk::Put {
        queue,
        delay: 0,
        ttl: Some(1),
        text,
        about,
    }
}

// Puts a message that lives for a second.
fn put_for_a_second(
    rt: &(impl Abort + AllocGlobal),
    queues: &mut Queues,
    queue: QueueName,
    text: &Text,
    about: Option<&About>,
) -> Result<QueueDone, PlanFault>
    requires { IsIdle queues.old }
    ensures { IsIdle queues.new }
{
    let Some(start) = Moment::new(0) else {
        return Err(PlanFault::NoMemory);
    };
    let put = put_of(queue, text, about);
    done(rt, queues, &put, start)
}

#[test]
fn a_text_has_65536_bytes_at_most(rt: HostRuntime) -> Result<(), Fail> {
    let start = moment(0)?;
    let mut queues = Queues::new(rt.alloc());
    answer(&rt, &mut queues, &Step::Make, start)?;
    for (size, expected) in [(65536, "ok 1 1"), (65537, "no 3 TooLarge 65537 65536")] {
        let text = Text::new("x".repeat(rt.alloc(), size)?);
        let told = put_for_a_second(&rt, &mut queues, orders()?, &text, None);
        let line = line(rt.alloc(), told)?;
        assert_eq!(rt; line.as_str(), expected);
    }
    Ok(())
}

#[test]
fn a_row_keeps_its_blob_while_it_is_live(rt: HostRuntime) -> Result<(), Fail> {
    let text = Text::from_str(rt.alloc(), "hi")?;
    let inbox = About {
        container: QueueName::read("inbox").ok_or("a container's name")?,
        blob: Text::from_str(rt.alloc(), "a.txt")?,
        version: 2,
    };
    let about = inbox.copy(rt.alloc())?;
    let start = moment(0)?;
    let mut queues = Queues::new(rt.alloc());
    answer(&rt, &mut queues, &Step::Make, start)?;
    put_for_a_second(&rt, &mut queues, orders()?, &text, Some(&about))?;
    let kept = queues.row(1, start).and_then(|row| row.about.get());
    let Some(kept) = kept else {
        return Err("the message is about a blob".into());
    };
    assert_eq!(rt; kept.blob.as_str(), "a.txt");
    assert_eq!(rt; kept.version, 2);
    assert_eq!(rt; queues.live(moment(999)?), 1);
    assert_eq!(rt; queues.live(moment(1000)?), 0);
    assert!(rt; queues.row(1, moment(1000)?).is_none());
    Ok(())
}

// Lets an ask go, where message 1 is held until 30000.
fn keeps_the_queues(
    rt: &(impl Abort + AllocGlobal),
    queues: &mut Queues,
    ask: &QueueAsk<'_>,
) -> Result<(), Fail>
    requires { IsIdle queues.old }
    ensures { IsIdle queues.new }
{
    let later = moment(40000)?;
    let_go(rt, queues, ask, later)?;
    let place = answer(rt, queues, &Step::Where, moment(0)?)?;
    assert_eq!(rt; place.as_str(), "is held orders 30000");
    let visible = answer(rt, queues, &Step::Peek, later)?;
    assert_eq!(rt; visible.as_str(), "is 1 1:1:hi");
    Ok(())
}

// Queues with one message that is held.
fn hold_one(rt: &(impl Abort + AllocGlobal), queues: &mut Queues) -> Result<(), Fail>
    requires { IsIdle queues.old }
    ensures { IsIdle queues.new }
{
    let start = moment(0)?;
    answer(rt, queues, &Step::Make, start)?;
    answer(rt, queues, &PUT_HI, start)?;
    answer(rt, queues, &TAKE_ONE, start)?;
    Ok(())
}

// Lets an ask of each kind go.
fn let_each_go(rt: &(impl Abort + AllocGlobal), queues: &mut Queues) -> Result<(), Fail>
    requires { IsIdle queues.old }
    ensures { IsIdle queues.new }
{
    let text = Text::from_str(rt.alloc(), "a")?;
    let update = Step::Update {
        receipt: 2,
        hold: 30,
        text: "a",
    };
    let delete = Step::Delete { receipt: 2 };
    for step in &[TAKE_ONE, update, delete, Step::Clear, Step::Sweep] {
        let ask = ask_of(orders()?, step, &text);
        keeps_the_queues(rt, queues, &ask)?;
    }
    Ok(())
}

fn make_of<'a>(queue: QueueName) -> QueueAsk<'a> {
    QueueAsk::Make { queue }
}

// Lets go that a queue is made.
fn let_make_go(
    rt: &(impl Abort + AllocGlobal),
    queues: &mut Queues,
    queue: QueueName,
) -> Result<(), Fail>
    requires { IsIdle queues.old }
    ensures { IsIdle queues.new }
{
    let make = make_of(queue);
    let_go(rt, queues, &make, moment(0)?)?;
    Ok(())
}

// The same, and a put, where message 1 is held.
fn make_keeps(
    rt: &(impl Abort + AllocGlobal),
    queues: &mut Queues,
    queue: QueueName,
) -> Result<(), Fail>
    requires { IsIdle queues.old }
    ensures { IsIdle queues.new }
{
    let make = make_of(queue);
    keeps_the_queues(rt, queues, &make)
}

fn put_keeps(rt: &(impl Abort + AllocGlobal), queues: &mut Queues) -> Result<(), Fail>
    requires { IsIdle queues.old }
    ensures { IsIdle queues.new }
{
    let text = Text::from_str(rt.alloc(), "a")?;
    let put = ask_of(orders()?, &PUT_HI, &text);
    keeps_the_queues(rt, queues, &put)
}

#[test]
fn what_is_let_go_leaves_the_queues(rt: HostRuntime) -> Result<(), Fail> {
    let other = QueueName::read("other").ok_or("a queue's name")?;
    let start = moment(0)?;
    let mut queues = Queues::new(rt.alloc());
    let_make_go(&rt, &mut queues, other)?;
    assert!(rt; !queues.has_queue(&other));
    hold_one(&rt, &mut queues)?;
    put_keeps(&rt, &mut queues)?;
    let_each_go(&rt, &mut queues)?;
    make_keeps(&rt, &mut queues, other)?;
    assert!(rt; !queues.has_queue(&other));
    let next = answer(&rt, &mut queues, &PUT_HI, start)?;
    assert_eq!(rt; next.as_str(), "ok 2 3");
    Ok(())
}

#[test]
fn a_late_peek_and_an_early_take(rt: HostRuntime) -> Result<(), Fail> {
    let put = Step::Put {
        delay: 10,
        ttl: None,
        text: "hi",
    };
    expect(
        &rt,
        &[
            (0, Step::Make, "ok"),
            (0, put, "ok 1 1"),
            (20000, Step::Peek, "is 1 1:0:hi"),
            (5000, TAKE_ONE, "quiet empty"),
        ],
    )
}
