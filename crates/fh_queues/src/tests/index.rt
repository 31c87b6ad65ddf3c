// That messages are found as by a plain scan, and that many come and go.
ghost use Rattle.std.specs.Prelude.{◌≡◌};
ghost use Rattle.fh_queues.specs.Edits.{IsIdle};

use super::*;

// A message as a plain scan sees it.
#[derive(Clone, Copy)]
struct Plain {
    visible_at: u64,
    expiry: u64,
}

impl Plain {
    fn is_visible(&self, ms: u64) -> bool {
        self.visible_at <= ms && ms < self.expiry
    }
}

// Expects that a peek lists just the messages that a plain scan finds.
fn expect_scanned(
    rt: &(impl Abort + AllocGlobal),
    queues: &Queues,
    plain: &[Plain],
    ms: u64,
) -> Result<(), Fail> {
    let items = queues.peek(rt.alloc(), &orders()?, 32, moment(ms)?)?;
    let mut listed = items.as_slice();
    for (place, message) in plain.iter().enumerate() {
        if !message.is_visible(ms) {
            continue;
        }
        let [first, rest @ ..] = listed else {
            return Err("a visible message isn't listed".into());
        };
        assert_eq!(rt; first.number, place as u64 + 1);
        listed = rest;
    }
    assert!(rt; listed.is_empty());
    Ok(())
}

// When a step comes, in milliseconds.
fn at_step(step: u64) -> u64 {
    step.saturating_mul(700)
}

fn put_step(
    rt: &(impl Abort + AllocGlobal),
    queues: &mut Queues,
    plain: &mut Vec<Plain>,
    step: u64,
) -> Result<(), Fail>
    requires { IsIdle queues.old }
    ensures { IsIdle queues.new }
{
    let delay = step.wrapping_mul(7) % 5;
    let ttl = delay + 1 + step.wrapping_mul(3) % 9;
    let ms = at_step(step);
    let put = Step::Put {
        delay,
        ttl: Some(ttl),
        text: "a",
    };
    answer(rt, queues, &put, moment(ms)?)?;
    plain.push(Plain {
        visible_at: ms.saturating_add(delay * 1000),
        expiry: ms.saturating_add(ttl * 1000),
    })?;
    Ok(())
}

#[test]
fn interleaved_puts_are_found_as_by_a_plain_scan(rt: HostRuntime) -> Result<(), Fail> {
    let mut queues = Queues::new(rt.alloc());
    let mut plain = Vec::new(rt.alloc());
    answer(&rt, &mut queues, &Step::Make, moment(0)?)?;
    for step in 0..60u64 {
        put_step(&rt, &mut queues, &mut plain, step)?;
        for later in [0, 500, 1000, 2500, 4000] {
            expect_scanned(&rt, &queues, &plain, at_step(step).saturating_add(later))?;
        }
    }
    Ok(())
}

fn put_many(rt: &(impl Abort + AllocGlobal), queues: &mut Queues, count: u64) -> Result<(), Fail>
    requires { IsIdle queues.old }
    ensures { IsIdle queues.new }
{
    let text = Text::from_str(rt.alloc(), "hi")?;
    for _ in 0..count {
        let ask = ask_of(orders()?, &PUT_HI, &text);
        done(rt, queues, &ask, moment(0)?)?;
    }
    Ok(())
}

fn take_of<'a>(queue: QueueName) -> QueueAsk<'a> {
    QueueAsk::Take {
        queue,
        count: 1,
        hold: 30,
    }
}

fn delete_of<'a>(queue: QueueName, number: u64, receipt: u64) -> QueueAsk<'a> {
    QueueAsk::Delete {
        queue,
        number,
        receipt,
    }
}

// Takes one message and deletes it.
fn take_and_delete(rt: &(impl Abort + AllocGlobal), queues: &mut Queues) -> Result<(), Fail>
    requires { IsIdle queues.old }
    ensures { IsIdle queues.new }
{
    let take = take_of(orders()?);
    let QueueDone::Taken { items } = done(rt, queues, &take, moment(0)?)? else {
        return Err("no message was taken".into());
    };
    let [item] = items.as_slice() else {
        return Err("not one message was taken".into());
    };
    let delete = delete_of(orders()?, item.number, item.receipt);
    done(rt, queues, &delete, moment(0)?)?;
    Ok(())
}

fn take_and_delete_many(
    rt: &(impl Abort + AllocGlobal),
    queues: &mut Queues,
    count: u64,
) -> Result<(), Fail>
    requires { IsIdle queues.old }
    ensures { IsIdle queues.new }
{
    for _ in 0..count {
        take_and_delete(rt, queues)?;
    }
    Ok(())
}

#[test]
fn a_hundred_thousand_messages_come_and_go(rt: HostRuntime) -> Result<(), Fail> {
    let start = moment(0)?;
    let mut queues = Queues::new(rt.alloc());
    answer(&rt, &mut queues, &Step::Make, start)?;
    put_many(&rt, &mut queues, 100_000)?;
    assert_eq!(rt; queues.live(start), 100_000);
    take_and_delete_many(&rt, &mut queues, 100_000)?;
    assert_eq!(rt; queues.live(start), 0);
    Ok(())
}
