use super::*;
use fh_app::{App, AppFiles, FunctionFiles};
use fh_base::{Bytes, Failed, QueueName, Text};
use fh_event::{About, Begun, BegunJob, Outcome, Output};
use std::alloc::Global;
use std::test::Fail;

// 2026-01-01T00:00:00Z
const NEW_YEAR: u64 = 1_767_225_600_000;

const ORDERS: &str =
    r#"{"type":"queueTrigger","direction":"in","name":"order","queueName":"orders"}"#;

const CLEAN_UP: &str =
    r#"{"type":"timerTrigger","direction":"in","name":"timer","schedule":"0 0 3 * * *"}"#;

const INBOX: &str =
    r#"{"type":"blobTrigger","direction":"in","name":"item","path":"inbox/{name}.{ext}"}"#;

// An output named `copy`, of a blob.
fn copy_to(alloc: Global, path: &str) -> Result<String, Fail> {
    Ok(format!(in alloc; r#"{{"type":"blob","direction":"out","name":"copy","path":"{path}"}}"#)?)
}

// The return value, for a queue.
fn returned_to(alloc: Global, queue: &str) -> Result<String, Fail> {
    Ok(format!(in alloc;
        r#"{{"type":"queue","direction":"out","name":"$return","queueName":"{queue}"}}"#
    )?)
}

// A trigger, a blob's output `copy` and the return value for a queue.
fn with_outputs(alloc: Global, trigger: &str, path: &str, queue: &str) -> Result<String, Fail> {
    let copy = copy_to(alloc, path)?;
    let returned = returned_to(alloc, queue)?;
    Ok(format!(in alloc; "{trigger},{copy},{returned}")?)
}

fn bytes(alloc: Global, text: &str) -> Result<Bytes, Fail> {
    Ok(Bytes::from_slice(alloc, text.as_bytes())?)
}

fn queue_name(name: &str) -> Result<QueueName, Fail> {
    match QueueName::read(name) {
        Some(name) => Ok(name),
        None => Err(Fail::from("no queue's name")),
    }
}

fn host_file(alloc: Global, encoding: &str) -> Result<String, Fail> {
    let queues = format!(in alloc; r#"{{"queues":{{"messageEncoding":"{encoding}"}}}}"#)?;
    let handler = r#"{"description":{"defaultExecutablePath":"worker"}}"#;
    Ok(format!(in alloc; r#"{{"version":"2.0","customHandler":{handler},"extensions":{queues}}}"#)?)
}

// An app with one function of these bindings.
fn app(alloc: Global, encoding: &str, name: &str, bindings: &str) -> Result<App, Fail> {
    let host = host_file(alloc, encoding)?;
    let file = format!(in alloc; r#"{{"bindings":[{bindings}]}}"#)?;
    let mut functions = Vec::new(alloc);
    functions.push((Text::from_str(alloc, name)?, bytes(alloc, file.as_str())?))?;
    let files = AppFiles {
        host: Some(bytes(alloc, host.as_str())?),
        settings: None,
        functions: FunctionFiles::new(functions),
    };
    match App::read(alloc, &files) {
        Ok(app) => Ok(app),
        Err(_) => Err(Fail::from("no app")),
    }
}

fn begun(alloc: Global, function: &str, job: BegunJob) -> Result<Begun, Fail> {
    Ok(Begun {
        invocation: 1,
        function: Text::from_str(alloc, function)?,
        moment: NEW_YEAR,
        high: 0,
        low: 0,
        job,
    })
}

// Message 1 of `orders`, put and fetched at the new year, for ten minutes.
fn message(alloc: Global, text: &str, expiry: Option<u64>) -> Result<BegunJob, Fail> {
    Ok(BegunJob::Message {
        number: 1,
        queue: queue_name("orders")?,
        text: Text::from_str(alloc, text)?,
        count: 1,
        receipt: 2,
        put_at: NEW_YEAR,
        expiry,
        visible_at: NEW_YEAR + 600_000,
        about: None,
        content: None,
    })
}

fn about(alloc: Global, blob: &str) -> Result<About, Fail> {
    Ok(About {
        container: queue_name("inbox")?,
        blob: Text::from_str(alloc, blob)?,
        version: 1,
    })
}

// A message about a blob of `inbox`, whose text is `hello`.
fn blob_message(alloc: Global, blob: &str) -> Result<BegunJob, Fail> {
    Ok(BegunJob::Message {
        number: 1,
        queue: queue_name("notes")?,
        text: Text::from_str(alloc, "note")?,
        count: 1,
        receipt: 2,
        put_at: NEW_YEAR,
        expiry: None,
        visible_at: NEW_YEAR + 600_000,
        about: Some(about(alloc, blob)?),
        content: Some(Text::from_str(alloc, "hello")?),
    })
}

// What is posted for the job to the one function of an app with this encoding and these bindings.
fn posted(alloc: Global, encoding: &str, bindings: &str, begun: &Begun) -> Result<String, Fail> {
    let app = app(alloc, encoding, begun.function.as_str(), bindings)?;
    let [function] = app.functions.as_slice() else {
        return Err(Fail::from("no function"));
    };
    let body = request_text(alloc, begun, function, &app)?;
    Ok(String::from_utf8(body)?)
}

#[test]
fn posted_queue_message(rt: HostRuntime) -> Result<(), Fail> {
    let alloc = rt.alloc();
    let job = message(alloc, "eyJpZCI6NX0=", Some(NEW_YEAR + 60_000))?;
    let body = posted(alloc, "base64", ORDERS, &begun(alloc, "Orders", job)?)?;
    let expected = concat!(
        r#"{"Data":{"order":"{\"id\":5}"},"Metadata":{"DequeueCount":1,"#,
        r#""ExpirationTime":"2026-01-01T00:01:00+00:00","Id":"00000000-0000-0000-0000-000000000001","#,
        r#""InsertionTime":"2026-01-01T00:00:00+00:00","NextVisibleTime":"2026-01-01T00:10:00+00:00","#,
        r#""PopReceipt":"2","QueueTrigger":"{\"id\":5}","sys":{"MethodName":"Orders","#,
        r#""RandGuid":"00000000-0000-4000-8000-000000000000","UtcNow":"2026-01-01T00:00:00.000Z"}}}"#
    );
    assert_eq!(rt; body.as_str(), expected);
    Ok(())
}

#[test]
fn posted_blob(rt: HostRuntime) -> Result<(), Fail> {
    let alloc = rt.alloc();
    let job = blob_message(alloc, "a.b.txt")?;
    let body = posted(alloc, "none", INBOX, &begun(alloc, "Archive", job)?)?;
    let expected = concat!(
        r#"{"Data":{"item":"hello"},"Metadata":{"BlobTrigger":"inbox/a.b.txt","ext":"txt","name":"a.b","#,
        r#""sys":{"MethodName":"Archive","RandGuid":"00000000-0000-4000-8000-000000000000","#,
        r#""UtcNow":"2026-01-01T00:00:00.000Z"}}}"#
    );
    assert_eq!(rt; body.as_str(), expected);
    assert_eq!(rt; body.len(), 210);
    Ok(())
}

#[test]
fn posted_run_that_is_past_due_and_never_ran(rt: HostRuntime) -> Result<(), Fail> {
    let alloc = rt.alloc();
    let job = BegunJob::Timer {
        past_due: true,
        last: None,
        next: Some(NEW_YEAR + 10_800_000),
        updated: NEW_YEAR,
    };
    let body = posted(alloc, "none", CLEAN_UP, &begun(alloc, "CleanUp", job)?)?;
    let expected = concat!(
        r#"{"Data":{"timer":{"IsPastDue":true,"Schedule":{"AdjustForDST":true},"#,
        r#""ScheduleStatus":{"Last":"0001-01-01T00:00:00+00:00","#,
        r#""LastUpdated":"2026-01-01T00:00:00+00:00","Next":"2026-01-01T03:00:00+00:00"}}},"#,
        r#""Metadata":{"sys":{"MethodName":"CleanUp","RandGuid":"00000000-0000-4000-8000-000000000000","#,
        r#""UtcNow":"2026-01-01T00:00:00.000Z"}}}"#
    );
    assert_eq!(rt; body.as_str(), expected);
    Ok(())
}

// What is posted to `Work`, up to `sys`.
fn posted_before_sys(alloc: Global, bindings: &str, job: BegunJob) -> Result<String, Fail> {
    let body = posted(alloc, "base64", bindings, &begun(alloc, "Work", job)?)?;
    match body.as_str().split_once(r#""sys":{"MethodName":"Work","#) {
        Some((before, _)) => Ok(String::from_str(alloc, before)?),
        None => Err(Fail::from("no sys")),
    }
}

#[test]
fn a_blob_that_is_gone_or_not_of_the_pattern_has_sys_alone(rt: HostRuntime) -> Result<(), Fail> {
    let alloc = rt.alloc();
    let gone = posted_before_sys(alloc, INBOX, message(alloc, "note", None)?)?;
    assert_eq!(rt; gone.as_str(), r#"{"Data":{"item":null},"Metadata":{"#);
    let other = posted_before_sys(alloc, INBOX, blob_message(alloc, "noext")?)?;
    assert_eq!(rt; other.as_str(), r#"{"Data":{"item":"hello"},"Metadata":{"#);
    Ok(())
}

#[test]
fn a_job_of_another_kind_has_no_value_and_sys_alone(rt: HostRuntime) -> Result<(), Fail> {
    let alloc = rt.alloc();
    let run = BegunJob::Timer {
        past_due: false,
        last: None,
        next: None,
        updated: NEW_YEAR,
    };
    let to_queue = posted_before_sys(alloc, ORDERS, run)?;
    assert_eq!(rt; to_queue.as_str(), r#"{"Data":{"order":null},"Metadata":{"#);
    let to_timer = posted_before_sys(alloc, CLEAN_UP, message(alloc, "hi", None)?)?;
    assert_eq!(rt; to_timer.as_str(), r#"{"Data":{"timer":null},"Metadata":{"#);
    Ok(())
}

#[test]
fn texts_that_are_decoded_or_passed_on_as_they_stand(rt: HostRuntime) -> Result<(), Fail> {
    let alloc = rt.alloc();
    let table = [
        ("base64", "aGk=", r#"{"order":"hi"}"#),
        ("base64", "", r#"{"order":""}"#),
        ("base64", "hi!", r#"{"order":"hi!"}"#),
        ("base64", "aGk", r#"{"order":"aGk"}"#),
        ("base64", "/w==", r#"{"order":"/w=="}"#),
        ("none", "aGk=", r#"{"order":"aGk="}"#),
    ];
    for (encoding, stored, value) in table {
        let begun = begun(alloc, "Orders", message(alloc, stored, None)?)?;
        let body = posted(alloc, encoding, ORDERS, &begun)?;
        let start = format!(in alloc; r#"{{"Data":{value},"Metadata":"#)?;
        assert!(rt; body.as_str().starts_with(start.as_str()), "{stored}");
    }
    Ok(())
}

#[test]
fn a_message_that_never_expires(rt: HostRuntime) -> Result<(), Fail> {
    let alloc = rt.alloc();
    let begun = begun(alloc, "Orders", message(alloc, "hi", None)?)?;
    let body = posted(alloc, "none", ORDERS, &begun)?;
    let expiry = r#""ExpirationTime":"9999-12-31T23:59:59+00:00""#;
    assert!(rt; body.as_str().contains(expiry));
    Ok(())
}

#[test]
fn an_id_of_random_bits_has_its_version_and_variant(rt: HostRuntime) -> Result<(), Fail> {
    let alloc = rt.alloc();
    let mut begun = begun(alloc, "Orders", message(alloc, "hi", None)?)?;
    begun.high = 0x0123_4567_89ab_cdef;
    begun.low = u64::MAX;
    let body = posted(alloc, "none", ORDERS, &begun)?;
    let id = r#""RandGuid":"01234567-89ab-4def-bfff-ffffffffffff""#;
    assert!(rt; body.as_str().contains(id));
    Ok(())
}

// ---- replies

// An output as a test writes it: what kind it is, where it goes, and its text.
fn output_shown(alloc: Global, output: &Output) -> Result<String, Fail> {
    match output {
        Output::Queue { queue, text } => {
            let (queue, text) = (queue.as_str(), text.as_str());
            Ok(format!(in alloc; "queue {queue} {text}")?)
        }
        Output::Blob {
            container,
            blob,
            text,
        } => {
            let (container, blob, text) = (container.as_str(), blob.as_str(), text.as_str());
            Ok(format!(in alloc; "blob {container}/{blob} {text}")?)
        }
    }
}

fn outcome_shown(alloc: Global, outcome: &Outcome) -> Result<String, Fail> {
    match outcome {
        Outcome::Failed { cause } => {
            let cause = cause.as_str();
            Ok(format!(in alloc; "failed {cause}")?)
        }
        Outcome::Done { outputs } => outputs_shown(alloc, outputs.as_slice()),
    }
}

fn outputs_shown(alloc: Global, outputs: &[Output]) -> Result<String, Fail> {
    let mut shown = String::from_str(alloc, "done")?;
    for output in outputs {
        let output = output_shown(alloc, output)?;
        shown.push_str("; ")?;
        shown.push_str(output.as_str())?;
    }
    Ok(shown)
}

// The outcome and its log lines, each behind a bar.
fn told(alloc: Global, outcome: &Outcome, logs: &[Text]) -> Result<String, Fail> {
    let mut shown = outcome_shown(alloc, outcome)?;
    for log in logs {
        shown.push_str(" | ")?;
        shown.push_str(log.as_str())?;
    }
    Ok(shown)
}

// What the invocation comes to by the reply, for the one function of an app.
fn came_to(
    alloc: Global,
    encoding: &str,
    bindings: &str,
    begun: &Begun,
    reply: Result<&[u8], Failed>,
) -> Result<String, Fail> {
    let app = app(alloc, encoding, begun.function.as_str(), bindings)?;
    let [function] = app.functions.as_slice() else {
        return Err(Fail::from("no function"));
    };
    let (outcome, logs) = outcome_of(alloc, reply, begun, function, &app)?;
    told(alloc, &outcome, logs.as_slice())
}

// The same for the blob a.b.txt, which is copied to this path.
fn archived(alloc: Global, path: &str, reply: Result<&[u8], Failed>) -> Result<String, Fail> {
    let begun = begun(alloc, "Archive", blob_message(alloc, "a.b.txt")?)?;
    let bindings = with_outputs(alloc, INBOX, path, "done")?;
    came_to(alloc, "none", bindings.as_str(), &begun, reply)
}

// A reply of status 200 with this body.
fn reply_of(alloc: Global, body: &str) -> Result<String, Fail> {
    Ok(format!(in alloc; "HTTP/1.1 200 OK\r\n\r\n{body}")?)
}

#[test]
fn an_answer_with_outputs_logs_and_a_return_value(rt: HostRuntime) -> Result<(), Fail> {
    let alloc = rt.alloc();
    let body = r#"{"Outputs":{"copy":"HELLO"},"Logs":["read"],"ReturnValue":["one",{"n":2}]}"#;
    let reply = reply_of(alloc, body)?;
    let shown = archived(alloc, "outbox/{name}.txt", Ok(reply.as_bytes()))?;
    let expected = r#"done; blob outbox/a.b.txt HELLO; queue done one; queue done {"n":2} | read"#;
    assert_eq!(rt; shown.as_str(), expected);
    // a container that breaks a rule is for the machine to refuse
    let short = archived(alloc, "x/{name}", Ok(reply.as_bytes()))?;
    let expected = r#"done; blob x/a.b HELLO; queue done one; queue done {"n":2} | read"#;
    assert_eq!(rt; short.as_str(), expected);
    Ok(())
}

#[test]
fn replies_that_are_no_answer_by_their_causes(rt: HostRuntime) -> Result<(), Fail> {
    let alloc = rt.alloc();
    let table: [(&[u8], &str); 16] = [
        (b"hello", "head"),
        (
            b"HTTP/1.0 200 OK\r\nTransfer-Encoding: chunked\r\n\r\n",
            "chunked",
        ),
        (
            b"HTTP/1.0 200 OK\r\nContent-Encoding: gzip\r\n\r\n{}",
            "coded",
        ),
        (b"HTTP/1.0 200 OK\r\nContent-Length: +2\r\n\r\n{}", "length"),
        (
            b"HTTP/1.0 200 OK\r\nContent-Length: 2097152\r\n\r\n",
            "too long",
        ),
        (b"", "cut"),
        (b"HTTP/1.0 200 OK\r\nContent-Length: 3\r\n\r\n{}", "cut"),
        (b"HTTP/1.0 300 Other\r\n\r\n{}", "status 300"),
        (b"HTTP/1.0 199 Early\r\n\r\n{}", "status 199"),
        (b"HTTP/1.0 404 Not Found\r\n\r\nno", "status 404"),
        (b"HTTP/1.0 200 OK\r\n\r\nno", "not json"),
        (b"HTTP/1.0 200 OK\r\n\r\n ", "not json"),
        (b"HTTP/1.0 200 OK\r\n\r\n\"\xff\"", "not json"),
        (b"HTTP/1.0 200 OK\r\n\r\nnull", "not an object"),
        (b"HTTP/1.0 200 OK\r\n\r\n[]", "not an object"),
        (
            b"HTTP/1.0 200 OK\r\n\r\n{\"Outputs\":[],\"Logs\":[\"read\"]}",
            "not an object",
        ),
    ];
    for (reply, cause) in table {
        let shown = archived(alloc, "outbox/{name}.txt", Ok(reply))?;
        let expected = format!(in alloc; "failed {cause}")?;
        assert_eq!(rt; shown.as_str(), expected.as_str());
    }
    let unasked = archived(alloc, "outbox/{name}.txt", Err(Failed))?;
    assert_eq!(rt; unasked.as_str(), "failed link");
    Ok(())
}

#[test]
fn answers_by_their_values(rt: HostRuntime) -> Result<(), Fail> {
    let alloc = rt.alloc();
    let table = [
        ("", "done"),
        ("{}", "done"),
        (r#"{"Outputs":null,"Logs":null,"ReturnValue":null}"#, "done"),
        (r#"{"Outputs":{"copy":null},"ReturnValue":[]}"#, "done"),
        (
            r#"{"Outputs":{"other":"x","$return":"y"},"More":1}"#,
            "done",
        ),
        (r#"{"Logs":["a",1,null,["c"],"b"]}"#, "done | a | b"),
        (r#"{"Logs":"a"}"#, "done"),
        (
            r#"{"ReturnValue":true,"Outputs":{"copy":[1,"x"]}}"#,
            r#"done; blob outbox/a.b [1,"x"]; queue done true"#,
        ),
        (
            r#"{"ReturnValue":[null, -5, ["y"], ""]}"#,
            r#"done; queue done null; queue done -5; queue done ["y"]; queue done "#,
        ),
        (
            r#"{"ReturnValue":{"b":"\u00e9\n","a":18446744073709551615}}"#,
            "done; queue done {\"a\":18446744073709551615,\"b\":\"é\\n\"}",
        ),
        (r#"{"ReturnValue":2.50}"#, "done; queue done 2.5"),
    ];
    for (body, expected) in table {
        let reply = reply_of(alloc, body)?;
        let shown = archived(alloc, "outbox/{name}", Ok(reply.as_bytes()))?;
        assert_eq!(rt; shown.as_str(), expected);
    }
    Ok(())
}

#[test]
fn places_that_are_cut_at_their_first_slash(rt: HostRuntime) -> Result<(), Fail> {
    let alloc = rt.alloc();
    let reply = reply_of(alloc, r#"{"Outputs":{"copy":"x"}}"#)?;
    let table = [
        ("outbox/b/{name}", "done; blob outbox/b/a.b x"),
        ("/{ext}", "done; blob /txt x"),
        ("outbox", "done; blob outbox/ x"),
    ];
    for (path, expected) in table {
        let shown = archived(alloc, path, Ok(reply.as_bytes()))?;
        assert_eq!(rt; shown.as_str(), expected);
    }
    Ok(())
}

#[test]
fn a_template_without_a_value_fails_only_an_output_that_is_given(
    rt: HostRuntime,
) -> Result<(), Fail> {
    let alloc = rt.alloc();
    let given = reply_of(alloc, r#"{"Outputs":{"copy":"x"},"Logs":["read"]}"#)?;
    let shown = archived(alloc, "outbox/{nobody}", Ok(given.as_bytes()))?;
    assert_eq!(rt; shown.as_str(), "failed expression copy | read");
    let none = reply_of(alloc, r#"{"ReturnValue":"x"}"#)?;
    let shown = archived(alloc, "outbox/{nobody}", Ok(none.as_bytes()))?;
    assert_eq!(rt; shown.as_str(), "done; queue done x");
    Ok(())
}

#[test]
fn names_that_templates_of_a_queue_function_find(rt: HostRuntime) -> Result<(), Fail> {
    let alloc = rt.alloc();
    let reply = reply_of(alloc, r#"{"Outputs":{"copy":"hi"},"ReturnValue":"hi"}"#)?;
    // {"id":5,"to":{"Id":"t"},"Id":"hidden"}
    let stored = "eyJpZCI6NSwidG8iOnsiSWQiOiJ0In0sIklkIjoiaGlkZGVuIn0=";
    let begun = begun(alloc, "Orders", message(alloc, stored, None)?)?;
    let path = "{sys.MethodName}/{DateTime}/{rand-guid}/{DequeueCount}/{PopReceipt}/{Id}";
    let bindings = with_outputs(alloc, ORDERS, path, "q-{id}-{to.Id}")?;
    let shown = came_to(
        alloc,
        "base64",
        bindings.as_str(),
        &begun,
        Ok(reply.as_bytes()),
    )?;
    let expected = concat!(
        "done; blob Orders/2026-01-01T00-00-00Z/00000000-0000-4000-8000-000000000000/1/2/",
        "00000000-0000-0000-0000-000000000001 hi; queue q-5-t aGk="
    );
    assert_eq!(rt; shown.as_str(), expected);
    Ok(())
}

fn repeated(alloc: Global, piece: &str, count: u32) -> Result<String, Fail> {
    let mut text = String::new(alloc);
    for _ in 0..count {
        text.push_str(piece)?;
    }
    Ok(text)
}

// An answer whose return value is a list of 1,002 empty texts.
fn answer_of_many(alloc: Global) -> Result<String, Fail> {
    let values = repeated(alloc, r#","""#, 1_001)?;
    let values = values.as_str();
    Ok(format!(in alloc; r#"{{"ReturnValue":[""{values}]}}"#)?)
}

#[test]
fn of_many_outputs_one_more_than_may_be_is_kept(rt: HostRuntime) -> Result<(), Fail> {
    let alloc = rt.alloc();
    let body = answer_of_many(alloc)?;
    let Ok(answer) = read_answer(alloc, 200, body.as_bytes()) else {
        return Err(Fail::from("no answer"));
    };
    let begun = begun(alloc, "Orders", message(alloc, "hi", None)?)?;
    let bindings = with_outputs(alloc, ORDERS, "outbox/a", "done")?;
    let app = app(alloc, "none", "Orders", bindings.as_str())?;
    let [function] = app.functions.as_slice() else {
        return Err(Fail::from("no function"));
    };
    let Ok(outputs) = outputs_of(alloc, &answer, &begun, function, &app) else {
        return Err(Fail::from("no outputs"));
    };
    assert_eq!(rt; outputs.as_slice().len(), 1_001);
    Ok(())
}

#[test]
fn an_outcome_whose_entry_would_be_too_long(rt: HostRuntime) -> Result<(), Fail> {
    let alloc = rt.alloc();
    let body = answer_of_many(alloc)?;
    let reply = reply_of(alloc, body.as_str())?;
    let name = repeated(alloc, "0123456789", 1_700)?;
    let begun = begun(alloc, "Orders", message(alloc, name.as_str(), None)?)?;
    let bindings = with_outputs(alloc, ORDERS, "outbox/a", "{queueTrigger}")?;
    let shown = came_to(
        alloc,
        "none",
        bindings.as_str(),
        &begun,
        Ok(reply.as_bytes()),
    )?;
    assert_eq!(rt; shown.as_str(), "failed too long");
    Ok(())
}
