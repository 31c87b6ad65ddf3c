use super::*;
use fh_base::{Bytes, Failing, FaultPlan, MemorySink, Text};
use std::alloc::Global;
use std::test::Fail;
use std::{fs, process};

// What an app with this host.json, these settings and this function is refused for, by the member of the
// fault, or "".
fn refused_member(alloc: Global, host: &str, settings: &str, function: &str) -> Result<Text, Fail> {
    let mut functions = Vec::new(alloc);
    if !function.is_empty() {
        functions.push((text(alloc, "Work")?, bytes(alloc, function)?))?;
    }
    let files = AppFiles {
        host: Some(bytes(alloc, host)?),
        settings: Some(bytes(alloc, settings)?),
        functions: FunctionFiles::new(functions),
    };
    match App::read(alloc, &files) {
        Ok(_) => Ok(text(alloc, "")?),
        Err(AppFault::Missing { member, .. }) => {
            let member = member.as_str();
            Ok(Text::new(format!(in alloc; "no {member}")?))
        }
        Err(AppFault::BadValue { member, .. }) => Ok(member),
        Err(AppFault::NotJson { file }) => Ok(file),
        Err(AppFault::TriggerCount { given, .. }) => {
            Ok(Text::new(format!(in alloc; "triggers {given}")?))
        }
        Err(_) => Ok(text(alloc, "another fault")?),
    }
}

fn text(alloc: Global, text: &str) -> Result<Text, Fail> {
    Ok(Text::from_str(alloc, text)?)
}

fn bytes(alloc: Global, text: &str) -> Result<Bytes, Fail> {
    Ok(Bytes::from_slice(alloc, text.as_bytes())?)
}

fn plan(alloc: Global, calls: &[u64]) -> Result<FaultPlan, Fail> {
    Ok(FaultPlan::new(Failing::Listed {
        calls: calls.to_vec(alloc)?,
    }))
}

#[test]
fn each_row_of_host_json_with_good_missing_and_bad_values(rt: HostRuntime) -> Result<(), Fail> {
    let alloc = rt.alloc();
    let cases = [
        ("[]", "no version"),
        ("{\"version\":null}", "version"),
        ("{\"version\":\"3.0\"}", "version"),
        (
            "{\"version\":\"2.0\"}",
            "no customHandler.description.defaultExecutablePath",
        ),
        (
            "{\"version\":\"2.0\",\"customHandler\":{\"description\":{\"defaultExecutablePath\":\"\"}}}",
            "customHandler.description.defaultExecutablePath",
        ),
        ("[", "host.json"),
    ];
    for (host, member) in cases {
        let refused = refused_member(alloc, host, "{}", "")?;
        assert_eq!(rt; refused.as_str(), member);
    }
    let rows = [
        ("\"extra\":1", ""),
        (
            "\"extensions\":{\"queues\":{\"batchSize\":32,\"newBatchThreshold\":0,\"maxDequeueCount\":1000}}",
            "",
        ),
        (
            "\"extensions\":{\"queues\":{\"batchSize\":33,\"maxDequeueCount\":0}}",
            "extensions.queues.batchSize",
        ),
        (
            "\"extensions\":{\"queues\":{\"batchSize\":16.0}}",
            "extensions.queues.batchSize",
        ),
        (
            "\"extensions\":{\"queues\":{\"newBatchThreshold\":1001}}",
            "extensions.queues.newBatchThreshold",
        ),
        (
            "\"extensions\":{\"queues\":{\"maxDequeueCount\":0}}",
            "extensions.queues.maxDequeueCount",
        ),
        (
            "\"extensions\":{\"queues\":{\"visibilityTimeout\":\"7.00:00:00\"}}",
            "",
        ),
        (
            "\"extensions\":{\"queues\":{\"visibilityTimeout\":\"7.00:00:00.001\"}}",
            "extensions.queues.visibilityTimeout",
        ),
        (
            "\"extensions\":{\"queues\":{\"maxPollingInterval\":\"00:60:00\"}}",
            "extensions.queues.maxPollingInterval",
        ),
        (
            "\"extensions\":{\"queues\":{\"messageEncoding\":\"none\"}}",
            "",
        ),
        (
            "\"extensions\":{\"queues\":{\"messageEncoding\":\"utf8\"}}",
            "extensions.queues.messageEncoding",
        ),
        (
            "\"singleton\":{\"lockPeriod\":\"00:01:00\",\"listenerLockPeriod\":\"00:00:00\"}",
            "",
        ),
        (
            "\"singleton\":{\"lockPeriod\":\"00:00:14.999\"}",
            "singleton.lockPeriod",
        ),
        (
            "\"singleton\":{\"listenerLockPeriod\":60}",
            "singleton.listenerLockPeriod",
        ),
        (
            "\"singleton\":{\"lockAcquisitionTimeout\":null}",
            "singleton.lockAcquisitionTimeout",
        ),
    ];
    for (row, member) in rows {
        let host = format!(in alloc;
            "{{\"version\":\"2.0\",\"customHandler\":{{\"description\":{{\"defaultExecutablePath\":\"worker\"}}}},{row}}}"
        )?;
        let refused = refused_member(alloc, host.as_str(), "{}", "")?;
        assert_eq!(rt; refused.as_str(), member);
    }
    let descriptions = [
        (
            "\"workingDirectory\":1",
            "customHandler.description.workingDirectory",
        ),
        ("\"arguments\":\"a\"", "customHandler.description.arguments"),
        (
            "\"arguments\":[\"a\",null]",
            "customHandler.description.arguments.1",
        ),
    ];
    for (row, member) in descriptions {
        let host = format!(in alloc;
            "{{\"version\":\"2.0\",\"customHandler\":{{\"description\":{{\"defaultExecutablePath\":\"worker\",{row}}}}}}}"
        )?;
        let refused = refused_member(alloc, host.as_str(), "{}", "")?;
        assert_eq!(rt; refused.as_str(), member);
    }
    Ok(())
}

const HOST: &str =
    "{\"version\":\"2.0\",\"customHandler\":{\"description\":{\"defaultExecutablePath\":\"worker\"}},\"extensions\":{\"queues\":{\"messageEncoding\":\"none\"}}}";

#[test]
fn each_row_of_the_settings_and_of_function_json(rt: HostRuntime) -> Result<(), Fail> {
    let alloc = rt.alloc();
    let queue =
        "{\"bindings\":[{\"type\":\"queueTrigger\",\"direction\":\"in\",\"name\":\"order\",\"queueName\":\"%Q%\"}]}";
    let settings = [
        ("{\"Values\":{\"Q\":\"orders\"}}", ""),
        ("{\"Values\":{\"Q\":\"Orders\"}}", "bindings.0.queueName"),
        ("{}", "bindings.0.queueName"),
        ("{\"Values\":[]}", "Values"),
        ("{\"Values\":{\"b\":\"\",\"a\":1}}", "Values.a"),
        ("{", "local.settings.json"),
    ];
    for (settings, member) in settings {
        let refused = refused_member(alloc, HOST, settings, queue)?;
        assert_eq!(rt; refused.as_str(), member);
    }
    let functions = [
        ("", ""),
        ("nothing", "Work/function.json"),
        ("{\"disabled\":1,\"singleton\":1}", "disabled"),
        ("{\"singleton\":null}", "singleton"),
        ("{}", "no bindings"),
        ("{\"bindings\":{}}", "bindings"),
        ("{\"bindings\":[]}", "triggers 0"),
        ("{\"bindings\":[{},1]}", "bindings.1"),
        (
            "{\"bindings\":[{\"type\":\"queue\"},{}]}",
            "no bindings.1.type",
        ),
        (
            "{\"bindings\":[{\"type\":\"httpTrigger\"}]}",
            "bindings.0.type",
        ),
        (
            "{\"bindings\":[{\"type\":\"timerTrigger\"},{\"type\":\"blobTrigger\"}]}",
            "triggers 2",
        ),
    ];
    for (function, member) in functions {
        let refused = refused_member(alloc, HOST, "{}", function)?;
        assert_eq!(rt; refused.as_str(), member);
    }
    let timer =
        "{\"type\":\"timerTrigger\",\"direction\":\"in\",\"name\":\"timer\",\"schedule\":\"0 0 3 * * *\"}";
    let bindings = [
        ("{\"type\":\"timerTrigger\"}", "no bindings.0.direction"),
        (
            "{\"type\":\"timerTrigger\",\"direction\":\"out\"}",
            "bindings.0.direction",
        ),
        (
            "{\"type\":\"timerTrigger\",\"direction\":\"in\"}",
            "no bindings.0.name",
        ),
        (
            "{\"type\":\"timerTrigger\",\"direction\":\"in\",\"name\":\"$return\"}",
            "bindings.0.name",
        ),
        (
            "{\"type\":\"timerTrigger\",\"direction\":\"in\",\"name\":\"a\"}",
            "no bindings.0.schedule",
        ),
        (
            "{\"type\":\"timerTrigger\",\"direction\":\"in\",\"name\":\"a\",\"schedule\":\"* *\"}",
            "bindings.0.schedule",
        ),
        (
            "{\"type\":\"timerTrigger\",\"direction\":\"in\",\"name\":\"a\",\"schedule\":\"0 0 3 * * *\",\"useMonitor\":1,\"runOnStartup\":1}",
            "bindings.0.runOnStartup",
        ),
        (
            "{\"type\":\"blobTrigger\",\"direction\":\"in\",\"name\":\"a\",\"path\":\"inbox\"}",
            "bindings.0.path",
        ),
        (
            "{\"type\":\"blobTrigger\",\"direction\":\"in\",\"name\":\"a\",\"path\":\"inbox/{a}{a}\"}",
            "bindings.0.path",
        ),
        (
            "{\"type\":\"blobTrigger\",\"direction\":\"in\",\"name\":\"a\",\"path\":\"inbox/{a}\"}",
            "",
        ),
    ];
    for (binding, member) in bindings {
        let function = format!(in alloc; "{{\"bindings\":[{binding}]}}")?;
        let refused = refused_member(alloc, HOST, "{}", function.as_str())?;
        assert_eq!(rt; refused.as_str(), member);
    }
    let outputs = [
        (
            "{\"type\":\"queue\",\"direction\":\"out\",\"name\":\"timer\",\"queueName\":\"x\"}",
            "bindings.1.name",
        ),
        (
            "{\"type\":\"queue\",\"direction\":\"out\",\"name\":\"$return\"}",
            "no bindings.1.queueName",
        ),
        (
            "{\"type\":\"queue\",\"direction\":\"out\",\"name\":\"$return\",\"queueName\":\"x{\"}",
            "bindings.1.queueName",
        ),
        (
            "{\"type\":\"blob\",\"direction\":\"out\",\"name\":\"copy\",\"path\":null}",
            "bindings.1.path",
        ),
        (
            "{\"type\":\"blob\",\"direction\":\"out\",\"name\":\"copy\",\"path\":\"x/{name}\"}",
            "",
        ),
    ];
    for (output, member) in outputs {
        let function = format!(in alloc; "{{\"bindings\":[{timer},{output}]}}")?;
        let refused = refused_member(alloc, HOST, "{}", function.as_str())?;
        assert_eq!(rt; refused.as_str(), member);
    }
    Ok(())
}

// The app of the worked example, without the plan of faults.
fn listed_files(alloc: Global) -> Result<Vec<(Text, Bytes)>, Fail> {
    let files = [
        ("host.json", HOST),
        (
            "Orders/function.json",
            "{\"bindings\":[{\"type\":\"queueTrigger\",\"direction\":\"in\",\"name\":\"order\",\"queueName\":\"orders\"}]}",
        ),
        (
            "OrdersPoison/function.json",
            "{\"bindings\":[{\"type\":\"queueTrigger\",\"direction\":\"in\",\"name\":\"order\",\"queueName\":\"orders-poison\"}]}",
        ),
        (
            "CleanUp/function.json",
            "{\"bindings\":[{\"type\":\"timerTrigger\",\"direction\":\"in\",\"name\":\"timer\",\"schedule\":\"0 0 3 * * *\"}]}",
        ),
        (
            "Archive/function.json",
            "{\"bindings\":[{\"type\":\"blobTrigger\",\"direction\":\"in\",\"name\":\"item\",\"path\":\"inbox/{name}.{ext}\"},{\"type\":\"blob\",\"direction\":\"out\",\"name\":\"copy\",\"path\":\"outbox/{name}.txt\"},{\"type\":\"queue\",\"direction\":\"out\",\"name\":\"$return\",\"queueName\":\"done\"}]}",
        ),
        ("Archive/notes.txt", "not read"),
        ("docs/readme", "no function"),
    ];
    let mut listed = Vec::new(alloc);
    for (path, content) in files {
        listed.push((text(alloc, path)?, bytes(alloc, content)?))?;
    }
    Ok(listed)
}

fn words(alloc: Global, words: &[&str]) -> Result<Vec<String>, Fail> {
    let mut owned = Vec::new(alloc);
    for word in words {
        owned.push(String::from_str(alloc, *word)?)?;
    }
    Ok(owned)
}

#[test]
fn an_app_is_listed_by_name_and_faults_end_with_their_status(rt: HostRuntime) -> Result<(), Fail> {
    let alloc = rt.alloc();
    let listing =
        "Archive blob inbox\nCleanUp timer\nOrders queue orders\nOrdersPoison queue orders-poison\n";
    let check_words = words(alloc, &["check", "app"])?;
    let cases = [(0, 0, 0, listing), (3, 0, 5, "read fault\n"), (0, 1, 7, "")];
    for (folder_call, sink_call, code, written) in cases {
        let mut folder = MemoryFolder {
            files: listed_files(alloc)?,
            plan: plan(alloc, &[folder_call])?,
        };
        let mut sink = MemorySink::new(alloc, plan(alloc, &[sink_call])?);
        let status = check(alloc, &check_words, &mut folder, &mut sink);
        assert_eq!(rt; status.code, code);
        assert_eq!(rt; sink.bytes.as_slice(), written.as_bytes());
    }
    let mut folder = MemoryFolder {
        files: Vec::new(alloc),
        plan: plan(alloc, &[])?,
    };
    folder.files.push((
        text(alloc, "host.json")?,
        bytes(alloc, "{\"version\":\"2.0\"}")?,
    ))?;
    let mut sink = MemorySink::new(alloc, plan(alloc, &[])?);
    let status = check(alloc, &check_words, &mut folder, &mut sink);
    assert_eq!(rt; status.code, 3);
    assert_eq!(rt;
        sink.bytes.as_slice(),
        b"app Missing host.json\n".as_slice()
    );
    let few_words = words(alloc, &["check"])?;
    let mut sink = MemorySink::new(alloc, plan(alloc, &[])?);
    assert_eq!(rt; check(alloc, &few_words, &mut folder, &mut sink).code, 2);
    Ok(())
}

#[test]
fn a_folder_of_the_host_is_loaded(rt: HostRuntime) -> Result<(), Fail> {
    let alloc = rt.alloc();
    let id = process::id(rt.process());
    let path = format!(in alloc; "/tmp/fh_app_{id}")?;
    fs::create_dir(&rt, path.as_str())?;
    for name in ["b", "a"] {
        let folder = format!(in alloc; "{}/{name}", path.as_str())?;
        fs::create_dir(&rt, folder.as_str())?;
        let file = format!(in alloc; "{}/function.json", folder.as_str())?;
        fs::write(&rt, file.as_str(), "{}")?;
    }
    let mut folder = PathFolder::new(rt, path.clone()?);
    let loaded = AppFiles::load(alloc, &mut folder);
    fs::remove_dir_all(&rt, path.as_str())?;
    let Ok(files) = loaded else {
        assert!(rt; false, "the folder isn't loaded");
        return Ok(());
    };
    assert!(rt; files.host.is_none());
    assert_eq!(rt; files.functions.as_slice().len(), 2);
    assert_eq!(rt; files.functions.as_slice()[0].0.as_str(), "a");
    Ok(())
}
