use super::*;
use fh_base::{NoMemory, Text};
use serde_json::Value;
use std::alloc::{AllocError, Global};
use std::test::Fail;

fn pairs_of(alloc: Global, entries: &[(&str, &str)]) -> Result<Pairs, NoMemory> {
    let mut pairs = Vec::new(alloc);
    for entry in entries {
        let name = Text::from_str(alloc, entry.0)?;
        let text = Text::from_str(alloc, entry.1)?;
        pairs.push((name, text))?;
    }
    Ok(Pairs::from_vec(pairs))
}

fn settings_of(alloc: Global) -> Result<Settings, NoMemory> {
    let entries = [
        ("queue", "orders"),
        ("inner", "%queue%"),
        ("brace", "{Id}"),
        ("left", "{"),
        ("empty", ""),
        ("queue", "second"),
        ("é", "accent"),
    ];
    let pairs = pairs_of(alloc, &entries)?;
    Ok(Settings { pairs })
}

const MESSAGE: &str =
    "{\"Id\":\"hidden\",\"name\":\"Ann\",\"n\":42,\"neg\":-5,\"yes\":true,\"no\":false,\"nil\":null,\
    \"f\":1.5,\"e\":1e2,\"z\":-0,\"big\":18446744073709551615,\"huge\":18446744073709551616,\"list\":[1],\
    \"low\":-9223372036854775808,\"o\":{\"p\":{\"q\":\"deep\"},\"\":\"dot\"},\"\":\"blank\",\"a.b\":\"x\",\"text\":\"{n}\"}";

fn values_of(alloc: Global, message: &str) -> Result<Values, NoMemory> {
    let entries = [
        ("rand-guid", "G"),
        ("sys.RandGuid", "G"),
        ("DateTime", "D"),
        ("sys.MethodName", "M"),
        ("Id", "7"),
        ("Id", "8"),
    ];
    let known = pairs_of(alloc, &entries)?;
    let message = Value::from_str(alloc, message).ok();
    Ok(Values { known, message })
}

fn fault_text(alloc: Global, fault: &ExprFault) -> Result<String, AllocError> {
    match fault {
        ExprFault::OpenBrace { at } => format!(in alloc; "OpenBrace {at}"),
        ExprFault::NoSetting { name } => format!(in alloc; "NoSetting {}", name.as_str()),
        ExprFault::NoValue { name } => format!(in alloc; "NoValue {}", name.as_str()),
        ExprFault::NotText { name } => format!(in alloc; "NotText {}", name.as_str()),
        ExprFault::SameName { name } => format!(in alloc; "SameName {}", name.as_str()),
        ExprFault::NoMemory => format!(in alloc; "NoMemory"),
    }
}

// The text that a template resolves to, or the fault of reading or resolving it.
fn resolved_text(
    alloc: Global,
    text: &str,
    settings: &Settings,
    values: &Values,
) -> Result<String, AllocError> {
    let template = match Template::read(alloc, text, settings) {
        Ok(template) => template,
        Err(fault) => return fault_text(alloc, &fault),
    };
    match template.resolve(alloc, values) {
        Ok(text) => Ok(text),
        Err(fault) => fault_text(alloc, &fault),
    }
}

// The names with their texts, `none`, or the fault of reading the pattern.
fn matched_text(
    alloc: Global,
    text: &str,
    settings: &Settings,
    name: &str,
) -> Result<String, AllocError> {
    match Pattern::read(alloc, text, settings) {
        Ok(pattern) => found_text(alloc, &pattern, name),
        Err(fault) => fault_text(alloc, &fault),
    }
}

// The names with their texts, or `none`.
fn found_text(alloc: Global, pattern: &Pattern, name: &str) -> Result<String, AllocError> {
    let Ok(found) = pattern.matches(alloc, name) else {
        return format!(in alloc; "NoMemory");
    };
    let Some(pairs) = found else {
        return format!(in alloc; "none");
    };
    let mut shown = String::new(alloc);
    for pair in &pairs {
        shown.push_str(pair.0.as_str())?;
        shown.push_str("=")?;
        shown.push_str(pair.1.as_str())?;
        shown.push_str(";")?;
    }
    Ok(shown)
}

static RESOLVED: [(&str, &str); 30] = [
    ("", ""),
    ("plain", "plain"),
    ("{Id}", "7"),
    ("a{Id}b", "a7b"),
    ("{{Id}}", "{Id}"),
    ("{{{Id}}}", "{7}"),
    ("{{}}", "{}"),
    ("{Id}}}", "7}"),
    ("é{Id}é", "é7é"),
    ("%queue%", "orders"),
    ("%inner%", "%queue%"),
    ("%brace%", "7"),
    ("%empty%x", "x"),
    ("%é%", "accent"),
    ("100%", "100%"),
    ("100%%", "100%%"),
    ("%%queue%", "%%queue%"),
    ("%%%queue%", "%%orders"),
    ("a%b", "a%b"),
    ("%queue%queue%", "ordersqueue%"),
    ("{name}", "Ann"),
    ("{n}", "42"),
    ("{neg}", "-5"),
    ("{low}", "-9223372036854775808"),
    ("{big}", "18446744073709551615"),
    ("{yes}{no}", "truefalse"),
    ("{o.p.q}", "deep"),
    ("{o.}", "dot"),
    ("{text}", "{n}"),
    (
        "{rand-guid} {sys.RandGuid} {DateTime} {sys.MethodName}",
        "G G D M",
    ),
];

#[test]
fn templates_resolve(rt: HostRuntime) -> Result<(), Fail> {
    let alloc = rt.alloc();
    let settings = settings_of(alloc)?;
    let values = values_of(alloc, MESSAGE)?;
    for row in &RESOLVED {
        let shown = resolved_text(alloc, row.0, &settings, &values)?;
        assert_eq!(rt; shown.as_str(), row.1, "of {}", row.0);
    }
    Ok(())
}

static FAULTY_TEMPLATES: [(&str, &str); 28] = [
    ("x{", "OpenBrace 1"),
    ("x}", "OpenBrace 1"),
    ("{}", "OpenBrace 0"),
    ("{Id", "OpenBrace 0"),
    ("{a{Id}", "OpenBrace 0"),
    ("{Id}}", "OpenBrace 4"),
    ("}}{", "OpenBrace 2"),
    ("é{", "OpenBrace 2"),
    ("{Id}{}{", "OpenBrace 4"),
    ("%left%", "OpenBrace 0"),
    ("%queue%{", "OpenBrace 6"),
    ("{%empty%}", "OpenBrace 0"),
    ("%nope%", "NoSetting nope"),
    ("%queue%-%nope%-%other%-{", "NoSetting nope"),
    ("{%nope%", "NoSetting nope"),
    ("{id}", "NoValue id"),
    ("{ Id }", "NoValue  Id "),
    ("{o.p.x}", "NoValue o.p.x"),
    ("{.}", "NoValue ."),
    ("{a.b}", "NoValue a.b"),
    ("{missing}{nil}", "NoValue missing"),
    ("{nil}{missing}", "NotText nil"),
    ("{f}", "NotText f"),
    ("{e}", "NotText e"),
    ("{z}", "NotText z"),
    ("{huge}", "NotText huge"),
    ("{list}", "NotText list"),
    ("{o}", "NotText o"),
];

#[test]
fn templates_have_one_first_fault(rt: HostRuntime) -> Result<(), Fail> {
    let alloc = rt.alloc();
    let settings = settings_of(alloc)?;
    let values = values_of(alloc, MESSAGE)?;
    for row in &FAULTY_TEMPLATES {
        let shown = resolved_text(alloc, row.0, &settings, &values)?;
        assert_eq!(rt; shown.as_str(), row.1, "of {}", row.0);
    }
    Ok(())
}

static MESSAGES: [(&str, &str); 4] = [
    ("[1]", "NoValue name"),
    ("\"name\"", "NoValue name"),
    ("no json", "NoValue name"),
    ("{\"name\":\"a\",\"name\":\"b\"}", "b"),
];

#[test]
fn a_message_that_is_no_object_has_no_members(rt: HostRuntime) -> Result<(), Fail> {
    let alloc = rt.alloc();
    let settings = settings_of(alloc)?;
    for row in &MESSAGES {
        let values = values_of(alloc, row.0)?;
        let shown = resolved_text(alloc, "{name}", &settings, &values)?;
        assert_eq!(rt; shown.as_str(), row.1, "of {}", row.0);
    }
    Ok(())
}

static MATCHED: [(&str, &str, &str); 38] = [
    ("{name}.{ext}", "a.b.txt", "name=a.b;ext=txt;"),
    ("{name}.{ext}", "abc", "none"),
    ("{name}.{ext}", "a.", "none"),
    ("{name}.{ext}", ".a", "none"),
    ("", "", ""),
    ("", "a", "none"),
    ("abc", "abc", ""),
    ("abc", "abd", "none"),
    ("abc", "abcd", "none"),
    ("{name}", "x", "name=x;"),
    ("{name}", "", "none"),
    ("{a}{b}", "xyz", "a=xy;b=z;"),
    ("{a}{b}", "x", "none"),
    ("{a}{b}{c}", "wxyz", "a=wx;b=y;c=z;"),
    ("{a}-{b}", "x-y-z", "a=x-y;b=z;"),
    ("{a}-{b}", "-y", "none"),
    ("{a}-{b}", "x-", "none"),
    ("{a}-{b}", "x--", "a=x;b=-;"),
    ("{a}-{b}", "--y", "a=-;b=y;"),
    ("{a}-{b}", "---", "a=-;b=-;"),
    ("in/{name}", "in/x/y", "name=x/y;"),
    ("in/{name}", "out/x", "none"),
    ("in/{name}", "in/", "none"),
    ("{name}.txt", "a.txt.txt", "name=a.txt;"),
    ("{name}.txt", ".txt", "none"),
    ("a{x}", "aab", "x=ab;"),
    ("{x}a", "aaa", "x=aa;"),
    ("a{x}a", "aa", "none"),
    ("a{x}a", "aaa", "x=a;"),
    ("{x}ab{y}", "abababc", "x=abab;y=c;"),
    ("{x}ab{y}ab{z}", "abababababc", "x=abab;y=ab;z=c;"),
    ("{a}{b}", "é", "none"),
    ("{a}{b}", "éx", "a=é;b=x;"),
    ("{a}{b}", "éé", "a=é;b=é;"),
    ("{a}é{b}", "xéyéz", "a=xéy;b=z;"),
    ("{{{a}}}", "{x}", "a=x;"),
    ("{{a}}", "{a}", ""),
    ("%queue%/{name}", "orders/7", "name=7;"),
];

#[test]
fn patterns_take_the_greatest_reading(rt: HostRuntime) -> Result<(), Fail> {
    let alloc = rt.alloc();
    let settings = settings_of(alloc)?;
    for row in &MATCHED {
        let shown = matched_text(alloc, row.0, &settings, row.1)?;
        assert_eq!(rt; shown.as_str(), row.2, "of {} at {}", row.0, row.1);
    }
    Ok(())
}

static NAMED: [(&str, &str); 16] = [
    ("{blobTrigger}", "blobTrigger=xy;"),
    ("{a}{A}", "a=x;A=y;"),
    ("{a_1}", "a_1=xy;"),
    ("{a}{a}", "SameName a"),
    ("{a}{b}{a}{b}", "SameName a"),
    ("{sys}", "SameName sys"),
    ("{BlobTrigger}", "SameName BlobTrigger"),
    ("{a}{a}{", "SameName a"),
    ("{a-b}", "OpenBrace 0"),
    ("x{a b}", "OpenBrace 1"),
    ("{a.b}", "OpenBrace 0"),
    ("{é}", "OpenBrace 0"),
    ("{a}{}{a}", "OpenBrace 3"),
    ("{a}{", "OpenBrace 3"),
    ("}", "OpenBrace 0"),
    ("{a-b}%nope%", "NoSetting nope"),
];

#[test]
fn patterns_name_each_text_once(rt: HostRuntime) -> Result<(), Fail> {
    let alloc = rt.alloc();
    let settings = settings_of(alloc)?;
    for row in &NAMED {
        let shown = matched_text(alloc, row.0, &settings, "xy")?;
        assert_eq!(rt; shown.as_str(), row.1, "of {}", row.0);
    }
    Ok(())
}

static PATHS: [(&str, &str, &str); 3] = [
    ("%queue%/{name}", "7", "name=7;"),
    ("in/%queue%-{name}", "orders-7", "name=7;"),
    ("in/%inner%/{name}", "%queue%/7", "name=7;"),
];

// The path is replaced whole and cut at its first slash, and the rest is the pattern.
#[test]
fn a_replaced_path_is_not_replaced_again(rt: HostRuntime) -> Result<(), Fail> {
    let alloc = rt.alloc();
    let settings = settings_of(alloc)?;
    for row in &PATHS {
        let path = settings.replace(alloc, row.0)?;
        let (_, text) = path.as_str().split_once('/').ok_or("no slash")?;
        let pattern = Pattern::read_replaced(alloc, text)?;
        let shown = found_text(alloc, &pattern, row.1)?;
        assert_eq!(rt; shown.as_str(), row.2, "of {} at {}", row.0, row.1);
    }
    Ok(())
}

#[test]
fn a_long_name_is_read_in_time(rt: HostRuntime) -> Result<(), Fail> {
    let alloc = rt.alloc();
    let settings = settings_of(alloc)?;
    let mut name = String::new(alloc);
    for _ in 0..20000 {
        name.push_str("x")?;
    }
    let text = "{a}x{b}x{c}x{d}x{e}x{f}x{g}x{h}xy";
    let shown = matched_text(alloc, text, &settings, name.as_str())?;
    assert_eq!(rt; shown.as_str(), "none");
    let shown = matched_text(alloc, "{a}x{b}xx{c}", &settings, name.as_str())?;
    assert_eq!(rt; shown.len(), 20000 - 3 + 9);
    Ok(())
}

#[test]
fn the_first_of_two_names_takes_the_longest_text(rt: HostRuntime) -> Result<(), Fail> {
    let alloc = rt.alloc();
    let settings = settings_of(alloc)?;
    let pattern = "{name}.{ext}";
    let shown = matched_text(alloc, pattern, &settings, "a.b.txt")?;
    assert_eq!(rt; shown.as_str(), "name=a.b;ext=txt;");
    let shown = matched_text(alloc, pattern, &settings, "abc")?;
    assert_eq!(rt; shown.as_str(), "none");
    Ok(())
}

#[test]
fn an_open_brace_and_a_missing_setting_are_faults(rt: HostRuntime) -> Result<(), Fail> {
    let alloc = rt.alloc();
    let settings = settings_of(alloc)?;
    let values = values_of(alloc, "{}")?;
    let shown = resolved_text(alloc, "x{", &settings, &values)?;
    assert_eq!(rt; shown.as_str(), "OpenBrace 1");
    let shown = resolved_text(alloc, "%nope%", &settings, &values)?;
    assert_eq!(rt; shown.as_str(), "NoSetting nope");
    Ok(())
}
