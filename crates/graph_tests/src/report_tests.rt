//! Whole reports, in both formats.
use crate::example_reports::{
    alarm, counts, function, go_alarm, note, report_with, shop_report, slow_report,
};
use report_text::{Report, json, text};
use serde_json::Value;
use std::alloc::Global;
use std::process::Abort;
use std::test::Fail;

#[test]
fn a_report_of_nothing_has_its_counts(rt: HostRuntime) -> Result<(), Fail> {
    let alloc = rt.alloc();
    let report = report_with(Vec::new(alloc), Vec::new(alloc), counts(1, 1, 1, 0, 0, 0));
    prints(
        &rt,
        alloc,
        &report,
        "modules 1, functions 1, reachable 1, edges 0, alarms 0, notes 0\n",
    )?;
    prints_json(
        &rt,
        alloc,
        &report,
        "{\"alarms\":[],\"notes\":[],\"summary\":{\"alarms\":0,\"edges\":0,\"functions\":1,\
         \"modules\":1,\"notes\":0,\"reachable\":1}}\n",
    )
}

#[test]
fn an_alarm_has_its_path_behind_it(rt: HostRuntime) -> Result<(), Fail> {
    let alloc = rt.alloc();
    let report = slow_report(alloc, 3)?;
    prints(
        &rt,
        alloc,
        &report,
        "alarm X-1 a 1.1.0 node_modules/a/index.js:1:1 slow\n  \
         index.js:2:5 -> node_modules/a/index.js:2:14 go\n  \
         node_modules/a/index.js:2:40 -> node_modules/a/index.js:1:1 slow\n\
         modules 2, functions 4, reachable 4, edges 3, alarms 1, notes 0\n",
    )?;
    prints_json(
        &rt,
        alloc,
        &report,
        "{\"alarms\":[{\"function\":{\"column\":1,\"line\":1,\"name\":\"slow\",\
         \"path\":\"node_modules/a/index.js\"},\"id\":\"X-1\",\"package\":\"a\",\
         \"path\":[{\"callee\":{\"column\":14,\"line\":2,\"name\":\"go\",\
         \"path\":\"node_modules/a/index.js\"},\"column\":5,\"line\":2,\"path\":\"index.js\"},\
         {\"callee\":{\"column\":1,\"line\":1,\"name\":\"slow\",\
         \"path\":\"node_modules/a/index.js\"},\"column\":40,\"line\":2,\
         \"path\":\"node_modules/a/index.js\"}],\"version\":\"1.1.0\"}],\"notes\":[],\
         \"summary\":{\"alarms\":1,\"edges\":3,\"functions\":4,\"modules\":2,\"notes\":0,\
         \"reachable\":4}}\n",
    )
}

// A second call of the same function is one edge more, and the path stays.
#[test]
fn an_edge_more_changes_the_counts_alone(rt: HostRuntime) -> Result<(), Fail> {
    let alloc = rt.alloc();
    let report = slow_report(alloc, 4)?;
    prints(
        &rt,
        alloc,
        &report,
        "alarm X-1 a 1.1.0 node_modules/a/index.js:1:1 slow\n  \
         index.js:2:5 -> node_modules/a/index.js:2:14 go\n  \
         node_modules/a/index.js:2:40 -> node_modules/a/index.js:1:1 slow\n\
         modules 2, functions 4, reachable 4, edges 4, alarms 1, notes 0\n",
    )
}

#[test]
fn an_alarm_in_the_entry_has_no_path_lines(rt: HostRuntime) -> Result<(), Fail> {
    let alloc = rt.alloc();
    let mut alarms = Vec::new(alloc);
    let body = function(alloc, "index.js", 1, 1, "<module>")?;
    alarms.push(alarm(alloc, "X-2", "app", "1.0.0", body, Vec::new(alloc))?)?;
    let report = report_with(alarms, Vec::new(alloc), counts(1, 1, 1, 0, 1, 0));
    prints(
        &rt,
        alloc,
        &report,
        "alarm X-2 app 1.0.0 index.js:1:1 <module>\n\
         modules 1, functions 1, reachable 1, edges 0, alarms 1, notes 0\n",
    )?;
    prints_json(
        &rt,
        alloc,
        &report,
        "{\"alarms\":[{\"function\":{\"column\":1,\"line\":1,\"name\":\"<module>\",\
         \"path\":\"index.js\"},\"id\":\"X-2\",\"package\":\"app\",\"path\":[],\
         \"version\":\"1.0.0\"}],\"notes\":[],\"summary\":{\"alarms\":1,\"edges\":0,\
         \"functions\":1,\"modules\":1,\"notes\":0,\"reachable\":1}}\n",
    )
}

#[test]
fn a_note_has_its_place(rt: HostRuntime) -> Result<(), Fail> {
    let alloc = rt.alloc();
    let mut notes = Vec::new(alloc);
    notes.push(note(alloc, "index.js", Some((1, 23)), "dynamic require")?)?;
    notes.push(note(alloc, "index.js", Some((2, 8)), "not found: ./absent")?)?;
    let report = report_with(Vec::new(alloc), notes, counts(1, 1, 1, 0, 0, 2));
    prints(
        &rt,
        alloc,
        &report,
        "note index.js:1:23 dynamic require\nnote index.js:2:8 not found: ./absent\n\
         modules 1, functions 1, reachable 1, edges 0, alarms 0, notes 2\n",
    )?;
    let mut skipped = Vec::new(alloc);
    skipped.push(note(
        alloc,
        "index.js",
        Some((1, 1)),
        "skipped: not in the profile",
    )?)?;
    let report = report_with(Vec::new(alloc), skipped, counts(1, 1, 1, 0, 0, 1));
    prints(
        &rt,
        alloc,
        &report,
        "note index.js:1:1 skipped: not in the profile\n\
         modules 1, functions 1, reachable 1, edges 0, alarms 0, notes 1\n",
    )
}

#[test]
fn a_note_without_a_place_has_its_location(rt: HostRuntime) -> Result<(), Fail> {
    let alloc = rt.alloc();
    let mut notes = Vec::new(alloc);
    notes.push(note(alloc, "index.js", Some((1, 1)), "not in the lockfile")?)?;
    notes.push(note(alloc, "node_modules/a", None, "no version")?)?;
    notes.push(note(alloc, "", None, "no version")?)?;
    let report = report_with(Vec::new(alloc), notes, counts(1, 1, 1, 0, 0, 3));
    prints(
        &rt,
        alloc,
        &report,
        "note index.js:1:1 not in the lockfile\nnote node_modules/a no version\n\
         note  no version\n\
         modules 1, functions 1, reachable 1, edges 0, alarms 0, notes 3\n",
    )?;
    prints_json(
        &rt,
        alloc,
        &report,
        "{\"alarms\":[],\"notes\":[{\"column\":1,\"line\":1,\"path\":\"index.js\",\
         \"text\":\"not in the lockfile\"},{\"column\":null,\"line\":null,\
         \"path\":\"node_modules/a\",\"text\":\"no version\"},{\"column\":null,\"line\":null,\
         \"path\":\"\",\"text\":\"no version\"}],\"summary\":{\"alarms\":0,\"edges\":0,\
         \"functions\":1,\"modules\":1,\"notes\":3,\"reachable\":1}}\n",
    )
}

#[test]
fn two_alarms_may_share_a_path(rt: HostRuntime) -> Result<(), Fail> {
    let alloc = rt.alloc();
    let mut alarms = Vec::new(alloc);
    alarms.push(go_alarm(alloc, "X-1")?)?;
    alarms.push(go_alarm(alloc, "X-2")?)?;
    let report = report_with(alarms, Vec::new(alloc), counts(3, 5, 5, 6, 2, 0));
    prints(
        &rt,
        alloc,
        &report,
        "alarm X-1 a 1.0.0 node_modules/a/index.js:1:14 go\n  \
         index.js:1:16 -> node_modules/a/index.js:1:14 go\n\
         alarm X-2 a 1.0.0 node_modules/a/index.js:1:14 go\n  \
         index.js:1:16 -> node_modules/a/index.js:1:14 go\n\
         modules 3, functions 5, reachable 5, edges 6, alarms 2, notes 0\n",
    )
}

#[test]
fn alarms_come_before_notes(rt: HostRuntime) -> Result<(), Fail> {
    let alloc = rt.alloc();
    let report = shop_report(alloc)?;
    prints(
        &rt,
        alloc,
        &report,
        "alarm A-1 deep 1.0.5 node_modules/deep/lib/deep.js:5:3 copy\n  \
         lib/server.js:7:33 -> lib/server.js:7:34 <anonymous>\n  \
         lib/server.js:9:13 -> node_modules/store/index.js:4:3 Store\n  \
         node_modules/store/index.js:4:33 -> node_modules/deep/lib/deep.js:5:3 copy\n\
         alarm A-2 deep 2.0.1 node_modules/@acme/query/node_modules/deep/index.js:1:1 <module>\n  \
         lib/server.js:3:26 -> node_modules/@acme/query/dist/q.js:1:1 <module>\n  \
         node_modules/@acme/query/dist/q.js:3:23 -> \
         node_modules/@acme/query/node_modules/deep/index.js:1:1 <module>\n\
         alarm A-2 deep 2.0.1 node_modules/@acme/query/node_modules/deep/index.js:1:17 merge\n  \
         lib/server.js:7:33 -> lib/server.js:7:34 <anonymous>\n  \
         lib/server.js:8:18 -> node_modules/@acme/query/dist/q.js:4:1 parse\n  \
         node_modules/@acme/query/dist/q.js:4:43 -> \
         node_modules/@acme/query/node_modules/deep/index.js:1:17 merge\n\
         note lib/server.js:6:21 not found: fast-path\n\
         modules 5, functions 16, reachable 16, edges 16, alarms 3, notes 1\n",
    )
}

#[test]
fn texts_are_escaped_in_each_format_by_its_own_rules(rt: HostRuntime) -> Result<(), Fail> {
    let alloc = rt.alloc();
    let mut alarms = Vec::new(alloc);
    let name = "\"\u{2028}\u{1f600}\\";
    let named = function(alloc, "a\nb.js", 1, 2, name)?;
    alarms.push(alarm(alloc, "I\u{7f}", "p\t", "1\u{0}", named, Vec::new(alloc))?)?;
    let mut notes = Vec::new(alloc);
    notes.push(note(alloc, "\u{e9}\r", None, "not found: \u{1b}\u{80}/")?)?;
    let report = report_with(alarms, notes, counts(1, 1, 1, 0, 1, 1));
    prints(
        &rt,
        alloc,
        &report,
        "alarm I\\u007f p\\u0009 1\\u0000 a\\u000ab.js:1:2 \"\u{2028}\u{1f600}\\u005c\n\
         note \u{e9}\\u000d not found: \\u001b\u{80}/\n\
         modules 1, functions 1, reachable 1, edges 0, alarms 1, notes 1\n",
    )?;
    prints_json(
        &rt,
        alloc,
        &report,
        "{\"alarms\":[{\"function\":{\"column\":2,\"line\":1,\
         \"name\":\"\\\"\u{2028}\u{1f600}\\\\\",\"path\":\"a\\nb.js\"},\"id\":\"I\u{7f}\",\
         \"package\":\"p\\t\",\"path\":[],\"version\":\"1\\u0000\"}],\
         \"notes\":[{\"column\":null,\"line\":null,\"path\":\"\u{e9}\\r\",\
         \"text\":\"not found: \\u001b\u{80}/\"}],\"summary\":{\"alarms\":1,\"edges\":0,\
         \"functions\":1,\"modules\":1,\"notes\":1,\"reachable\":1}}\n",
    )?;
    reads_back(&rt, alloc, &report, "/alarms/0/function/name", name)?;
    reads_back(&rt, alloc, &report, "/alarms/0/id", "I\u{7f}")?;
    reads_back(&rt, alloc, &report, "/alarms/0/version", "1\u{0}")?;
    reads_back(
        &rt,
        alloc,
        &report,
        "/notes/0/text",
        "not found: \u{1b}\u{80}/",
    )
}

#[test]
fn counts_have_all_their_digits(rt: HostRuntime) -> Result<(), Fail> {
    let alloc = rt.alloc();
    let most = u64::MAX;
    let report = report_with(
        Vec::new(alloc),
        Vec::new(alloc),
        counts(most, 10, 9, 0, 0, 0),
    );
    prints(
        &rt,
        alloc,
        &report,
        "modules 18446744073709551615, functions 10, reachable 9, edges 0, alarms 0, notes 0\n",
    )?;
    prints_json(
        &rt,
        alloc,
        &report,
        "{\"alarms\":[],\"notes\":[],\"summary\":{\"alarms\":0,\"edges\":0,\"functions\":10,\
         \"modules\":18446744073709551615,\"notes\":0,\"reachable\":9}}\n",
    )
}

fn prints(rt: &impl Abort, alloc: Global, report: &Report, want: &str) -> Result<(), Fail> {
    let made = text(alloc, report)?;
    assert_eq!(rt; made.as_str(), want);
    Ok(())
}

fn prints_json(rt: &impl Abort, alloc: Global, report: &Report, want: &str) -> Result<(), Fail> {
    let made = json(alloc, report)?;
    assert_eq!(rt; made.as_str(), want);
    Ok(())
}

// A reader of JSON finds this text there.
fn reads_back(
    rt: &impl Abort,
    alloc: Global,
    report: &Report,
    at: &str,
    want: &str,
) -> Result<(), Fail> {
    let made = json(alloc, report)?;
    let value = Value::from_str(alloc, made.as_str())?;
    let found = value.pointer(at).and_then(Value::as_str);
    assert_eq!(rt; found.ok_or("no text")?, want);
    Ok(())
}
