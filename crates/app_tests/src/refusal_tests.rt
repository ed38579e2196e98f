//! Refusals and faults of `audit`, by the bytes of the output and of the error output.
use crate::applications::applications_hold;
use std::test::Fail;

#[test]
fn a_construct_is_refused_by_its_name_or_skipped(rt: HostRuntime) -> Result<(), Fail> {
    applications_hold(&rt, rt.alloc(), CONSTRUCTS)
}

const CONSTRUCTS: &str = r#"
application
file package-lock.json {"lockfileVersion":3,"packages":{"":{"name":"app","version":"1.0.0"}}}
file adv.json {"advisories":[]}
file index.js eval("x");
run 2 audit adv.json
    jam: index.js:1:1: eval
file index.js (0, eval)("x");
run 0 audit adv.json
    modules 1, functions 1, reachable 1, edges 0, alarms 0, notes 0
file index.js with (a) b();
run 2 audit adv.json
    jam: index.js:1:1: with
file index.js import x from "y";
run 2 audit adv.json
    jam: index.js:1:1: import
run 0 audit --skip-refused adv.json
    note index.js:1:1 skipped: not in the profile
    modules 1, functions 1, reachable 1, edges 0, alarms 0, notes 1
"#;

#[test]
fn a_lockfile_is_refused_for_what_is_wrong_with_it(rt: HostRuntime) -> Result<(), Fail> {
    applications_hold(&rt, rt.alloc(), LOCKFILES)
}

const LOCKFILES: &str = r#"
application
file adv.json {"advisories":[]}
file index.js
file package-lock.json [
run 2 audit adv.json
    jam: package-lock.json: not JSON
file package-lock.json {"lockfileVersion":3}
run 2 audit adv.json
    jam: package-lock.json: wrong shape at packages
file package-lock.json {"lockfileVersion":1,"dependencies":{}}
run 2 audit adv.json
    jam: package-lock.json: lockfileVersion 1
# The lockfile comes before the advisories.
file package-lock.json 3
file adv.json [
run 2 audit adv.json
    jam: package-lock.json: wrong shape at 
application
file adv.json [
file index.js
run 2 audit adv.json
    jam: no lockfile
# A shrinkwrap file comes first.
application
file npm-shrinkwrap.json [
file package-lock.json {"lockfileVersion":3,"packages":{"":{"name":"app","version":"1.0.0"}}}
run 2 audit adv.json
    jam: npm-shrinkwrap.json: not JSON
application
file npm-shrinkwrap.json {"lockfileVersion":3,"packages":{
    "":{"name":"app","version":"1.0.0"},
    "node_modules/a":{"version":"1.1.0"}}}
file package-lock.json [
file adv.json {"advisories":[
    {"id":"X-1","package":"a","range":"<1.2.0","functions":[{"file":"index.js","name":"slow"}]}]}
file index.js
    var a = require("a");
    a.go();
file node_modules/a/index.js
    function slow(x) { return x; }
    exports.go = function (x) { return slow(x); };
run 1 audit adv.json
    alarm X-1 a 1.1.0 node_modules/a/index.js:1:1 slow
      index.js:2:5 -> node_modules/a/index.js:2:14 go
      node_modules/a/index.js:2:40 -> node_modules/a/index.js:1:1 slow
    modules 2, functions 4, reachable 4, edges 3, alarms 1, notes 0
"#;

#[test]
fn advisories_are_refused_for_what_is_wrong_with_them(rt: HostRuntime) -> Result<(), Fail> {
    applications_hold(&rt, rt.alloc(), ADVISORIES)
}

const ADVISORIES: &str = r#"
application
file package-lock.json {"lockfileVersion":3,"packages":{"":{"name":"app","version":"1.0.0"}}}
# The advisories come before the entry.
file index.js )
file adv.json {"advisories":[]}
run 2 audit none.json
    jam: no advisory file
run 2 audit ../adv.json
    jam: no advisory file
file adv.json [
run 2 audit adv.json
    jam: advisories: not JSON
file adv.json {}
run 2 audit adv.json
    jam: advisories: wrong shape
file adv.json {"advisories":[{}]}
run 2 audit adv.json
    jam: advisory 0: id
file adv.json {"advisories":[
    {"id":"A","package":"a","range":"*","functions":[]},
    {"id":"B","package":"b","range":"^1.0.0","functions":[]}]}
run 2 audit adv.json
    jam: advisory 1: range at 0
"#;

#[test]
fn an_entry_is_refused_after_the_other_files(rt: HostRuntime) -> Result<(), Fail> {
    applications_hold(&rt, rt.alloc(), ENTRIES)
}

const ENTRIES: &str = r#"
application
file package-lock.json {"lockfileVersion":3,"packages":{"":{"name":"app","version":"1.0.0"}}}
file adv.json {"advisories":[]}
file other.js )
run 2 audit adv.json
    jam: no entry
file index.js )
run 2 audit --entry lib adv.json
    jam: no entry
run 2 audit --entry package-lock.json adv.json
    jam: no entry
run 2 audit adv.json
    jam: index.js:1:1: not in the profile
"#;

#[test]
fn each_call_and_each_byte_may_fail(rt: HostRuntime) -> Result<(), Fail> {
    applications_hold(&rt, rt.alloc(), FAULTS)
}

const FAULTS: &str = r#"
application
file package-lock.json {"lockfileVersion":3,"packages":{
    "":{"name":"app","version":"1.0.0"},
    "node_modules/a":{"version":"1.1.0"}}}
file adv.json {"advisories":[
    {"id":"X-1","package":"a","range":"<1.2.0","functions":[{"file":"index.js","name":"slow"}]}]}
file index.js
    var a = require("a");
    a.go();
file node_modules/a/index.js
    function slow(x) { return x; }
    exports.go = function (x) { return slow(x); };
calls 15 1 audit adv.json
    alarm X-1 a 1.1.0 node_modules/a/index.js:1:1 slow
      index.js:2:5 -> node_modules/a/index.js:2:14 go
      node_modules/a/index.js:2:40 -> node_modules/a/index.js:1:1 slow
    modules 2, functions 4, reachable 4, edges 3, alarms 1, notes 0
bytes audit adv.json
    alarm X-1 a 1.1.0 node_modules/a/index.js:1:1 slow
      index.js:2:5 -> node_modules/a/index.js:2:14 go
      node_modules/a/index.js:2:40 -> node_modules/a/index.js:1:1 slow
    modules 2, functions 4, reachable 4, edges 3, alarms 1, notes 0
"#;
