//! Reports over small applications, by the bytes of the output and of the error output.
use crate::applications::applications_hold;
use std::test::Fail;

#[test]
fn a_reachable_function_has_an_alarm_with_its_path(rt: HostRuntime) -> Result<(), Fail> {
    applications_hold(&rt, rt.alloc(), ALARMS)
}

const ALARMS: &str = r#"
application
file package-lock.json {"lockfileVersion":3,"packages":{
    "":{"name":"app","version":"1.0.0"},
    "node_modules/a":{"version":"1.1.0"}}}
file index.js
    var a = require("a");
    a.go();
file node_modules/a/index.js
    function slow(x) { return x; }
    exports.go = function (x) { return slow(x); };
file adv.json {"advisories":[
    {"id":"X-1","package":"a","range":"<1.2.0","functions":[{"file":"index.js","name":"slow"}]}]}
run 1 audit adv.json
    alarm X-1 a 1.1.0 node_modules/a/index.js:1:1 slow
      index.js:2:5 -> node_modules/a/index.js:2:14 go
      node_modules/a/index.js:2:40 -> node_modules/a/index.js:1:1 slow
    modules 2, functions 4, reachable 4, edges 3, alarms 1, notes 0
run 1 audit --entry ./index.js adv.json
    alarm X-1 a 1.1.0 node_modules/a/index.js:1:1 slow
      index.js:2:5 -> node_modules/a/index.js:2:14 go
      node_modules/a/index.js:2:40 -> node_modules/a/index.js:1:1 slow
    modules 2, functions 4, reachable 4, edges 3, alarms 1, notes 0
run 1 audit adv.json --format=text --entry=index
    alarm X-1 a 1.1.0 node_modules/a/index.js:1:1 slow
      index.js:2:5 -> node_modules/a/index.js:2:14 go
      node_modules/a/index.js:2:40 -> node_modules/a/index.js:1:1 slow
    modules 2, functions 4, reachable 4, edges 3, alarms 1, notes 0
run 1 audit --format json adv.json
    {"alarms":[{"function":{"column":1,"line":1,"name":"slow","path":"node_modules/a/index.js"},"id":"X-1","package":"a","path":[{"callee":{"column":14,"line":2,"name":"go","path":"node_modules/a/index.js"},"column":5,"line":2,"path":"index.js"},{"callee":{"column":1,"line":1,"name":"slow","path":"node_modules/a/index.js"},"column":40,"line":2,"path":"node_modules/a/index.js"}],"version":"1.1.0"}],"notes":[],"summary":{"alarms":1,"edges":3,"functions":4,"modules":2,"notes":0,"reachable":4}}
# Selectors name each function once.
file adv.json {"advisories":[
    {"id":"X-1","package":"a","range":"*","functions":[
    {"file":"index.js","name":"slow"},{"file":"*","name":"slow"},{"file":"other.js","name":"*"}]},
    {"id":"X-2","package":"a","range":">1.1.0","functions":[{"file":"*","name":"*"}]}]}
run 1 audit adv.json
    alarm X-1 a 1.1.0 node_modules/a/index.js:1:1 slow
      index.js:2:5 -> node_modules/a/index.js:2:14 go
      node_modules/a/index.js:2:40 -> node_modules/a/index.js:1:1 slow
    modules 2, functions 4, reachable 4, edges 3, alarms 1, notes 0
# One text in two packages has one alarm.
application
file package-lock.json {"lockfileVersion":3,"packages":{
    "node_modules/a":{"version":"1.0.0"},
    "node_modules/b":{"version":"2.0.0"},
    "":{"name":"app","version":"1.0.0"}}}
file adv.json {"advisories":[
    {"id":"X-1","package":"a","range":"<2.0.0","functions":[{"file":"index.js","name":"go"}]},
    {"id":"X-2","package":"b","range":"<2.0.0","functions":[{"file":"index.js","name":"go"}]}]}
file index.js
    require("a").go(); require("b").go();
file node_modules/a/index.js
    exports.go = function () {};
file node_modules/b/index.js
    exports.go = function () {};
run 1 audit adv.json
    alarm X-1 a 1.0.0 node_modules/a/index.js:1:14 go
      index.js:1:16 -> node_modules/a/index.js:1:14 go
    modules 3, functions 5, reachable 5, edges 6, alarms 1, notes 0
"#;

#[test]
fn an_empty_application_has_a_report(rt: HostRuntime) -> Result<(), Fail> {
    applications_hold(&rt, rt.alloc(), EMPTY)
}

const EMPTY: &str = r#"
application
file package-lock.json {"lockfileVersion":3,"packages":{"":{"name":"app","version":"1.0.0"}}}
file index.js
file adv.json {"advisories":[]}
run 0 audit adv.json
    modules 1, functions 1, reachable 1, edges 0, alarms 0, notes 0
run 0 audit --format json adv.json
    {"alarms":[],"notes":[],"summary":{"alarms":0,"edges":0,"functions":1,"modules":1,"notes":0,"reachable":1}}
file adv.json {"advisories":[
    {"id":"X-2","package":"app","range":"*","functions":[{"file":"index.js","name":"<module>"}]}]}
run 1 audit adv.json
    alarm X-2 app 1.0.0 index.js:1:1 <module>
    modules 1, functions 1, reachable 1, edges 0, alarms 1, notes 0
"#;

#[test]
fn notes_go_by_path_and_place(rt: HostRuntime) -> Result<(), Fail> {
    applications_hold(&rt, rt.alloc(), NOTES)
}

const NOTES: &str = r#"
application
file package-lock.json {"lockfileVersion":3,"packages":{
    "":{"name":"app","version":"1.0.0"},
    "x":{"name":"a"},
    "y":{"name":"a","version":"1"},
    "z":{"name":"c"}}}
file adv.json {"advisories":[
    {"id":"X-1","package":"a","range":"<1.2.0","functions":[{"file":"index.js","name":"slow"}]}]}
file index.js
    require("./b");
    require();
    require("./absent");
    require("./node_modules/a");
file b.js
    require("./c");
file c.js
    require("./no"); x y
file node_modules/a/index.js
    require("./gone");
run 2 audit adv.json
    jam: c.js:1:20: not in the profile
run 0 audit --skip-refused adv.json
    note c.js:1:1 skipped: not in the profile
    note index.js:2:8 dynamic require
    note index.js:3:8 not found: ./absent
    note node_modules/a/index.js:1:1 not in the lockfile
    note node_modules/a/index.js:1:8 not found: ./gone
    note x no version
    note y no version
    modules 4, functions 4, reachable 4, edges 3, alarms 0, notes 7
# Requires of no text and of absent files.
application
file package-lock.json {"lockfileVersion":3,"packages":{"":{"name":"app","version":"1.0.0"}}}
file adv.json {"advisories":[]}
file index.js
    var n = "./a"; require(n);
    require("./absent");
    require("fs");
    require("node:x");
run 0 audit adv.json
    note index.js:1:23 dynamic require
    note index.js:2:8 not found: ./absent
    modules 1, functions 1, reachable 1, edges 0, alarms 0, notes 2
# Modules outside the profile are refused or skipped.
file index.js
    require("./a"); require("./b");
file a.js
    with (x) y();
file b.js )
run 0 audit --skip-refused adv.json
    note a.js:1:1 skipped: not in the profile
    note b.js:1:1 skipped: not in the profile
    modules 3, functions 3, reachable 3, edges 2, alarms 0, notes 2
run 0 graph index.js --skip-refused
    index.js:1:8 -> a.js:1:1 <module>
    index.js:1:24 -> b.js:1:1 <module>
run 2 graph index.js
    jam: a.js:1:1: with
"#;

#[test]
fn each_version_of_a_package_has_alarms_of_its_own(rt: HostRuntime) -> Result<(), Fail> {
    applications_hold(&rt, rt.alloc(), VERSIONS)
}

const VERSIONS: &str = r#"
# Packages with conditions of exports, a `main` without its ending, and one name in two versions.
application
file package-lock.json {"lockfileVersion":3,"packages":{
    "":{"name":"shop","version":"1.0.0"},
    "node_modules/@acme/query":{"version":"1.0.0"},
    "node_modules/@acme/query/node_modules/deep":{"version":"2.0.1"},
    "node_modules/deep":{"version":"1.0.5"},
    "node_modules/store":{"version":"1.4.0"}}}
file adv.json {"advisories":[
    {"id":"A-1","package":"deep","range":"<2.0.0","functions":[{"file":"lib/deep.js","name":"copy"}]},
    {"id":"A-2","package":"deep","range":">=2.0.0 <2.0.2","functions":[
    {"file":"index.js","name":"merge"},
    {"file":"index.js","name":"absent"},
    {"file":"index.js","name":"<module>"}]},
    {"id":"A-3","package":"store","range":"<1.0.0","functions":[{"file":"*","name":"*"}]}]}
file package.json {"name":"shop","main":"lib/server.js"}
file lib/server.js
    "use strict";
    var http = require("http");
    var query = require("@acme/query");
    var Store = require("store");
    var fast = require("fast-path");
    var server = http.createServer(function (req, res) {
      var q = query.parse(req.url);
      var s = new Store(q);
      s.list().forEach(function (item) { return res.write(item.label); });
      res.end(s.size);
    });
    server.listen(8080);
file node_modules/@acme/query/package.json {"name":"@acme/query",
    "exports":{".":{"require":"./dist/q.js","default":"./q.mjs"}}}
file node_modules/@acme/query/dist/q.js
    Object.defineProperty(exports, "__esModule", true);
    exports.parse = parse;
    var deep_1 = require("deep");
    function parse(text) { return deep_1.merge(null, text); }
file node_modules/@acme/query/node_modules/deep/index.js
    exports.merge = function merge(a, b) { return b; };
file node_modules/deep/package.json {"main":"lib/deep"}
file node_modules/deep/lib/deep.js
    (function (root, factory) {
      module.exports = factory();
    }(this, function () {
      function copy(x) { return x; }
      return copy;
    }));
file node_modules/store/package.json {"name":"store"}
file node_modules/store/info.json {"max":3}
file node_modules/store/index.js
    var copy = require("deep");
    var info = require("./info.json");
    function Store(q) { this.q = copy(q); }
    Store.prototype.list = function () { return this; };
    Store.prototype.size = function () { return count(this); };
    function count(s) { return info.max; }
    module.exports = Store;
run 1 audit adv.json
    alarm A-1 deep 1.0.5 node_modules/deep/lib/deep.js:4:3 copy
      lib/server.js:6:31 -> lib/server.js:6:32 <anonymous>
      lib/server.js:8:11 -> node_modules/store/index.js:3:1 Store
      node_modules/store/index.js:3:34 -> node_modules/deep/lib/deep.js:4:3 copy
    alarm A-2 deep 2.0.1 node_modules/@acme/query/node_modules/deep/index.js:1:1 <module>
      lib/server.js:3:20 -> node_modules/@acme/query/dist/q.js:1:1 <module>
      node_modules/@acme/query/dist/q.js:3:21 -> node_modules/@acme/query/node_modules/deep/index.js:1:1 <module>
    alarm A-2 deep 2.0.1 node_modules/@acme/query/node_modules/deep/index.js:1:17 merge
      lib/server.js:6:31 -> lib/server.js:6:32 <anonymous>
      lib/server.js:7:22 -> node_modules/@acme/query/dist/q.js:4:1 parse
      node_modules/@acme/query/dist/q.js:4:43 -> node_modules/@acme/query/node_modules/deep/index.js:1:17 merge
    note lib/server.js:5:19 not found: fast-path
    modules 5, functions 16, reachable 14, edges 14, alarms 3, notes 1
"#;
