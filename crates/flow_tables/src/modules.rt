//! Texts, and all that is said of each of them.
use crate::list_kind::ListKind;
use crate::rows::rows_hold;
use std::test::Fail;

#[test]
fn all_lists_of_modules(rt: HostRuntime) -> Result<(), Fail> {
    rows_hold(&rt, rt.alloc(), ListKind::All, TABLE)
}

const TABLE: &str = r#"
# A declared name flows to its calls.
function go() { }¶go();¶
    functions 0/0 <module>, 0/0 go
    sites 20.0 h0 a0
    flows lit:1 -> var:0, var:0 -> callee:20:0
g();¶function g() { g(); }¶
    functions 0/0 <module>, 5/0 g
    sites 1.0 h0 a0, 21.0 h1 a0
    flows lit:1 -> var:0, var:0 -> callee:1:0, var:0 -> callee:21:0
function f() {¶  function f() { f(); }¶  f();¶}¶f();¶
    functions 0/0 <module>, 0/0 f, 17/0 f
    sites 33.0 h2 a0, 42.0 h1 a0, 49.0 h0 a0
    flows lit:1 -> var:0, lit:2 -> var:1, var:0 -> callee:49:0, var:1 -> callee:33:0,
    var:1 -> callee:42:0
function f() { }¶function f() { }¶f();¶
    functions 0/0 <module>, 0/0 f, 17/0 f
    sites 35.0 h0 a0
    flows lit:1 -> var:0, lit:2 -> var:0, var:0 -> callee:35:0
function f() { function g() { f(); g(); h(); } }¶
    functions 0/0 <module>, 0/0 f, 15/0 g
    sites 31.0 h2 a0, 36.0 h2 a0, 41.0 h2 a0
    flows global:h -> callee:41:0, lit:1 -> var:0, lit:2 -> var:1, var:0 -> callee:31:0,
    var:1 -> callee:36:0
function a() { function c() { } }¶function b() { c(); a(); }¶
    functions 0/0 <module>, 0/0 a, 15/0 c, 34/0 b
    sites 50.0 h3 a0, 55.0 h3 a0
    flows global:c -> callee:50:0, lit:1 -> var:0, lit:2 -> var:1, lit:3 -> var:2,
    var:0 -> callee:55:0

# A require flows to its variable.
var a = require("./a");¶a.go();¶
    functions 0/0 <module>
    sites 28.0 h0 a0
    requires 15 ./a h0
    flows prop:go -> callee:28:0, req:15 -> var:0, var:0 -> recv:28:0
require("./m1");¶
    functions 0/0 <module>
    requires 7 ./m1 h0
require("./it's");¶
    functions 0/0 <module>
    requires 7 ./it's h0
require("./é");¶f();¶
    functions 0/0 <module>
    sites 18.0 h0 a0
    requires 7 ./é h0
    flows global:f -> callee:18:0
function f() { require('../b'); }¶require("./");¶
    functions 0/0 <module>, 0/0 f
    requires 22 ../b h1, 41 ./ h0
    flows lit:1 -> var:0
var a = require("./a");¶var b = require("./a");¶b();¶
    functions 0/0 <module>
    sites 49.0 h0 a0
    requires 15 ./a h0, 39 ./a h0
    flows req:15 -> var:0, req:39 -> var:1, var:1 -> callee:49:0
var a = require("./a");¶var a = require("../b");¶a();¶
    functions 0/0 <module>
    sites 50.0 h0 a0
    requires 15 ./a h0, 39 ../b h0
    flows req:15 -> var:0, req:39 -> var:0, var:0 -> callee:50:0

# A variable holds in its whole function.
a();¶var a = require("./a");¶a();¶
    functions 0/0 <module>
    sites 1.0 h0 a0, 30.0 h0 a0
    requires 20 ./a h0
    flows req:20 -> var:0, var:0 -> callee:1:0, var:0 -> callee:30:0
function f() { g(); var g = require("./g"); }¶g();¶
    functions 0/0 <module>, 0/0 f
    sites 16.0 h1 a0, 47.0 h0 a0
    requires 35 ./g h1
    flows global:g -> callee:47:0, lit:1 -> var:0, req:35 -> var:1, var:1 -> callee:16:0
var f = require("./f");¶function f() { f(); }¶
    functions 0/0 <module>, 24/0 f
    sites 40.0 h1 a0
    requires 15 ./f h0
    flows lit:1 -> var:0, req:15 -> var:0, var:0 -> callee:40:0
function f() { var b = require("./b"); }¶var a = require("./a");¶
    functions 0/0 <module>, 0/0 f
    requires 30 ./b h1, 56 ./a h0
    flows lit:1 -> var:0, req:30 -> var:1, req:56 -> var:2
function f() { var f = require("./f"); f(); }¶f();¶
    functions 0/0 <module>, 0/0 f
    sites 40.0 h1 a0, 47.0 h0 a0
    requires 30 ./f h1
    flows lit:1 -> var:0, req:30 -> var:1, var:0 -> callee:47:0, var:1 -> callee:40:0

# A variable of the module takes no name from the wrapper.
var exports = require("./a");
    functions 0/0 <module>
    requires 21 ./a h0
    flows req:21 -> exports
var exports = require("./a");¶exports();¶
    functions 0/0 <module>
    sites 37.0 h0 a0
    requires 21 ./a h0
    flows exports -> callee:37:0, req:21 -> exports
var require = require("./a");¶
    functions 0/0 <module>
    requires 21 ./a h0
var module = require("./a");¶module.exports();¶
    functions 0/0 <module>
    sites 43.0 h0 a0
    requires 20 ./a h0
    flows exports -> callee:43:0
var __filename = require("./a");¶var __dirname = require("./b");¶__filename();¶
    functions 0/0 <module>
    sites 75.0 h0 a0
    requires 24 ./a h0, 56 ./b h0

# A declaration hides a name of the wrapper.
function require() { }¶var a = require("./a");¶
    functions 0/0 <module>, 0/0 require
    sites 38.0 h0 a1
    flows lit:1 -> var:0, res:38:0 -> var:1, var:0 -> callee:38:0
function f() { var require = require("./g"); }¶
    functions 0/0 <module>, 0/0 f
    sites 36.0 h1 a1
    flows lit:1 -> var:0, res:36:0 -> var:1, var:1 -> callee:36:0
function f() { function require() { } require("./a"); }¶require("./b");¶
    functions 0/0 <module>, 0/0 f, 15/0 require
    sites 45.0 h1 a1
    requires 63 ./b h0
    flows lit:1 -> var:0, lit:2 -> var:1, var:1 -> callee:45:0
function f() { var exports = require("./a"); exports(); }¶
    functions 0/0 <module>, 0/0 f
    sites 52.0 h1 a0
    requires 36 ./a h1
    flows lit:1 -> var:0, req:36 -> var:1, var:1 -> callee:52:0
function exports() { }¶exports.go();¶
    functions 0/0 <module>, 0/0 exports
    sites 33.0 h0 a0
    flows prop:go -> callee:33:0, lit:1 -> var:0, var:0 -> recv:33:0
function module() { }¶module.exports();¶
    functions 0/0 <module>, 0/0 module
    sites 36.0 h0 a0
    flows prop:exports -> callee:36:0, lit:1 -> var:0, var:0 -> recv:36:0

# A variable beside a function declares nothing.
var exports = require("./a");¶function exports() { }¶exports();¶
    functions 0/0 <module>, 30/0 exports
    sites 60.0 h0 a0
    requires 21 ./a h0
    flows lit:1 -> var:0, req:21 -> var:0, var:0 -> callee:60:0
var exports = require("./a");¶var b = require("./b");¶function exports() { }¶
    functions 0/0 <module>, 54/0 exports
    requires 21 ./a h0, 45 ./b h0
    flows lit:1 -> var:1, req:21 -> var:1, req:45 -> var:0
var require = require("./a");¶function require() { }¶
    functions 0/0 <module>, 30/0 require
    sites 21.0 h0 a1
    flows lit:1 -> var:0, res:21:0 -> var:0, var:0 -> callee:21:0

# The names of the wrapper have values or none.
require();¶
    functions 0/0 <module>
    sites 7.0 h0 a0
    notes 7 dynamic
function f() { require(); }¶
    functions 0/0 <module>, 0/0 f
    sites 22.0 h1 a0
    notes 22 dynamic
    flows lit:1 -> var:0
require.resolve();¶
    functions 0/0 <module>
    sites 15.0 h0 a0
    flows prop:resolve -> callee:15:0
module.exports();¶
    functions 0/0 <module>
    sites 14.0 h0 a0
    flows exports -> callee:14:0
module.go();¶
    functions 0/0 <module>
    sites 9.0 h0 a0
    flows prop:go -> callee:9:0
exports.exports();¶
    functions 0/0 <module>
    sites 15.0 h0 a0
    flows prop:exports -> callee:15:0, exports -> recv:15:0
function f() { exports(); exports.f = function () { }; }¶
    functions 0/0 <module>, 0/0 f, 38/0 f
    sites 22.0 h1 a0
    flows exports -> callee:22:0, lit:1 -> var:0, lit:2 -> prop:f

# Arguments are elements.
function f() { arguments(); }¶
    functions 0/0 <module>, 0/0 f
    sites 24.0 h1 a0
    flows rest:1 -> elem, lit:1 -> var:0
arguments();¶arguments();¶
    functions 0/0 <module>
    sites 9.0 h0 a0, 22.0 h0 a0
    flows rest:0 -> elem
arguments.pop();¶
    functions 0/0 <module>
    sites 13.0 h0 a0
    flows prop:pop -> callee:13:0, elem -> exp:0, rest:0 -> elem, res:13:0 -> exp:0
function f() { exports.g = function () { arguments(); }; }¶
    functions 0/0 <module>, 0/0 f, 27/0 g
    sites 50.0 h2 a0
    flows rest:2 -> elem, lit:1 -> var:0, lit:2 -> prop:g
var arguments = require("./a");¶arguments();¶
    functions 0/0 <module>
    sites 41.0 h0 a0
    requires 23 ./a h0
    flows req:23 -> var:0, var:0 -> callee:41:0
function f() { arguments.apply(); }¶
    functions 0/0 <module>, 0/0 f
    sites 30.0 h1 a0, 30.1 h1 a0
    flows prop:apply -> callee:30:0, elem -> more:30:1, rest:1 -> elem, lit:1 -> var:0,
    res:30:0 -> exp:0, res:30:1 -> exp:0
function f() { var arguments = require("./a"); arguments(); }¶
    functions 0/0 <module>, 0/0 f
    sites 56.0 h1 a0
    requires 38 ./a h1
    flows lit:1 -> var:0, req:38 -> var:1, var:1 -> callee:56:0

# Flows go by their ends.
¶ f ( ) ;¶
    functions 0/0 <module>
    sites 4.0 h0 a0
    flows global:f -> callee:4:0
b();¶B();¶aa();¶
    functions 0/0 <module>
    sites 1.0 h0 a0, 6.0 h0 a0, 12.0 h0 a0
    flows global:B -> callee:6:0, global:aa -> callee:12:0, global:b -> callee:1:0
setTimeout();¶f.go();¶
    functions 0/0 <module>
    sites 10.0 h0 a0, 18.0 h0 a0
    flows prop:go -> callee:18:0, global:f -> recv:18:0, global:setTimeout -> callee:10:0
eval.x();¶call();¶
    functions 0/0 <module>
    sites 6.0 h0 a0, 14.0 h0 a0
    flows prop:x -> callee:6:0, global:call -> callee:14:0, global:eval -> recv:6:0
a.forEach();¶
    functions 0/0 <module>
    sites 9.0 h0 a0
    flows prop:forEach -> callee:9:0, global:a -> recv:9:0
a.push();¶a.unshift();¶
    functions 0/0 <module>
    sites 6.0 h0 a0, 19.0 h0 a0
    flows prop:push -> callee:6:0, prop:unshift -> callee:19:0, global:a -> recv:6:0,
    global:a -> recv:19:0
a();¶a();¶
    functions 0/0 <module>
    sites 1.0 h0 a0, 6.0 h0 a0
    flows global:a -> callee:1:0, global:a -> callee:6:0

# A call that is passed on has a second site.
function f() { }¶f.call();¶
    functions 0/0 <module>, 0/0 f
    sites 23.0 h0 a0, 23.1 h0 a0
    flows prop:call -> callee:23:0, lit:1 -> var:0, res:23:0 -> exp:0, res:23:1 -> exp:0,
    var:0 -> callee:23:1, var:0 -> recv:23:0
function f() { }¶f.apply();¶
    functions 0/0 <module>, 0/0 f
    sites 24.0 h0 a0, 24.1 h0 a0
    flows prop:apply -> callee:24:0, elem -> more:24:1, lit:1 -> var:0, res:24:0 -> exp:0,
    res:24:1 -> exp:0, var:0 -> callee:24:1, var:0 -> recv:24:0
function f() { }¶f.bind();¶
    functions 0/0 <module>, 0/0 f
    sites 23.0 h0 a0, 23.1 h0 a0
    flows prop:bind -> callee:23:0, lit:1 -> var:0, res:23:0 -> exp:0, res:23:1 -> exp:0,
    var:0 -> callee:23:1, var:0 -> recv:23:0, var:0 -> exp:0
exports.call();¶
    functions 0/0 <module>
    sites 12.0 h0 a0, 12.1 h0 a0
    flows prop:call -> callee:12:0, exports -> callee:12:1, exports -> recv:12:0,
    res:12:0 -> exp:0, res:12:1 -> exp:0
module.bind();¶
    functions 0/0 <module>
    sites 11.0 h0 a0, 11.1 h0 a0
    flows prop:bind -> callee:11:0, res:11:0 -> exp:0, res:11:1 -> exp:0
require.apply();¶
    functions 0/0 <module>
    sites 13.0 h0 a0, 13.1 h0 a0
    flows prop:apply -> callee:13:0, elem -> more:13:1, res:13:0 -> exp:0, res:13:1 -> exp:0
function f() { f.call(); }¶
    functions 0/0 <module>, 0/0 f
    sites 21.0 h1 a0, 21.1 h1 a0
    flows prop:call -> callee:21:0, lit:1 -> var:0, res:21:0 -> exp:0, res:21:1 -> exp:0,
    var:0 -> callee:21:1, var:0 -> recv:21:0

# What is taken out is an element.
var a = require("./a");¶a.pop();¶
    functions 0/0 <module>
    sites 29.0 h0 a0
    requires 15 ./a h0
    flows prop:pop -> callee:29:0, elem -> exp:0, res:29:0 -> exp:0, req:15 -> var:0,
    var:0 -> recv:29:0
function f() { a.shift(); }¶a.pop();¶
    functions 0/0 <module>, 0/0 f
    sites 22.0 h1 a0, 33.0 h0 a0
    flows prop:pop -> callee:33:0, prop:shift -> callee:22:0, elem -> exp:0, elem -> exp:1,
    global:a -> recv:22:0, global:a -> recv:33:0, lit:1 -> var:0, res:22:0 -> exp:0,
    res:33:0 -> exp:1
f.call();¶a.pop();¶f.go();¶a.shift();¶
    functions 0/0 <module>
    sites 6.0 h0 a0, 6.1 h0 a0, 15.0 h0 a0, 23.0 h0 a0, 34.0 h0 a0
    flows prop:call -> callee:6:0, prop:go -> callee:23:0, prop:pop -> callee:15:0,
    prop:shift -> callee:34:0, elem -> exp:1, elem -> exp:2, global:a -> recv:15:0,
    global:a -> recv:34:0, global:f -> callee:6:1, global:f -> recv:6:0, global:f -> recv:23:0,
    res:6:0 -> exp:0, res:6:1 -> exp:0, res:15:0 -> exp:1, res:34:0 -> exp:2
__dirname.pop();¶
    functions 0/0 <module>
    sites 13.0 h0 a0
    flows prop:pop -> callee:13:0, elem -> exp:0, res:13:0 -> exp:0
exports.f = function () { a.pop(); };¶a.pop();¶
    functions 0/0 <module>, 12/0 f
    sites 31.0 h1 a0, 43.0 h0 a0
    flows prop:pop -> callee:31:0, prop:pop -> callee:43:0, elem -> exp:0, elem -> exp:1,
    global:a -> recv:31:0, global:a -> recv:43:0, lit:1 -> prop:f, res:31:0 -> exp:0,
    res:43:0 -> exp:1

# A function takes the name of its member.
exports.go = function () { };¶
    functions 0/0 <module>, 13/0 go
    flows lit:1 -> prop:go
exports.call = function () { };¶
    functions 0/0 <module>, 15/0 call
    flows lit:1 -> prop:call
exports.f = function () { };¶exports.f = function () { };¶
    functions 0/0 <module>, 12/0 f, 41/0 f
    flows lit:1 -> prop:f, lit:2 -> prop:f
exports.f = function () { exports.g = function () { exports.f(); }; };¶exports.g();¶
    functions 0/0 <module>, 12/0 f, 38/0 g
    sites 61.0 h2 a0, 80.0 h0 a0
    flows prop:f -> callee:61:0, prop:g -> callee:80:0, exports -> recv:61:0,
    exports -> recv:80:0, lit:1 -> prop:f, lit:2 -> prop:g
exports.f = function () { function f() { } f(); };¶f();¶
    functions 0/0 <module>, 12/0 f, 26/0 f
    sites 44.0 h1 a0, 52.0 h0 a0
    flows global:f -> callee:52:0, lit:1 -> prop:f, lit:2 -> var:0, var:0 -> callee:44:0
exports.forEach = function () { };¶a.forEach();¶
    functions 0/0 <module>, 18/0 forEach
    sites 44.0 h0 a0
    flows prop:forEach -> callee:44:0, global:a -> recv:44:0, lit:1 -> prop:forEach
exports.require = function () { };¶exports.require();¶
    functions 0/0 <module>, 18/0 require
    sites 50.0 h0 a0
    flows prop:require -> callee:50:0, exports -> recv:50:0, lit:1 -> prop:require
"#;
