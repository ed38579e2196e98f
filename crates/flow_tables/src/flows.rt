//! Where values of texts stand, and what comes to them: FROM -> TO.
use crate::list_kind::ListKind;
use crate::rows::rows_hold;
use std::test::Fail;

#[test]
fn flows_of_values_and_calls(rt: HostRuntime) -> Result<(), Fail> {
    rows_hold(&rt, rt.alloc(), ListKind::Flows, TABLE)
}

const TABLE: &str = r#"
# Names and what has no values.
a;
var a;
var a = b;
    global:b -> var:0
var a = exports;
    exports -> var:0
var a = module, b = require;
var a = arguments;
    rest:0 -> elem
a = this;
a = 1;
a = /b/;
a = new.target;
a = -b;
a = a;
a.b = c.b;

# Members.
a.b = c;
    global:c -> prop:b
a["b"] = c;
    global:c -> prop:b
a['\x62'] = c;
    global:c -> prop:b
a[0] = c;
    global:c -> elem
a[b] = c;
    global:c -> elem
a["\8"] = c;
    global:c -> elem
a[("b")] = c;
    global:c -> elem
b = a.c;
    prop:c -> global:b
b = a[c];
    elem -> global:b
module.exports = a;
    global:a -> exports
module["exports"] = a;
    global:a -> exports
(module).exports = a;
    global:a -> prop:exports
a.module.exports = b;
    global:b -> prop:exports
a = module.exports;
    exports -> global:a
a = module.exports.b;
    prop:b -> global:a
a = exports.b;
    prop:b -> global:a
module.x = a;
    global:a -> prop:x
module[exports] = a;
    global:a -> elem
function f(module) { module.exports = a; }
    global:a -> prop:exports, param:1:0 -> var:1, lit:1 -> var:0

# Targets.
a = b;
    global:b -> global:a
(a) = b;
    global:b -> global:a
((a.b)) = c;
    global:c -> prop:b
a += b;
a.b **= c;
var a = b, c = d;
    global:b -> var:0, global:d -> var:1
exports = a;
    global:a -> exports
require = a; arguments = b;
    rest:0 -> elem
a++; --b.c;

# What passes values on.
a = (b);
    global:b -> global:a
a = ((b.c));
    prop:c -> global:a
a = b = c;
    global:c -> global:a, global:c -> global:b
a = (b += c);
a = (b, c);
    global:c -> global:a
a = (b, c, d.e);
    prop:e -> global:a
a = b && c;
    global:c -> global:a
a = b && c && d;
    global:d -> global:a
a = b & c;
a = b + c;
a = b ** c;
a = b == c;

# What joins values.
a = b ? c : d;
    global:c -> exp:0, global:d -> exp:0, exp:0 -> global:a
a = b ? c : d ? e : f;
    global:c -> exp:0, global:e -> exp:0, global:f -> exp:0, exp:0 -> global:a
a = b || c;
    global:b -> exp:0, global:c -> exp:0, exp:0 -> global:a
a = b || c || d;
    global:b -> exp:0, global:c -> exp:0, global:d -> exp:0, exp:0 -> global:a
a || a;
    global:a -> exp:0
a ? 1 : 2;
a = (b || c) ? d : e || f;
    global:b -> exp:1, global:c -> exp:1, global:d -> exp:0, global:e -> exp:2,
    global:f -> exp:2, exp:0 -> global:a, exp:2 -> exp:0
a = b || c ? d : e;
    global:b -> exp:1, global:c -> exp:1, global:d -> exp:0, global:e -> exp:0,
    exp:0 -> global:a
a = b && c || d;
    global:c -> exp:0, global:d -> exp:0, exp:0 -> global:a
a || b; c || d;
    global:a -> exp:0, global:b -> exp:0, global:c -> exp:1, global:d -> exp:1

# Functions and what they return.
var a = function () { };
    lit:1 -> var:0
a.b = function () { };
    lit:1 -> prop:b
(function g() { });
    lit:1 -> var:0
function g() { }
    lit:1 -> var:0
function exports() { }
    lit:1 -> var:0
function f(a, b) { }
    param:1:0 -> var:1, param:1:1 -> var:2, lit:1 -> var:0
(function (a) { arguments; });
    param:1:0 -> elem, param:1:0 -> var:0, rest:1 -> elem
function f(a) { arguments = 1; }
    param:1:0 -> elem, param:1:0 -> var:1, rest:1 -> elem, lit:1 -> var:0
function f(a) { function g() { arguments; } }
    param:1:0 -> var:1, rest:2 -> elem, lit:1 -> var:0, lit:2 -> var:2
function f(a) { var arguments; arguments; }
    param:1:0 -> var:1, lit:1 -> var:0
function f(a) { return a; }
    param:1:0 -> var:1, lit:1 -> var:0, var:1 -> ret:1
return a;
    global:a -> ret:0
return;
return 1;
function f() { return function () { return b; }; }
    global:b -> ret:2, lit:1 -> var:0, lit:2 -> ret:1

# Calls and their arguments.
f();
    global:f -> callee:1:0
f(a, b);
    global:a -> arg:1:0:0, global:b -> arg:1:0:1, global:f -> callee:1:0
f(1, b);
    global:b -> arg:1:0:1, global:f -> callee:1:0
f(a, ...b, c);
    elem -> more:1:0, global:a -> arg:1:0:0, global:c -> more:1:0, global:f -> callee:1:0
f(...a.b);
    elem -> more:1:0, global:f -> callee:1:0
a.f(b);
    prop:f -> callee:3:0, global:a -> recv:3:0, global:b -> arg:3:0:0
a[b](c);
    elem -> callee:4:0, global:a -> recv:4:0, global:c -> arg:4:0:0
(a.f)(b);
    prop:f -> callee:5:0, global:b -> arg:5:0:0
a.b.c();
    prop:b -> recv:5:0, prop:c -> callee:5:0
f()();
    global:f -> callee:1:0, res:1:0 -> callee:3:0
f().g();
    prop:g -> callee:5:0, global:f -> callee:1:0, res:1:0 -> recv:5:0
var x = f();
    global:f -> callee:9:0, res:9:0 -> var:0
(0, eval)("x");
    global:eval -> callee:9:0
module.exports();
    exports -> callee:14:0

# Calls of require.
require("x");
a = require("x");
    req:11 -> global:a
a = require("x", b).y;
    prop:y -> global:a
a = require("x")("y");
    res:16:0 -> global:a, req:11 -> callee:16:0
a = require(b);
    global:b -> arg:11:0:0, res:11:0 -> global:a
a = (require)("x");
    res:13:0 -> global:a

# Calls that are passed on by call.
a = b.call(c, d);
    prop:call -> callee:10:0, global:b -> callee:10:1, global:b -> recv:10:0,
    global:c -> arg:10:0:0, global:c -> recv:10:1, global:d -> arg:10:0:1,
    global:d -> arg:10:1:0, res:10:0 -> exp:0, res:10:1 -> exp:0, exp:0 -> global:a
b["call"](c);
    prop:call -> callee:9:0, global:b -> callee:9:1, global:b -> recv:9:0,
    global:c -> arg:9:0:0, global:c -> recv:9:1, res:9:0 -> exp:0, res:9:1 -> exp:0
b.call(...c, d);
    prop:call -> callee:6:0, elem -> more:6:0, elem -> more:6:1, global:b -> callee:6:1,
    global:b -> recv:6:0, global:d -> more:6:0, global:d -> more:6:1, res:6:0 -> exp:0,
    res:6:1 -> exp:0
b.call(c, ...d);
    prop:call -> callee:6:0, elem -> more:6:0, elem -> more:6:1, global:b -> callee:6:1,
    global:b -> recv:6:0, global:c -> arg:6:0:0, global:c -> recv:6:1, res:6:0 -> exp:0,
    res:6:1 -> exp:0

# Calls that are passed on by bind and apply.
b.bind(c);
    prop:bind -> callee:6:0, global:b -> callee:6:1, global:b -> recv:6:0, global:b -> exp:0,
    global:c -> arg:6:0:0, global:c -> recv:6:1, res:6:0 -> exp:0, res:6:1 -> exp:0
b.bind();
    prop:bind -> callee:6:0, global:b -> callee:6:1, global:b -> recv:6:0, global:b -> exp:0,
    res:6:0 -> exp:0, res:6:1 -> exp:0
b.apply(c, d);
    prop:apply -> callee:7:0, elem -> more:7:1, global:b -> callee:7:1, global:b -> recv:7:0,
    global:c -> arg:7:0:0, global:c -> recv:7:1, global:d -> arg:7:0:1, res:7:0 -> exp:0,
    res:7:1 -> exp:0
b.apply(...c);
    prop:apply -> callee:7:0, elem -> more:7:0, elem -> more:7:1, global:b -> callee:7:1,
    global:b -> recv:7:0, res:7:0 -> exp:0, res:7:1 -> exp:0
b.apply();
    prop:apply -> callee:7:0, elem -> more:7:1, global:b -> callee:7:1, global:b -> recv:7:0,
    res:7:0 -> exp:0, res:7:1 -> exp:0
(b.call)(c);
    prop:call -> callee:8:0, global:c -> arg:8:0:0
call(c);
    global:c -> arg:4:0:0, global:call -> callee:4:0

# What is put in and taken out.
a.push(b, ...c, d);
    prop:push -> callee:6:0, elem -> more:6:0, global:a -> recv:6:0, global:b -> elem,
    global:b -> arg:6:0:0, global:d -> elem, global:d -> more:6:0
a["unshift"](b);
    prop:unshift -> callee:12:0, global:a -> recv:12:0, global:b -> elem, global:b -> arg:12:0:0
x = a.pop();
    prop:pop -> callee:9:0, elem -> exp:0, global:a -> recv:9:0, res:9:0 -> exp:0,
    exp:0 -> global:x
a.shift();
    prop:shift -> callee:7:0, elem -> exp:0, global:a -> recv:7:0, res:7:0 -> exp:0
a[pop]();
    elem -> callee:6:0, global:a -> recv:6:0
a.pop().pop();
    prop:pop -> callee:5:0, prop:pop -> callee:11:0, elem -> exp:0, elem -> exp:1,
    global:a -> recv:5:0, res:5:0 -> exp:1, res:11:0 -> exp:0, exp:1 -> recv:11:0
x = a.pop(b || c).shift();
    prop:pop -> callee:9:0, prop:shift -> callee:23:0, elem -> exp:0, elem -> exp:1,
    global:a -> recv:9:0, global:b -> exp:2, global:c -> exp:2, res:9:0 -> exp:1,
    res:23:0 -> exp:0, exp:0 -> global:x, exp:1 -> recv:23:0, exp:2 -> arg:9:0:0

# What new makes.
a = new F;
    global:F -> callee:4:0, res:4:0 -> global:a
a = new F(b);
    global:F -> callee:4:0, global:b -> arg:4:0:0, res:4:0 -> global:a
new a.b(...c, d);
    prop:b -> callee:0:0, elem -> more:0:0, global:d -> more:0:0
new a.push(b);
    prop:push -> callee:0:0, global:b -> arg:0:0:0
new a.call(b);
    prop:call -> callee:0:0, global:b -> arg:0:0:0
new a[b];
    elem -> callee:0:0
new new A()();
    global:A -> callee:4:0, res:4:0 -> callee:0:0
new A().b();
    prop:b -> callee:9:0, global:A -> callee:0:0, res:0:0 -> recv:9:0

# Templates behind a tag.
x = `a${b}`;
x = f`a${b}c${d}e`;
    global:b -> arg:5:0:1, global:d -> arg:5:0:2, global:f -> callee:5:0, res:5:0 -> global:x
a.f`x`;
    prop:f -> callee:3:0, global:a -> recv:3:0
a.push`x${b}`;
    prop:push -> callee:6:0, global:a -> recv:6:0, global:b -> elem, global:b -> arg:6:0:1
a.call`x`;
    prop:call -> callee:6:0, global:a -> recv:6:0
x = a.pop`x`;
    prop:pop -> callee:9:0, global:a -> recv:9:0, res:9:0 -> global:x
new a`x`;
    global:a -> callee:5:0, res:5:0 -> callee:0:0
f`x`();
    global:f -> callee:1:0, res:1:0 -> callee:4:0
"#;
