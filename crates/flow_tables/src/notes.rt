//! The requires of texts, OFFSET SPEC hHOLDER, and their notes, OFFSET KIND.
use crate::list_kind::ListKind;
use crate::rows::rows_hold;
use std::test::Fail;

#[test]
fn requires_and_notes(rt: HostRuntime) -> Result<(), Fail> {
    rows_hold(&rt, rt.alloc(), ListKind::Requires, TABLE)
}

const TABLE: &str = r#"
# Calls of require.
require("x");
    requires 7 x h0
require('\x2e/a');
    requires 7 ./a h0
require("x", require);
    requires 7 x h0
    notes 13 value
function f() { require('a'); }
    requires 22 a h1
require("x")("y");
    requires 7 x h0
f(require("x"), require("y"));
    requires 9 x h0, 23 y h0
require(a);
    notes 7 dynamic
require();
    notes 7 dynamic
require(...a);
    notes 7 dynamic
require("\8");
    notes 7 dynamic
require(`x`);
    notes 7 dynamic
require(("x"));
    notes 7 dynamic
require(require);
    notes 7 dynamic, 8 value

# Uses of require as a value.
a = require;
    notes 4 value
var a = require;
    notes 8 value
f(require);
    notes 2 value
f(...require);
    notes 5 value
require = a;
    notes 0 value
(require) = a;
    notes 1 value
require++;
    notes 0 value
(require)("x");
    notes 1 value
new require("x");
    notes 4 value
require`x`;
    notes 0 value
a[require];
    notes 2 value
return require;
    notes 7 value
void require;
    notes 5 value
typeof (require);
    notes 8 value
require || require;
    notes 0 value, 11 value
new a.b(require);
    notes 8 value
new require.x(require);
    notes 14 value

# Uses of require that are not noted.
require.resolve("x");
require["x"];
require.x = a;
a = require.x.y;
typeof require;
typeof require.x;
new require.x;
var require;
var require = a;
function require() { } a = require;
function f(require) { a = require; }
delete require.x;
"#;
