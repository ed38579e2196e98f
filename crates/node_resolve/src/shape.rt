//! What can be told of a text by its characters alone.
ghost use Rattle.std.specs.Prelude.{◌≡◌, nat_eq, map as each};
ghost use Rattle.std.specs.List.{starts_with as begins_with, ends_with};
ghost use Rattle.std.specs.Str.{bytes_eq};
ghost use Rattle.node_resolve.specs.Shapes as shapes;
ghost use Rattle.node_resolve.specs.Targets as targets;

// The modules that Node itself has.
#[tactic(auto, unfolding(crate::specs::Shapes::core_names))]
fn core_names() -> &'static [&'static str]
    ensures { each (λ name. name.now) result.now ≡ shapes.core_names }
{
    &[
        "assert",
        "assert/strict",
        "async_hooks",
        "buffer",
        "child_process",
        "cluster",
        "console",
        "constants",
        "crypto",
        "dgram",
        "diagnostics_channel",
        "dns",
        "dns/promises",
        "domain",
        "events",
        "fs",
        "fs/promises",
        "http",
        "http2",
        "https",
        "inspector",
        "module",
        "net",
        "os",
        "path",
        "path/posix",
        "path/win32",
        "perf_hooks",
        "process",
        "punycode",
        "querystring",
        "readline",
        "readline/promises",
        "repl",
        "stream",
        "stream/consumers",
        "stream/promises",
        "stream/web",
        "string_decoder",
        "sys",
        "timers",
        "timers/promises",
        "tls",
        "trace_events",
        "tty",
        "url",
        "util",
        "util/types",
        "v8",
        "vm",
        "wasi",
        "worker_threads",
        "zlib",
    ]
}

pub(crate) fn is(text: &[u8], other: &[u8]) -> bool
    ensures { result ≡ bytes_eq text.now other.now }
{
    text == other
}

// Whether two texts are the same.
pub(crate) fn is_same(text: &str, other: &str) -> bool
    ensures { result ≡ bytes_eq text.now other.now }
{
    text == other
}

pub(crate) fn begins(text: &[u8], front: &[u8]) -> bool
    ensures { result ≡ begins_with nat_eq text.now front.now }
{
    text.starts_with(front)
}

pub(crate) fn ends(text: &[u8], end: &[u8]) -> bool
    ensures { result ≡ ends_with nat_eq text.now end.now }
{
    text.ends_with(end)
}

/// Whether the text is one of these names.
pub(crate) fn is_among(names: &[&str], text: &str) -> bool
    ensures { result ≡ shapes.is_among (each (λ name. name.now) names.now) text.now }
{
    for name in names {
        if is_same(name, text) {
            return true;
        }
    }
    false
}

/// Whether Node itself has the module: its name is in the table, or begins `node:`.
pub(crate) fn is_core(text: &str) -> bool
    ensures { result ≡ shapes.is_core text.now }
{
    is_among(core_names(), text) || begins(text.as_bytes(), b"node:")
}

/// Whether a text is empty or begins with `/` or `#`, so that no folder is searched for it.
pub(crate) fn is_unsearched(text: &str) -> bool
    ensures { result ≡ shapes.is_unsearched text.now }
{
    let bytes = text.as_bytes();
    is(bytes, b"") || begins(bytes, b"/") || begins(bytes, b"#")
}

/// Whether a text is `.` or `..`, or begins `./` or `../`.
pub(crate) fn is_relative(text: &str) -> bool
    ensures { result ≡ shapes.is_relative text.now }
{
    let bytes = text.as_bytes();
    is(bytes, b".") || is(bytes, b"..") || begins(bytes, b"./") || begins(bytes, b"../")
}

// What stands behind the last slash.
fn last_part(text: &[u8]) -> &[u8]
    ensures { result.now ≡ shapes.last_part text.now }
{
    let mut start = text.len();
    while start > 0 && text[start - 1] != b'/' {
        start -= 1;
    }
    &text[start..]
}

/// Whether a text ends with a slash, or its last part is `.` or `..`.
pub(crate) fn is_directory_like(text: &str) -> bool
    ensures { result ≡ shapes.is_directory_like text.now }
{
    let last = last_part(text.as_bytes());
    is(last, b"") || is(last, b".") || is(last, b"..")
}

/// Whether the folder at a path is one of packages: its name is `node_modules`.
pub(crate) fn is_modules(path: &str) -> bool
    ensures { result ≡ targets.is_modules path.now }
{
    is(last_part(path.as_bytes()), b"node_modules")
}

/// Whether the file at a path is no code: the path ends `.json` or `.node`.
pub(crate) fn is_no_code(path: &str) -> bool
    ensures { result ≡ shapes.is_no_code path.now }
{
    ends(path.as_bytes(), b".json") || ends(path.as_bytes(), b".node")
}
