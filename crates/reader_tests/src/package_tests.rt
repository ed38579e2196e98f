//! Tests of requires over packages.
use crate::node_resolve_tests::{add, target_text};
use crate::tables::{RowKind, rows_hold};
use jam_base::{List, MemFolder, ModulePath};
use node_resolve::{ResolveFault, resolve};
use std::alloc::Global;
use std::test::Fail;

#[test]
fn each_text_leads_where_node_leads_it(rt: HostRuntime) -> Result<(), Fail> {
    rows_hold(&rt, rt.alloc(), RowKind::Require, REQUIRES)
}

// The module that a require stands in, its text, and its target.
const REQUIRES: &str = r#"
# Core modules, and texts that are searched for nowhere.
index.js | fs ⇒ core
index.js | fs/promises ⇒ core
index.js | node:x ⇒ core
index.js | fs/x ⇒ missing
index.js | ∅ ⇒ missing
index.js | /lib/x ⇒ missing
index.js | #u ⇒ missing
# Relative texts.
index.js | ./info.json ⇒ no code info.json
index.js | ./addon ⇒ no code addon.node
index.js | ./lib/x ⇒ lib/x
index.js | ./lib ⇒ lib/index.js
lib/deep/m.js | ../x.js ⇒ lib/x.js
lib/deep/m.js | .. ⇒ lib/index.js
index.js | ./lib/x/ ⇒ missing
index.js | ./node_modules/m ⇒ node_modules/m/lib/index.js
index.js | ./node_modules/p ⇒ node_modules/p/m.js
lib/x.js | ../../x ⇒ missing
# The names of packages.
index.js | @s/t ⇒ node_modules/@s/t/index.js
index.js | @s/t/x ⇒ node_modules/@s/t/x.js
index.js | @s/lone ⇒ node_modules/@s/lone.js
index.js | @s ⇒ missing
index.js | .dot ⇒ node_modules/.dot.js
index.js | @s//t/x ⇒ node_modules/@s/t/x.js
# The package's own name.
index.js | app/u ⇒ lib/u.js
lib/deep/m.js | app/u ⇒ lib/u.js
index.js | app/v ⇒ missing
index.js | app ⇒ missing
lib/array/m.js | app/u ⇒ lib/u.js
lib/own/m.js | app/u ⇒ missing
node_modules/q/index.js | app/u ⇒ missing
node_modules/q/index.js | app/v ⇒ node_modules/app/v.js
node_modules/app/v.js | app/v ⇒ node_modules/app/v.js
# The folders above.
index.js | n ⇒ node_modules/n/index.js
lib/deep/m.js | n ⇒ lib/node_modules/n/index.js
lib/node_modules/n/index.js | n ⇒ lib/node_modules/n/index.js
lib/deep/m.js | only ⇒ node_modules/only.js
node_modules/q/index.js | n/data ⇒ no code node_modules/n/data.json
node_modules/only.js | n/sub ⇒ no code node_modules/n/sub/index.node
index.js | n/ ⇒ node_modules/n/index.js
index.js | only/ ⇒ missing
index.js | n/../only ⇒ node_modules/only.js
index.js | absent ⇒ missing
# Folders with a main.
index.js | m ⇒ node_modules/m/lib/index.js
index.js | main_to_file ⇒ node_modules/main_to_file/start.js
index.js | main_to_nowhere ⇒ node_modules/main_to_nowhere/index.js
lib/x.js | dead_end ⇒ missing
index.js | dead_end ⇒ node_modules/dead_end/index.js
index.js | main_is_number ⇒ node_modules/main_is_number/index.js
index.js | main_is_empty ⇒ node_modules/main_is_empty/index.js
index.js | main_above ⇒ node_modules/main_above/index.js
index.js | bad_json ⇒ node_modules/bad_json/index.js
index.js | null_exports ⇒ node_modules/null_exports/index.js
# Exports by paths.
index.js | p/f/a ⇒ node_modules/p/f/a.js
index.js | p/f/x/a ⇒ node_modules/p/g/a.js
index.js | p ⇒ missing
index.js | p/n ⇒ missing
index.js | p/f/q ⇒ missing
index.js | p/f/ ⇒ missing
index.js | p/m.js ⇒ missing
index.js | text ⇒ node_modules/text/s.js
index.js | text/other.js ⇒ missing
index.js | mixed ⇒ missing
index.js | false_exports ⇒ missing
# Exports by lists and conditions.
index.js | list ⇒ node_modules/list/a.js
index.js | list/first ⇒ missing
index.js | list/none ⇒ missing
index.js | list/nothing ⇒ missing
index.js | when ⇒ node_modules/when/r.js
index.js | when/nested ⇒ node_modules/when/d.js
index.js | when/null ⇒ missing
index.js | when/never ⇒ missing
# Patterns and what they stand for.
index.js | stars/k ⇒ node_modules/stars/st*r.js
index.js | stars/z/a.js ⇒ node_modules/stars/2/a
index.js | stars/z/a.js.js ⇒ missing
index.js | stars/y/b ⇒ node_modules/stars/y/b/b.js
index.js | stars/data.data ⇒ no code node_modules/stars/data.json
index.js | stars/o ⇒ missing
index.js | stars/m ⇒ missing
index.js | stars/w/z ⇒ node_modules/stars/w/z.js
index.js | stars/w/a/../z ⇒ missing
index.js | stars/w/node_modules ⇒ missing
index.js | stars/d/x ⇒ missing
index.js | stars/out ⇒ missing
index.js | stars/q/r ⇒ missing
"#;

// The target of a text in a module: `MODULE | TEXT`. It takes less than 60 calls of the folder, and each of
// them is one that may fail.
pub(crate) fn require_answer(alloc: Global, row: &str) -> Result<String, Fail> {
    let (from, spec) = row.split_once(" | ").ok_or("a module")?;
    for failing in 1..=60 {
        if let Some(found) = resolved(alloc, from, spec, failing)? {
            return Ok(found);
        }
    }
    Err(Fail::from("60 calls and more"))
}

// The target of a text in the module at a path, where the call with this number fails. None where that
// gives a fault.
fn resolved(alloc: Global, from: &str, spec: &str, failing: u64) -> Result<Option<String>, Fail> {
    let mut folder = folder_of(alloc, FILES)?;
    folder.fail_at(List::of(vec![in alloc; failing]?));
    let from = ModulePath::read(alloc, from)?.ok_or("from")?;
    match resolve(alloc, &mut folder, &from, spec) {
        Ok(target) => Ok(Some(target_text(alloc, &target)?)),
        Err(ResolveFault::ReadFault) => Ok(None),
        Err(ResolveFault::OutOfMemory) => Err(Fail::from("memory")),
    }
}

// The files of a list. A line has the path of one, and behind it its text, which goes on on the lines
// behind it that begin with four spaces.
fn folder_of(alloc: Global, files: &str) -> Result<MemFolder, Fail> {
    let mut folder = MemFolder::new(alloc);
    let mut file = String::new(alloc);
    for line in files.lines() {
        if let Some(more) = line.strip_prefix("    ") {
            file.push_str(more)?;
            continue;
        }
        add_file(alloc, &mut folder, file.as_str())?;
        file = String::from_str(alloc, line)?;
    }
    add_file(alloc, &mut folder, file.as_str())?;
    Ok(folder)
}

fn add_file(alloc: Global, folder: &mut MemFolder, file: &str) -> Result<(), Fail> {
    if file.is_empty() {
        return Ok(());
    }
    let (path, text) = file.split_once(" ").unwrap_or((file, ""));
    add(alloc, folder, path, text)
}

const FILES: &str = r#"
index.js
info.json
addon.node
lib/u.js
lib/index.js
lib/x
lib/x.js
lib/deep/m.js
lib/node_modules/n/index.js
node_modules/n/index.js
node_modules/n/data.json
node_modules/n/sub/index.node
node_modules/only.js
node_modules/.dot.js
node_modules/@s/t/index.js
node_modules/@s/t/x.js
node_modules/@s/lone.js
node_modules/app/v.js
node_modules/m/lib/index.js
node_modules/main_to_file/start.js
node_modules/main_to_file/index.js
node_modules/main_to_nowhere/index.js
lib/node_modules/dead_end/other.js
node_modules/dead_end/index.js
node_modules/main_is_number/index.js
node_modules/main_is_empty/index.js
node_modules/main_above/index.js
node_modules/bad_json/index.js
node_modules/p/m.js
node_modules/p/f/a.js
node_modules/p/g/a.js
node_modules/p/n
node_modules/text/s.js
node_modules/text/other.js
node_modules/list/a.js
node_modules/list/b.js
node_modules/when/d.js
node_modules/when/r.js
node_modules/mixed/a.js
node_modules/null_exports/index.js
node_modules/false_exports/index.js
node_modules/stars/st*r.js
node_modules/stars/1/a.js
node_modules/stars/2/a
node_modules/stars/y/b/b.js
node_modules/stars/b.js
node_modules/stars/w/z.js
node_modules/stars/d/x
node_modules/stars/data.json
package.json {"name":"app","exports":{"./u":"./lib/u.js"}}
lib/array/package.json []
lib/own/package.json {"name":7}
node_modules/q/package.json {"name":"q"}
node_modules/m/package.json {"main":"./lib"}
node_modules/main_to_file/package.json {"main":"start"}
node_modules/main_to_nowhere/package.json {"main":"./absent"}
lib/node_modules/dead_end/package.json {"main":"./absent"}
node_modules/main_is_number/package.json {"main":7}
node_modules/main_is_empty/package.json {"main":""}
node_modules/main_above/package.json {"main":"../../../x"}
node_modules/bad_json/package.json {"main":"./absent"
node_modules/p/package.json {"main":"./m.js","exports":{"./f/*":"./f/*.js","./f/x/*":"./g/*.js","./n":null}}
node_modules/text/package.json {"exports":"./s.js"}
node_modules/list/package.json {"exports":{".":["../x",7,"./a.js"],"./first":["./absent.js","./b.js"],
    "./none":[],"./nothing":[{"import":"./a.js"}]}}
node_modules/when/package.json {"exports":{".":{"default":"./d.js","require":"./r.js","import":"./i.js"},
    "./nested":{"node":{"import":"./i.js"},"default":"./d.js"},
    "./null":{"node":null,"default":"./d.js"},"./never":{"import":"./d.js"}}}
node_modules/mixed/package.json {"exports":{".":"./a.js","require":"./a.js"}}
node_modules/null_exports/package.json {"exports":null}
node_modules/false_exports/package.json {"exports":false}
node_modules/stars/package.json {"exports":{"./k":"./st*r.js","./z/*":"./1/*","./z/*.js":"./2/*",
    "./y/*":"./y/*/*.js","./o":"./w/../b.js","./m":"./node_modules/b.js","./w/*":"./w/*.js",
    "./*/*":"./b.js","./d/":"./d/","./*.data":"./*.json","./out":"b.js"}}
"#;
