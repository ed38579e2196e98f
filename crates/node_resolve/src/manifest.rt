//! What a package.json says.
ghost use Rattle.std.specs.Prelude.{◌≡◌, ◌≢◌, IfOk, IfSome, codes};
ghost use Rattle.std.specs.Option.{option_map, option_and_then};
ghost use Rattle.serde_json.specs.Find.{as_str, get};
ghost use Rattle.serde_json.specs.View.{view};
ghost use Rattle.json_value.specs.Bytes.{json_of};
ghost use Rattle.jam_base.specs.Path.{join_of};
ghost use Rattle.node_resolve.specs.Causes.{HasResolveCause};
ghost use Rattle.node_resolve.specs.Manifests as manifests;
ghost use Rattle.node_resolve.specs.Targets as targets;

use crate::ResolveFault;
use jam_base::{Folder, ModulePath, OutOfMemory, ReadFailed};
use json_value::read_value;
use serde_json::Value;
use std::alloc::Global;

// The bytes of the file at a path, where there is one.
fn bytes_at<F: Folder>(
    alloc: Global,
    folder: &mut F,
    path: Option<ModulePath>,
) -> Result<Option<Vec<u8>>, ResolveFault>
    ensures found { IfOk result (λ found. IfSome (F.files folder.old) (λ m. option_map (λ v. v.items) found ≡ manifests.bytes_at m path)) }
    ensures same { F.files folder.new ≡ F.files folder.old }
    ensures cause { HasResolveCause (F.faults folder.old) (F.faults folder.new) result }
{
    let Some(path) = path else {
        return Ok(None);
    };
    match folder.read(alloc, &path) {
        Ok(found) => Ok(found),
        Err(ReadFailed::Failed) => Err(ResolveFault::ReadFault),
        Err(ReadFailed::OutOfMemory) => Err(ResolveFault::OutOfMemory),
    }
}

// The JSON object that bytes are, where there are any.
fn object_in(alloc: Global, bytes: Option<Vec<u8>>) -> Result<Option<Value>, OutOfMemory>
    ensures { IfOk result (λ found. option_map view found
        ≡ option_and_then manifests.object_of (option_and_then json_of (option_map (λ v. v.items) bytes))) }
{
    let Some(bytes) = bytes else {
        return Ok(None);
    };
    match read_value(alloc, bytes.as_slice())? {
        Some(value) if value.is_object() => Ok(Some(value)),
        _ => Ok(None),
    }
}

/// The package.json of a folder. One that is no JSON object counts as absent.
#[tactic(auto, unfolding(crate::specs::Manifests::manifest_at))]
pub(crate) fn manifest_at<F: Folder>(
    alloc: Global,
    folder: &mut F,
    at: &ModulePath,
) -> Result<Option<Value>, ResolveFault>
    ensures found { IfOk result (λ found. IfSome (F.files folder.old) (λ m. option_map view found ≡ manifests.manifest_at m at.now)) }
    ensures same { F.files folder.new ≡ F.files folder.old }
    ensures cause { HasResolveCause (F.faults folder.old) (F.faults folder.new) result }
{
    let path = at.join(alloc, "package.json")?;
    let bytes = bytes_at(alloc, folder, path)?;
    Ok(object_in(alloc, bytes)?)
}

// The text of a member.
fn text_in<'v>(value: &'v Value, name: &str) -> Option<&'v str>
    ensures { option_map (λ text. text.now) result ≡ option_and_then as_str (get name.now (view value.now)) }
{
    match value.get(name) {
        Some(member) => member.as_str(),
        None => None,
    }
}

/// The `main`, where it is a text that isn't empty.
pub(crate) fn main_in(manifest: &Value) -> Option<&str>
    ensures { option_map (λ text. text.now) result ≡ manifests.main_in (view manifest.now) }
{
    match text_in(manifest, "main") {
        Some(text) if !text.is_empty() => Some(text),
        _ => None,
    }
}

/// The `exports`, where they are there and not null.
pub(crate) fn exports_in(manifest: &Value) -> Option<&Value>
    ensures { option_map (λ v. view v.now) result ≡ manifests.exports_in (view manifest.now) }
{
    match manifest.get("exports") {
        Some(exports) if !exports.is_null() => Some(exports),
        _ => None,
    }
}

/// Whether the `name` is this text.
pub(crate) fn has_name(manifest: &Value, name: &str) -> bool
    ensures { result ≡ targets.is_text (manifests.name_in (view manifest.now)) name.now }
{
    match text_in(manifest, "name") {
        Some(text) => text == name,
        None => false,
    }
}
