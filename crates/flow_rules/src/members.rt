//! The flows of calls of members that pass on a call, take out of their object or put into it.
ghost use Rattle.std.specs.Prelude.{◌≡◌, ◌<◌, ◌++◌, [], length, OnOk, Some, if◌then◌else◌, codes};
ghost use Rattle.std.specs.List.{flat_map};
ghost use Rattle.std.specs.Str.{bytes_eq};
ghost use Rattle.flow_rules.specs.declared.vertex.Vertex.TheVariants as vertex;
ghost use Rattle.flow_rules.specs.Calls as flows;

use crate::arguments::Argument;
use crate::calls::push_arguments;
use crate::flow::{push_flow, push_plain};
use crate::values::takes_out;
use crate::{Flow, Vertex};
use jam_base::{OutOfMemory, Text};
use js_scopes::is_reflected;
use std::alloc::Global;

/// Adds what a call of a member of this name or none passes on and takes out, where its value is the
/// expression with this number.
pub(crate) fn push_member(
    alloc: Global,
    offset: u32,
    number: u32,
    object: &Option<Vertex>,
    args: &[Argument],
    member: &Option<Text>,
    out: &mut Vec<Flow>,
) -> Result<(), OutOfMemory>
    requires { length args.now < 4294967296 }
    ensures { OnOk result (out.new.items ≡ out.old.items ++ flows.member_flows offset number object.now args.now member.now) }
{
    match member {
        None => Ok(()),
        Some(name) => {
            let name = name.as_str();
            push_reflected(alloc, offset, number, object, args, name, out)?;
            push_taken(alloc, offset, number, name, out)
        }
    }
}

// The call that `call`, `apply` or `bind` passes on, and its values.
fn push_reflected(
    alloc: Global,
    offset: u32,
    number: u32,
    object: &Option<Vertex>,
    args: &[Argument],
    name: &str,
    out: &mut Vec<Flow>,
) -> Result<(), OutOfMemory>
    requires { length args.now < 4294967296 }
    ensures { OnOk result (out.new.items ≡ out.old.items ++ flows.reflected_flows offset number object.now args.now name.now) }
{
    if !is_reflected(name) {
        return Ok(());
    }
    push_flow(alloc, object, Vertex::Callee { offset, part: 1 }, out)?;
    push_passed(alloc, offset, args, name, out)?;
    let first = Some(Vertex::Res { offset, part: 0 });
    push_flow(alloc, &first, Vertex::Exp { number }, out)?;
    let second = Some(Vertex::Res { offset, part: 1 });
    push_flow(alloc, &second, Vertex::Exp { number }, out)?;
    push_bound(alloc, number, object, name, out)
}

// The receiver and the arguments of the call that is passed on.
fn push_passed(
    alloc: Global,
    offset: u32,
    args: &[Argument],
    name: &str,
    out: &mut Vec<Flow>,
) -> Result<(), OutOfMemory>
    requires { length args.now < 4294967296 }
    ensures { OnOk result (out.new.items ≡ out.old.items ++ flows.passed_flows offset args.now name.now) }
{
    push_receiver(alloc, offset, args, out)?;
    if name == "apply" {
        return push_flow(
            alloc,
            &Some(Vertex::Elem),
            Vertex::More { offset, part: 1 },
            out,
        );
    }
    push_arguments(alloc, offset, 1, behind_receiver(args), out)
}

// A plain first argument is the receiver.
fn push_receiver(
    alloc: Global,
    offset: u32,
    args: &[Argument],
    out: &mut Vec<Flow>,
) -> Result<(), OutOfMemory>
    ensures { OnOk result (out.new.items ≡ out.old.items ++ flows.receiver_flows offset args.now) }
{
    match args.first() {
        None => Ok(()),
        Some(first) => push_plain(alloc, first, Vertex::Recv { offset, part: 1 }, out),
    }
}

// What stands behind it.
fn behind_receiver(args: &[Argument]) -> &[Argument]
    ensures { result.now ≡ flows.behind_receiver args.now }
{
    match args {
        [Argument::Plain(_), others @ ..] => others,
        _ => args,
    }
}

// `bind` also gives the function itself.
fn push_bound(
    alloc: Global,
    number: u32,
    object: &Option<Vertex>,
    name: &str,
    out: &mut Vec<Flow>,
) -> Result<(), OutOfMemory>
    ensures { OnOk result (out.new.items ≡ out.old.items ++ flows.bound_flows number object.now name.now) }
{
    if name == "bind" {
        return push_flow(alloc, object, Vertex::Exp { number }, out);
    }
    Ok(())
}

// `pop` and `shift` give an element.
fn push_taken(
    alloc: Global,
    offset: u32,
    number: u32,
    name: &str,
    out: &mut Vec<Flow>,
) -> Result<(), OutOfMemory>
    ensures { OnOk result (out.new.items ≡ out.old.items ++ flows.taken_flows offset number name.now) }
{
    if !takes_out(name) {
        return Ok(());
    }
    let result = Some(Vertex::Res { offset, part: 0 });
    push_flow(alloc, &result, Vertex::Exp { number }, out)?;
    push_flow(alloc, &Some(Vertex::Elem), Vertex::Exp { number }, out)
}

/// Adds the plain arguments that a call of a member of this name or none puts in.
pub(crate) fn push_put(
    alloc: Global,
    args: &[Argument],
    member: &Option<Text>,
    out: &mut Vec<Flow>,
) -> Result<(), OutOfMemory>
    ensures { OnOk result (out.new.items ≡ out.old.items ++ flows.any_put_flows args.now member.now) }
{
    match member {
        None => Ok(()),
        Some(name) => push_put_by(alloc, args, name.as_str(), out),
    }
}

fn push_put_by(
    alloc: Global,
    args: &[Argument],
    name: &str,
    out: &mut Vec<Flow>,
) -> Result<(), OutOfMemory>
    ensures { OnOk result (out.new.items ≡ out.old.items ++ flows.put_flows args.now name.now) }
{
    if puts_in(name) {
        return push_elements(alloc, args, out);
    }
    Ok(())
}

// The member puts its plain arguments in.
fn puts_in(name: &str) -> bool
    ensures { result ≡ flows.puts_in name.now }
{
    name == "push" || name == "unshift"
}

// Each plain argument is an element.
fn push_elements(alloc: Global, args: &[Argument], out: &mut Vec<Flow>) -> Result<(), OutOfMemory>
    ensures { OnOk result (out.new.items ≡ out.old.items ++ flat_map (λ a. flows.flow (flows.plain a) (Some vertex.Elem)) args.now) }
{
    for argument in args {
        push_plain(alloc, argument, Vertex::Elem, out)?;
    }
    Ok(())
}
