//! The line of what stands in brackets.
ghost use Rattle.std.specs.Prelude.{◌≡◌, ◌++◌, ◌∷◌, [], map, OnOk};
ghost use Rattle.js_tree.specs.Line.{given_marks, item_of, items};
ghost use Rattle.js_tree.specs.Spelling.Rows.{bracket_row, each_of, element_row, listed_row, maybe};

use crate::line::{LineItem, push_node, push_token};
use crate::line_list::push_possible;
use crate::lists::{Bracket, Element, Listed};
use crate::node::Node;
use crate::tree::{Expr, Slot};
use jam_base::OutOfMemory;
use sqlite_items::Boxed;

/// Adds arguments, where there are any.
pub fn push_arguments<'t>(
    args: &'t Option<Boxed<Bracket<Boxed<Expr>>>>,
    out: &mut Vec<LineItem<'t>>,
) -> Result<(), OutOfMemory>
    ensures { OnOk result (map item_of out.new.items ≡ map item_of out.old.items ++ maybe (bracket_row given_marks items.expr) args.now []) }
{
    match args {
        None => Ok(()),
        Some(args) => push_bracket(args.get(), out),
    }
}

/// Adds items in brackets.
pub fn push_bracket<'t>(
    bracket: &'t Bracket<Boxed<Expr>>,
    out: &mut Vec<LineItem<'t>>,
) -> Result<(), OutOfMemory>
    ensures { OnOk result (map item_of out.new.items ≡ map item_of out.old.items ++ bracket_row given_marks items.expr bracket.now []) }
{
    push_token(&bracket.open, out)?;
    push_front(bracket.front.as_slice(), out)?;
    push_last(&bracket.last, out)?;
    push_token(&bracket.close, out)
}

/// Adds the items that have a comma behind them.
pub fn push_front<'t>(
    front: &'t [Listed<Element<Boxed<Expr>>>],
    out: &mut Vec<LineItem<'t>>,
) -> Result<(), OutOfMemory>
    ensures { OnOk result (map item_of out.new.items ≡ map item_of out.old.items ++ each_of (listed_row given_marks (element_row given_marks items.expr)) front.now []) }
{
    for listed in front {
        push_listed(listed, out)?;
    }
    Ok(())
}

/// Adds an item and its comma.
pub fn push_listed<'t>(
    listed: &'t Listed<Element<Boxed<Expr>>>,
    out: &mut Vec<LineItem<'t>>,
) -> Result<(), OutOfMemory>
    ensures { OnOk result (map item_of out.new.items ≡ map item_of out.old.items ++ listed_row given_marks (element_row given_marks items.expr) listed.now []) }
{
    push_element(&listed.item, out)?;
    push_token(&listed.mark, out)
}

/// Adds the last item, where it has no comma.
pub fn push_last<'t>(
    last: &'t Option<Element<Boxed<Expr>>>,
    out: &mut Vec<LineItem<'t>>,
) -> Result<(), OutOfMemory>
    ensures { OnOk result (map item_of out.new.items ≡ map item_of out.old.items ++ maybe (element_row given_marks items.expr) last.now []) }
{
    match last {
        None => Ok(()),
        Some(last) => push_element(last, out),
    }
}

/// Adds an item with its dots.
pub fn push_element<'t>(
    element: &'t Element<Boxed<Expr>>,
    out: &mut Vec<LineItem<'t>>,
) -> Result<(), OutOfMemory>
    ensures { OnOk result (map item_of out.new.items ≡ map item_of out.old.items ++ element_row given_marks items.expr element.now []) }
{
    push_possible(&element.dots, out)?;
    push_node(Node::Expr(element.value.get()), out)
}

/// Adds items in brackets.
pub fn push_params<'t>(
    bracket: &'t Bracket<Slot>,
    out: &mut Vec<LineItem<'t>>,
) -> Result<(), OutOfMemory>
    ensures { OnOk result (map item_of out.new.items ≡ map item_of out.old.items ++ bracket_row given_marks items.slot bracket.now []) }
{
    push_token(&bracket.open, out)?;
    push_front_slots(bracket.front.as_slice(), out)?;
    push_last_slot(&bracket.last, out)?;
    push_token(&bracket.close, out)
}

/// Adds the items that have a comma behind them.
pub fn push_front_slots<'t>(
    front: &'t [Listed<Element<Slot>>],
    out: &mut Vec<LineItem<'t>>,
) -> Result<(), OutOfMemory>
    ensures { OnOk result (map item_of out.new.items ≡ map item_of out.old.items ++ each_of (listed_row given_marks (element_row given_marks items.slot)) front.now []) }
{
    for listed in front {
        push_listed_slot(listed, out)?;
    }
    Ok(())
}

/// Adds a parameter and its comma.
pub fn push_listed_slot<'t>(
    listed: &'t Listed<Element<Slot>>,
    out: &mut Vec<LineItem<'t>>,
) -> Result<(), OutOfMemory>
    ensures { OnOk result (map item_of out.new.items ≡ map item_of out.old.items ++ listed_row given_marks (element_row given_marks items.slot) listed.now []) }
{
    push_element_slot(&listed.item, out)?;
    push_token(&listed.mark, out)
}

/// Adds the last item, where it has no comma.
pub fn push_last_slot<'t>(
    last: &'t Option<Element<Slot>>,
    out: &mut Vec<LineItem<'t>>,
) -> Result<(), OutOfMemory>
    ensures { OnOk result (map item_of out.new.items ≡ map item_of out.old.items ++ maybe (element_row given_marks items.slot) last.now []) }
{
    match last {
        None => Ok(()),
        Some(last) => push_element_slot(last, out),
    }
}

/// Adds a parameter with its dots.
pub fn push_element_slot<'t>(
    element: &'t Element<Slot>,
    out: &mut Vec<LineItem<'t>>,
) -> Result<(), OutOfMemory>
    ensures { OnOk result (map item_of out.new.items ≡ map item_of out.old.items ++ element_row given_marks items.slot element.now []) }
{
    push_possible(&element.dots, out)?;
    push_node(Node::Slot(&element.value), out)
}
