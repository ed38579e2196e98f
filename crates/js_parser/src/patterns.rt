//! Expressions as what is assigned to (ECMA-262, 12.15.5).
ghost use Rattle.std.specs.Prelude.{◌≡◌, ◌<◌, true};
ghost use Rattle.js_tree.specs.Spelling as seen;
ghost use Rattle.js_parser.specs.Patterns.{MakesPattern};

use crate::tall::Tall;
use js_tokens::TokenFault;
use js_tree::{Expr, Pattern};
use sqlite_items::Boxed;
use std::alloc::Global;

/// The target, which is of this height, as a pattern; every pattern and chain in it counts.
pub fn pattern_of(
    alloc: Global,
    target: Boxed<Expr>,
    height: u32,
) -> Result<Tall<Pattern>, TokenFault>
    requires sound { (seen.expr target).is_sound ≡ true }
    requires place { (seen.expr target).is_target ≡ true }
    requires height { height ≡ (seen.expr target).height }
    requires low { height < 4294967295 }
    ensures made { MakesPattern target result }
{
    match target.into_inner() {
        Expr::Name(name) => Ok(Tall {
            node: Pattern::Name(name),
            height: 1,
        }),
        Expr::Paren { open, inner, close } => {
            let inner = pattern_of(alloc, inner, height - 1)?;
            Ok(Tall {
                height: inner.height + 1,
                node: Pattern::Paren {
                    open,
                    inner: Boxed::new(alloc, inner.node)?,
                    close,
                },
            })
        }
        other => Ok(Tall {
            node: Pattern::Member {
                chain: Boxed::new(alloc, other)?,
            },
            height: height + 1,
        }),
    }
}
