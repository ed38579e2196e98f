//! Items by commas in brackets, as they are read.
ghost use Rattle.std.specs.Prelude.{◌≡◌, ◌&&◌, is_some, not, OnOk};
ghost use Rattle.js_tree.specs.TokenKinds.{is};
ghost use Rattle.js_parser.specs.Brackets.{Puts};

use crate::kinds::are_same;
use js_tree::{Listed, Token, TokenKind};
use sqlite_items::Items;
use std::alloc::AllocError;

/// Whether a further item stands before the token, where this is the item without a comma so far.
pub fn goes_on<T>(last: &Option<T>, kind: TokenKind) -> bool
    ensures { result ≡ (not (is_some last.now) && not (is TokenKind.RightParen kind)) }
{
    match last {
        Some(_) => false,
        None => !are_same(TokenKind::RightParen, kind),
    }
}

/// Puts the item to the front with its comma, or takes it for the last.
pub fn put<T: Drop>(
    front: &mut Items<Listed<T>>,
    last: &mut Option<T>,
    item: T,
    comma: Option<Token>,
) -> Result<(), AllocError>
    ensures { OnOk result (Puts item comma front.old last.old front.new last.new) }
{
    match comma {
        Some(mark) => {
            front.push(Listed { item, mark })?;
        }
        None => {
            *last = Some(item);
        }
    }
    Ok(())
}
