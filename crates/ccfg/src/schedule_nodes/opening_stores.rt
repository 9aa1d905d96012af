//! The stores with which the nodes of a service begin.

ghost use Rattle.std.specs.Prelude.{◌≡◌, ◌+◌, length, IfOk, OnOk};
ghost use Rattle.gl_world.specs.AtStart.{StandAtStart};
ghost use Rattle.gl_world.specs.Group.{IsGroup};
ghost use Rattle.gl_world.specs.Keyed.{AreKeysOf, HasKeysOf, IsKeyOf};
ghost use Rattle.ccfg.specs.OpeningStores.{HaveOpened};
ghost use Rattle.gl_store_book.specs.Stands.{Stands};

use gl_hss::LmsKey;
use gl_store_book::StoreBook;
use gl_world::{Founding, NodeKey, ServiceKeys, Settings};
use sha2::{Digest, Sha256};
use std::alloc::{AllocError, Global};

/// Adds the store of the next node, which has this key and no entry yet.
fn add_joining(
    alloc: Global,
    settings: &Settings,
    books: &mut Vec<StoreBook>,
    node: NodeKey,
) -> Result<(), AllocError>
    requires joining { HaveOpened settings.now 0 books.old.items }
    requires node { IsKeyOf settings.now (length books.old.items + 1) node }
    ensures joining { OnOk result (HaveOpened settings.now 0 books.new.items) }
    ensures len { OnOk result (length books.new.items ≡ length books.old.items + 1) }
{
    let me = Sha256::digest(&node.key.public());
    let book = StoreBook::joining(alloc, me, node.key)?;
    books.push(book)?;
    Ok(())
}

/// The stores of all nodes with these keys, none of which has an entry yet.
fn joining_books(
    alloc: Global,
    settings: &Settings,
    keys: Vec<NodeKey>,
) -> Result<Vec<StoreBook>, AllocError>
    requires { AreKeysOf settings.now (length keys.items) keys.items }
    ensures joining { IfOk result (λ books. HaveOpened settings.now 0 books.items) }
    ensures len { IfOk result (λ books. length books.items ≡ length keys.items) }
{
    let mut books = Vec::new(alloc);
    for node in keys {
        add_joining(alloc, settings, &mut books, node)?;
    }
    Ok(books)
}

/// The stores with which the nodes of a service begin, in the order of their numbers: those of
/// nodes that start have the opening ledger, and those of nodes that join have no entry. Gives the
/// service's key back. It grows the key of each member. Fails only where memory runs out.
pub(crate) fn books(
    alloc: Global,
    settings: &Settings,
    keys: ServiceKeys,
) -> Result<(Vec<StoreBook>, LmsKey), AllocError>
    requires group { IsGroup settings.now }
    requires keys { HasKeysOf settings.now keys }
    ensures books { IfOk result (λ made. StandAtStart Stands settings.now made.0.items) }
    ensures service { IfOk result (λ made. made.1 ≡ keys.service) }
{
    let founding = Founding::make(alloc, settings, keys)?;
    let mut books = joining_books(alloc, settings, founding.keys)?;
    books[0].open(founding.genesis)?;
    for i in 1..settings.starting {
        let opened = books[0].ledger.copy()?;
        books[usize::from(i)].ledger = opened;
    }
    Ok((books, founding.service))
}
