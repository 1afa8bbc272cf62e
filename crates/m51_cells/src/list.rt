//! Lists in types that contracts compare.
ghost use Rattle.std.specs.Prelude.{◌≡◌, ◌==◌, [], ◌∷◌, ◌++◌, length, IfOk, OnOk, OnErr};

use crate::{Name, NoMemory};
use std::alloc::Global;
use std::marker::Model;

/// A list, which contracts see as the list of its items: a `Vec` without its capacity. Each list type of this project
/// is it under a name of its own, the plural of its element.
///
/// Source: own choice ("Lists in types").
#[derive(Drop)]
pub struct ListOf<T> {
    items: Vec<T>,
}

impl<T> Model for ListOf<T> {
    ghost use Rattle.std.specs.Prelude.{List};

    ghost Value = { List T };

    ghost view = { λ l. l.items.items };
}

impl<T> ListOf<T> {
    /// The empty list. It allocates nothing.
    ///
    /// Source: own choice ("Lists in types").
    pub fn new(alloc: Global) -> ListOf<T>
        ensures { result ≡ [] }
    {
        ListOf {
            items: Vec::new(alloc),
        }
    }

    /// The list of these items. It allocates nothing.
    ///
    /// Source: own choice ("Lists in types").
    pub fn of(items: Vec<T>) -> ListOf<T>
        ensures { result ≡ items.items }
    {
        ListOf { items }
    }

    /// The items, by value. It allocates nothing.
    ///
    /// Source: own choice ("Lists in types").
    pub fn into_vec(self) -> Vec<T>
        ensures { result.items ≡ self }
    {
        let ListOf { items } = self;
        items
    }

    /// The items, borrowed.
    ///
    /// Source: own choice ("Lists in types").
    pub fn as_slice(&self) -> &[T]
        ensures { result.now ≡ self.now }
    {
        &self.items
    }

    /// The number of items.
    ///
    /// Source: own choice ("Lists in types").
    pub fn len(&self) -> usize
        ensures { result ≡ length self.now }
    {
        self.items.len()
    }

    /// Whether there is no item.
    ///
    /// Source: own choice ("Lists in types").
    pub fn is_empty(&self) -> bool
        ensures { result ≡ (length self.now == 0) }
    {
        self.items.is_empty()
    }

    /// Appends an item.
    ///
    /// Error: out of memory; the list is then as before, and the item is dropped.
    ///
    /// Source: own choice ("Lists in types").
    pub fn push(&mut self, item: T) -> Result<(), NoMemory>
    where
        T: Drop,
        ensures ok { OnOk result (self.new ≡ self.old ++ item ∷ []) }
        ensures err { OnErr result (self.new ≡ self.old) }
    {
        self.items.push(item)?;
        Ok(())
    }
}

/// Bytes, which contracts see as a list.
///
/// Source: own choice ("Lists in types").
pub type Bytes = ListOf<u8>;

/// A copy of these bytes.
///
/// Error: out of memory.
///
/// Source: own choice ("Lists in types").
pub fn copy_of(alloc: Global, bytes: &[u8]) -> Result<Bytes, NoMemory>
    ensures { IfOk result (λ copy. copy ≡ bytes.now) }
{
    Ok(Bytes::of(Vec::from_slice(alloc, bytes)?))
}

/// Names, which contracts see as a list.
///
/// Source: own choice ("Lists in types").
pub type Names = ListOf<Name>;
