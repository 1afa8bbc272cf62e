//! Libraries of modules, and their edits.
ghost use Rattle.std.specs.Prelude.{◌≡◌, [], Some, OnErr, position};
ghost use Rattle.m51_cells.specs.Outcome.{Gives};
ghost use Rattle.m51_module.specs.Library.{IsLibrary, is_named, refusal_of, clash, value_unless, others_than};
ghost use Rattle.m51_module.specs.Library.{with_replaced};
ghost use Rattle.m51_module.specs.Library.{added, deleted, replaced, raised_in, extracted, built};

use crate::members::{add_refusal_by, clash_with_others, index_of, raise_at, take_out};
use crate::public_names::PublicNames;
use crate::{LibError, Module};
use m51_cells::Name;
use std::alloc::Global;
use std::marker::Model;

/// A library, which contracts see as the list of its modules: at most 255, their names all different, and no name a
/// public of two of them.
///
/// Source: own choice ("Libraries").
#[derive(Drop)]
pub struct Library {
    members: Vec<Module>,
    // The names of the publics, kept from one addition to the next.
    names: PublicNames,
}

impl Model for Library {
    ghost use Rattle.std.specs.Prelude.{List};
    ghost use Rattle.m51_module.specs.declared.parts.ModuleParts.{ModuleParts};
    ghost use Rattle.m51_module.specs.WorkNames.{AreMembers};

    ghost Value = { List ModuleParts };

    ghost view = { λ l. l.members.items };

    ghost invariant = { λ l. AreMembers l.members.items l.names };
}

/// The library of these modules. It is refused as if they were added one by one to an empty one: at the first that
/// can't be added, by `B1`, then `Full`, then `B3`. Without memory for a table of names the result is the same, but
/// takes longer.
///
/// Source: own choice ("Libraries").
pub fn build(alloc: Global, modules: Vec<Module>) -> Result<Library, LibError>
    // Lack of memory is no error: each error is a refusal.
    ensures { Gives (λ l. l) Some result (built modules.items) }
{
    let mut names = PublicNames::none(alloc);
    for index in 0..modules.len() {
        match add_refusal_by(&names, &modules[..index], &modules[index]) {
            Some(refusal) => return Err(refusal),
            None => names = names.with(&modules[index]),
        }
    }
    Ok(Library {
        members: modules,
        names: PublicNames::unknown(),
    })
}

impl Library {
    /// The library of no modules. It allocates nothing.
    ///
    /// Source: own choice ("Libraries").
    pub fn empty(alloc: Global) -> Library
        ensures { result ≡ [] }
    {
        Library {
            members: Vec::new(alloc),
            names: PublicNames::unknown(),
        }
    }

    /// The modules, in order.
    ///
    /// Source: own choice ("Libraries").
    pub fn list(&self) -> &[Module]
        ensures list { result.now ≡ self.now }
        ensures library { IsLibrary self.now }
    {
        &self.members
    }

    /// Adds the module at the end. It is refused by `B1` where a module of its name is held, else by `Full` where 255
    /// are held, else by `B3` with its first public that a held module has. A module that is refused, or for which
    /// memory runs out, is dropped, and the library is as before.
    ///
    /// Source: own choice ("Libraries").
    pub fn add(&mut self, incoming: Module) -> Result<(), LibError>
        ensures answer { Gives (λ _. self.new) refusal_of result (added self.old incoming) }
        ensures kept { OnErr result (self.new ≡ self.old) }
    {
        let alloc = *self.members.allocator();
        let names = self.names.take(alloc, &self.members);
        match add_refusal_by(&names, &self.members, &incoming) {
            Some(refusal) => {
                self.names = names;
                Err(refusal)
            }
            None => {
                let more = names.with(&incoming);
                self.members.push(incoming)?;
                self.names = more;
                Ok(())
            }
        }
    }

    /// Removes the module of that name, and returns it. It is refused by `B2` where there is none, and the
    /// library is then as before. It allocates nothing.
    ///
    /// Source: own choice ("Libraries").
    pub fn delete(&mut self, name: &Name) -> Result<Module, LibError>
        // It allocates nothing: each error is a refusal.
        ensures answer { Gives (λ m. (m, self.new)) Some result (deleted self.old name.now) }
        ensures kept { OnErr result (self.new ≡ self.old) }
    {
        match index_of(&self.members, name) {
            Some(index) => {
                self.names = PublicNames::unknown();
                Ok(take_out(&mut self.members, index))
            }
            None => Err(LibError::B2 { name: *name }),
        }
    }

    /// Replaces the module of its name by this one, at the same index. It is refused by `B2` where there is none, else
    /// by `B3` with its first public that one of the others has. A module that is refused is dropped, and the library
    /// is as before. Without memory for a table of names the result is the same, but takes longer.
    ///
    /// Source: own choice ("Libraries").
    pub fn replace(&mut self, incoming: Module) -> Result<(), LibError>
        // Lack of memory is no error: each error is a refusal.
        ensures answer { Gives (λ _. self.new) Some result (replaced self.old incoming) }
        ensures kept { OnErr result (self.new ≡ self.old) }
    {
        let name = incoming.name();
        match index_of(&self.members, &name) {
            Some(index) => self.replace_at(index, incoming),
            None => Err(LibError::B2 { name }),
        }
    }

    /// Raises the module of that name to version 2, at its index. It is refused by `B2` where there is none, and the
    /// library is then as before. It allocates nothing.
    ///
    /// Source: own choice ("Argument segments").
    pub fn raise(&mut self, name: &Name) -> Result<(), LibError>
        // It allocates nothing: each error is a refusal.
        ensures answer { Gives (λ _. self.new) Some result (raised_in self.old name.now) }
        ensures kept { OnErr result (self.new ≡ self.old) }
    {
        match index_of(&self.members, name) {
            Some(index) => {
                self.names = PublicNames::unknown();
                raise_at(&mut self.members, index);
            }
            None => return Err(LibError::B2 { name: *name }),
        }
        Ok(())
    }

    /// A module that is equal to the one of that name. It is refused by `B2` where there is none; `Memory` is the only
    /// other error.
    ///
    /// Source: own choice ("Libraries").
    pub fn extract(&self, alloc: Global, name: &Name) -> Result<Module, LibError>
        ensures { Gives (λ m. m) refusal_of result (extracted self.now name.now) }
    {
        match index_of(&self.members, name) {
            Some(index) => Ok(self.members[index].copy(alloc)?),
            None => Err(LibError::B2 { name: *name }),
        }
    }

    // Puts the module at that index, where the one of its name is.
    fn replace_at(&mut self, index: usize, incoming: Module) -> Result<(), LibError>
        requires { position (is_named incoming.name) self.old ≡ Some index }
        ensures answer { Gives (λ _. self.new) Some result
            (value_unless (clash (others_than incoming.name self.old) incoming) (with_replaced incoming self.old)) }
        ensures kept { OnErr result (self.new ≡ self.old) }
    {
        let alloc = *self.members.allocator();
        let names = self.names.take(alloc, &self.members);
        let others = names.without(&self.members[index]);
        match clash_with_others(&others, &self.members, index, &incoming) {
            Some(refusal) => {
                self.names = others.with(&self.members[index]);
                Err(refusal)
            }
            None => {
                self.names = others.with(&incoming);
                self.members[index] = incoming;
                Ok(())
            }
        }
    }
}
