//! A program of which it is known what its statements say of names.

ghost use Rattle.std.specs.Prelude.{◌≡◌, ◌<◌, [], IfOk, Decides, Some, slice_get};
ghost use Rattle.std.specs.Option.{option_copied};
ghost use Rattle.f_items.specs.Accessible.{Stands, IsRenamed, is_public_access};
ghost use Rattle.f_items.specs.declared.item.Item.TheVariants.{ImportsAll};
ghost use Rattle.f_scope.specs.Program.{Outline};
ghost use Rattle.f_scope.specs.Tables.{entry_at, table_at};
ghost use Rattle.f_stated.specs.Said.{access_at, default_at, first_of};
ghost use Rattle.f_stated.specs.Stated.{AreStated, public_by, NamesImport};

use crate::said::{Saying, access_of, default_of, renaming_key};
use crate::tables::said_tables;
use f_items::Access;
use f_scope::{Placed, Program, Table, entry_in};
use std::alloc::{AllocError, Global};
use std::marker::Model;

/// A program with what its statements say of names. Contracts see it as its items.
#[derive(Drop)]
pub struct Stated {
    program: Program,
    access: Vec<Table>,
    defaults: Vec<Table>,
    imports: Vec<Table>,
    whole_imports: Vec<Table>,
    renamings: Vec<Table>,
}

impl Model for Stated {
    ghost use Rattle.f_scope.specs.Program.{Outline};
    ghost use Rattle.f_stated.specs.Stated.{AreStated};

    ghost Value = { Outline };

    ghost view = { λ s. s.program };

    ghost invariant = { λ s. AreStated s.program s.access.items s.defaults.items s.imports.items s.whole_imports.items s.renamings.items };
}

/// Where a scope says something of a name first.
fn first_in(tables: &[Table], scope: usize, name: &[u8]) -> Option<usize>
    ensures { result ≡ first_of (entry_at name.now (table_at tables.now scope)) }
{
    match entry_in(tables, scope, name) {
        None => None,
        Some(entry) => Some(entry.first),
    }
}

/// The accessibility that is said of a name at a place.
fn access_at(items: &[Placed], place: Option<usize>) -> Option<Access>
    ensures { result ≡ access_at items.now place }
{
    match place {
        None => None,
        Some(place) => access_of(items.get(place)),
    }
}

/// The accessibility that is said of all other names at a place.
fn default_at(items: &[Placed], place: Option<usize>) -> Option<Access>
    ensures { result ≡ default_at items.now place }
{
    match place {
        None => None,
        Some(place) => default_of(items.get(place)),
    }
}

fn is_public_access(access: Access) -> bool
    ensures { result ≡ is_public_access access }
{
    match access {
        Access::Public => true,
        Access::Private => false,
    }
}

/// Whether a name is public by what is said of it and of all other names.
fn public_by(said: Option<Access>, other: Option<Access>) -> bool
    ensures { result ≡ public_by said other }
{
    match said {
        Some(access) => is_public_access(access),
        None => match other {
            Some(access) => is_public_access(access),
            None => true,
        },
    }
}

fn stated_of(
    program: Program,
    access: Vec<Table>,
    defaults: Vec<Table>,
    imports: Vec<Table>,
    whole_imports: Vec<Table>,
    renamings: Vec<Table>,
) -> Stated
    requires { AreStated program access.items defaults.items imports.items whole_imports.items renamings.items }
    ensures { result ≡ program }
{
    Stated {
        program,
        access,
        defaults,
        imports,
        whole_imports,
        renamings,
    }
}

impl Stated {
    /// The program.
    pub fn program(&self) -> &Program
        ensures { result.now ≡ self.now }
    {
        &self.program
    }

    /// Whether the name is public in the module with this scope (ISO/IEC 1539-1:2018, 8.5.2 and 8.6.1).
    pub fn is_public(&self, scope: usize, name: &[u8]) -> bool
        requires { scope < self.now.scopes }
        ensures { result ≡ Rattle.f_items.specs.Accessible.is_public self.now.items scope name.now }
    {
        let parts = self.program.parts();
        let said = access_at(parts.items, first_in(self.access.as_slice(), scope, name));
        let other = default_at(parts.items, first_in(self.defaults.as_slice(), scope, &[]));
        public_by(said, other)
    }

    /// Whether an IMPORT statement of the scope has the name (8.8).
    pub fn imports_name(&self, scope: usize, name: &[u8]) -> bool
        requires { scope < self.now.scopes }
        ensures { Decides result (NamesImport self.now.items scope name.now) }
    {
        first_in(self.imports.as_slice(), scope, name).is_some()
    }

    /// Whether an IMPORT statement of the scope has no names, and so imports all (8.8).
    pub fn imports_all(&self, scope: usize) -> bool
        requires { scope < self.now.scopes }
        ensures { Decides result (Stands self.now.items scope ImportsAll) }
    {
        first_in(self.whole_imports.as_slice(), scope, &[]).is_some()
    }

    /// Whether the USE statements of the scope for this module give what the module calls `used` another name (14.2.2).
    pub fn is_renamed(
        &self,
        alloc: Global,
        scope: usize,
        module_name: &[u8],
        used: &[u8],
    ) -> Result<bool, AllocError>
        requires { scope < self.now.scopes }
        ensures { IfOk result (λ is. Decides is (IsRenamed self.now.items scope module_name.now used.now)) }
    {
        let key = renaming_key(alloc, module_name, used)?;
        Ok(first_in(self.renamings.as_slice(), scope, key.as_slice()).is_some())
    }
}

/// Looks up what a program's statements say of names. It takes time in proportion to the items.
pub fn state(alloc: Global, program: Program) -> Result<Stated, AllocError>
    ensures { IfOk result (λ stated. stated ≡ program) }
{
    let parts = program.parts();
    let access = said_tables(alloc, parts.scopes, Saying::Access, parts.items)?;
    let defaults = said_tables(alloc, parts.scopes, Saying::DefaultAccess, parts.items)?;
    let imports = said_tables(alloc, parts.scopes, Saying::Import, parts.items)?;
    let whole_imports = said_tables(alloc, parts.scopes, Saying::WholeImport, parts.items)?;
    let renamings = said_tables(alloc, parts.scopes, Saying::Renaming, parts.items)?;
    Ok(stated_of(program, access, defaults, imports, whole_imports, renamings))
}
