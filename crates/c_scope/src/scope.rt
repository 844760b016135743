//! Names in scope.

ghost use Rattle.std.specs.Prelude.{◌≡◌, ℕ, ◌<◌, ◌≤◌, [], false, get_or, IfOk, length, take};
ghost use Rattle.c_grammar.specs.Grammar.{is_type, starts_type, bind};
ghost use Rattle.c_scope.specs.Scopes.{Remembers, bindings};

use c_grammar::{Binding, Token};
use std::alloc::{AllocError, Global};
use std::marker::Model;

/// A declaration of a name: whether it made it one of a type, and whether it was one before.
#[derive(Clone, Copy)]
struct Declared {
    name: u32,
    is_type: bool,
    was_type: bool,
}

/// The declared names, in the order of the text. Contracts see them as that list; behind it a table tells what each name is now.
#[derive(Drop)]
pub struct Scope {
    kinds: Vec<bool>,
    declared: Vec<Declared>,
}

impl Model for Scope {
    ghost use Rattle.std.specs.Prelude.{List};
    ghost use Rattle.c_grammar.specs.declared.scope.Binding.{Binding};
    ghost use Rattle.c_scope.specs.Scopes.{Remembers, bindings};

    ghost Value = { List Binding };

    ghost view = { λ s. bindings s.declared.items };

    ghost invariant = { λ s. Remembers s.kinds.items s.declared.items };
}

/// Makes room for what a name is.
fn make_room(kinds: &mut Vec<bool>, name: usize) -> Result<(), AllocError>
    ensures same { (k : ℕ) → get_or kinds.new.items k false ≡ get_or kinds.old.items k false }
    ensures long { length kinds.old.items ≤ length kinds.new.items }
    ensures room { IfOk result (λ _. name < length kinds.new.items) }
{
    while kinds.len() <= name {
        kinds.push(false)?;
    }
    Ok(())
}

/// Takes back the declarations behind the mark.
fn take_back(kinds: &mut Vec<bool>, declared: &mut Vec<Declared>, mark: usize)
    requires { Remembers kinds.old.items declared.old.items }
    ensures remembers { Remembers kinds.new.items declared.new.items }
    ensures kept { bindings declared.new.items ≡ take mark (bindings declared.old.items) }
{
    while declared.len() > mark {
        if let Some(last) = declared.pop() {
            kinds[last.name as usize] = last.was_type;
        }
    }
}

impl Scope {
    /// No names.
    pub fn new(alloc: Global) -> Scope
        ensures { result ≡ [] }
    {
        Scope {
            kinds: Vec::new(alloc),
            declared: Vec::new(alloc),
        }
    }

    /// Whether the name is one of a type: its last declaration tells.
    #[tactic(auto, unfolding(c_grammar::specs::Grammar::is_type))]
    pub fn is_type(&self, name: u32) -> bool
        ensures { result ≡ is_type self.now name }
    {
        match self.kinds.get(name as usize) {
            Some(kind) => *kind,
            None => false,
        }
    }

    /// Whether specifiers begin here.
    pub fn starts_type(&self, tokens: &[Token]) -> bool
        ensures { result ≡ starts_type self.now tokens.now }
    {
        match tokens {
            [Token::Name(name), ..] => self.is_type(*name),
            [
                Token::Word(_) | Token::Struct | Token::Enum | Token::DescriptorOfRank,
                ..
            ] => true,
            _ => false,
        }
    }

    /// Declares a name, where there is one, as one of a type or of something else.
    pub fn bind(&mut self, name: Option<u32>, is_type: bool) -> Result<(), AllocError>
        ensures { IfOk result (λ _. self.new ≡ bind name is_type self.old) }
    {
        match name {
            None => Ok(()),
            Some(name) => {
                let was_type = self.is_type(name);
                make_room(&mut self.kinds, name as usize)?;
                self.declared.push(Declared {
                    name,
                    is_type,
                    was_type,
                })?;
                self.kinds[name as usize] = is_type;
                Ok(())
            }
        }
    }

    /// How many declarations there are: what `end` takes when a scope that begins here ends.
    #[tactic(auto, using(crate::proofs::Tables::length_bindings))]
    pub fn mark(&self) -> usize
        ensures { result ≡ length self.now }
    {
        self.declared.len()
    }

    /// Ends a scope: the declarations behind the mark are taken back.
    pub fn end(&mut self, mark: usize)
        ensures { self.new ≡ take mark self.old }
    {
        take_back(&mut self.kinds, &mut self.declared, mark);
    }
}
