//! The declared functions, by name and number of parameters.
ghost use Rattle.std.specs.Prelude.{◌≡◌, ◌++◌, ◌∷◌, [], OnOk, IfSome, length};
ghost use Rattle.core_scope.specs.Names as spec;

use crate::built_ins::built_in;
use crate::functions::plain_name;
use std::alloc::Global;
use std::collections::HashMap;
use std::marker::Model;
use xq_ast::leaf::Callee;
use xq_base::{Fun, Want};

/// A declared function: its name without `fn:`, and the number of its parameters.
#[derive(Clone, Copy)]
pub struct Declared<'a> {
    pub name: &'a [u8],
    pub arity: usize,
}

/// The declared functions, in their order.
#[derive(Drop)]
pub struct Functions<'a> {
    known: Vec<Declared<'a>>,
    numbers: HashMap<(&'a [u8], usize), u32>,
}

impl<'a> Model for Functions<'a> {
    ghost use Rattle.std.specs.Prelude.{◌≡◌, ◌&&◌, ℕ, List, map, nat_eq};
    ghost use Rattle.std.specs.HashMap.{get_by};
    ghost use Rattle.std.specs.Cmp.Lexicographic.{pointwise};
    ghost use Rattle.core_scope.specs.Names.{Signature, declared_from};
    ghost use Rattle.core_scope.specs.Held.{signature_in};

    ghost Value = { List Signature };

    ghost view = { λ f. map signature_in f.known.items };

    ghost invariant = { λ f. (x : List ℕ) (n : ℕ) → get_by (λ k. pointwise nat_eq x k.0.now && nat_eq n k.1) f.numbers ≡ declared_from 0 (map signature_in f.known.items) x n };
}

impl<'a> Functions<'a> {
    /// No function. It takes no memory.
    pub fn new(alloc: Global) -> Functions<'a>
        ensures { result ≡ [] }
    {
        Functions {
            known: Vec::new(alloc),
            numbers: HashMap::new(alloc),
        }
    }

    /// The number of the next function, if it fits 32 bits. It takes no memory.
    fn next(&self) -> Option<u32>
        ensures { IfSome result (λ n. n ≡ length self.now) }
    {
        if self.known.len() >= 4_294_967_295 {
            return None;
        }
        Some(self.known.len() as u32)
    }

    /// A function more.
    ///
    /// Errors: `Want`, where memory is wanting.
    pub fn push(&mut self, name: &'a [u8], arity: usize) -> Result<(), Want>
        ensures { OnOk result (self.new ≡ self.old ++ record { name = spec.plain_name name.now; arity = arity } ∷ []) }
    {
        let plain = plain_name(name);
        match self.next() {
            None => Err(Want),
            Some(number) => {
                self.push_plain(plain, arity, number)?;
                Ok(())
            }
        }
    }

    /// A function more by its name without `fn:`, with its number.
    fn push_plain(&mut self, plain: &'a [u8], arity: usize, number: u32) -> Result<(), Want>
        requires { number ≡ length self.old }
        ensures { OnOk result (self.new ≡ self.old ++ record { name = plain.now; arity = arity } ∷ []) }
    {
        self.known.reserve(1)?;
        match self.number(plain, arity) {
            None => {
                self.numbers.insert((plain, arity), number)?;
                self.known.push_reserved(Declared { name: plain, arity });
                Ok(())
            }
            Some(_) => {
                self.known.push_reserved(Declared { name: plain, arity });
                Ok(())
            }
        }
    }

    /// The number of the first declaration of a name and number of parameters. It takes no memory.
    fn number(&self, name: &'a [u8], arity: usize) -> Option<u32>
        ensures { result ≡ spec.declared_from 0 self.now name.now arity }
    {
        self.numbers.get(&(name, arity)).copied()
    }

    /// The function of a call by name and number of arguments, if there is one. It takes no memory.
    pub fn get(&self, name: &'a [u8], arity: usize) -> Option<Callee>
        ensures { result ≡ spec.function_of self.now name.now arity }
    {
        let plain = plain_name(name);
        called_of(built_in(plain, arity), self.number(plain, arity))
    }

    /// Whether there is a function of a name and a number of parameters. It takes no memory.
    pub fn has(&self, name: &'a [u8], arity: usize) -> bool
        ensures { result ≡ spec.is_taken self.now name.now arity }
    {
        match self.get(name, arity) {
            Some(_) => true,
            None => false,
        }
    }
}

fn called_of(known: Option<Fun>, declared: Option<u32>) -> Option<Callee>
    ensures { result ≡ spec.called_of known declared }
{
    match known {
        Some(f) => Some(Callee::Known(f)),
        None => match declared {
            Some(j) => Some(Callee::Declared(j)),
            None => None,
        },
    }
}
