//! What is found of expressions so far: the first refusal, calls of declared functions, references to
//! variables of the prolog.
ghost use Rattle.std.specs.Prelude.{◌≡◌, OnOk};
ghost use Rattle.core_scope.specs.Kept.{after, only_first};
ghost use Rattle.core_scope.specs.Walk as walk;

use crate::names::Visible;
use crate::refusal::{Refusal, earlier};
use std::alloc::Global;
use std::marker::Model;
use xq_ast::leaf::Callee;
use xq_base::{Code, Want};

/// A call of a declared function: its place, and the function's number.
#[derive(Clone, Copy, Debug, PartialEq, Eq)]
pub struct DeclaredCall {
    pub offset: u64,
    pub function: u32,
}

/// What is found so far.
#[derive(Drop)]
pub struct Found {
    pub first: Option<Refusal>,
    pub calls: Vec<DeclaredCall>,
    pub refers: Vec<u64>,
}

impl Model for Found {
    ghost use Rattle.core_scope.specs.Kept.{Kept};

    ghost Value = { Kept };

    ghost view = { λ f. record { first = f.first; calls = f.calls.items; refers = f.refers.items } };
}

impl Found {
    /// A first refusal, if there is one, and nothing else. It takes no memory.
    pub fn with_first(alloc: Global, first: Option<Refusal>) -> Found
        ensures { result ≡ only_first first }
    {
        Found {
            first,
            calls: Vec::new(alloc),
            refers: Vec::new(alloc),
        }
    }

    /// A refusal more. It takes no memory.
    #[tactic(auto, using(crate::proofs::Keeping::after_nothing, crate::proofs::Keeping::after_amiss, crate::proofs::Keeping::after_refers, crate::proofs::Keeping::after_call))]
    pub fn amiss(&mut self, code: Code, offset: u64)
        ensures { self.new ≡ after self.old (walk.amiss code offset) }
    {
        self.first = Some(earlier(Refusal { code, offset }, self.first));
    }

    /// A refusal more, where something is wrong. It takes no memory.
    #[tactic(auto, using(crate::proofs::Keeping::after_nothing, crate::proofs::Keeping::after_amiss, crate::proofs::Keeping::after_refers, crate::proofs::Keeping::after_call))]
    pub fn amiss_where(&mut self, wrong: bool, code: Code, offset: u64)
        ensures { self.new ≡ after self.old (walk.amiss_where wrong code offset) }
    {
        if wrong {
            self.amiss(code, offset);
        }
    }

    /// A reference to a variable, if there is one.
    ///
    /// Errors: `Want`, where memory is wanting.
    #[tactic(auto, using(crate::proofs::Keeping::after_nothing, crate::proofs::Keeping::after_amiss, crate::proofs::Keeping::after_refers, crate::proofs::Keeping::after_call))]
    pub fn reference(&mut self, v: Option<Visible>, offset: u64) -> Result<(), Want>
        ensures { OnOk result (self.new ≡ after self.old (walk.reference v offset)) }
    {
        match v {
            None => {
                self.amiss(Code::XPST0008, offset);
                Ok(())
            }
            Some(v) => self.refers_to(v.number),
        }
    }

    #[tactic(auto, using(crate::proofs::Keeping::after_nothing, crate::proofs::Keeping::after_amiss, crate::proofs::Keeping::after_refers, crate::proofs::Keeping::after_call))]
    fn refers_to(&mut self, number: Option<u64>) -> Result<(), Want>
        ensures { OnOk result (self.new ≡ after self.old (walk.refers_to number)) }
    {
        match number {
            None => Ok(()),
            Some(j) => {
                self.refers.push(j)?;
                Ok(())
            }
        }
    }

    /// A call of a function, if there is one.
    ///
    /// Errors: `Want`, where memory is wanting.
    #[tactic(auto, using(crate::proofs::Keeping::after_nothing, crate::proofs::Keeping::after_amiss, crate::proofs::Keeping::after_refers, crate::proofs::Keeping::after_call))]
    pub fn call(&mut self, callee: Option<Callee>, offset: u64) -> Result<(), Want>
        ensures { OnOk result (self.new ≡ after self.old (walk.call_facts callee offset)) }
    {
        match callee {
            None => {
                self.amiss(Code::XPST0017, offset);
                Ok(())
            }
            Some(Callee::Known(_)) => Ok(()),
            Some(Callee::Declared(function)) => {
                self.calls.push(DeclaredCall { offset, function })?;
                Ok(())
            }
        }
    }
}
