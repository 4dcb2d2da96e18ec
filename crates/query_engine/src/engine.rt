//! From a query's text to its Core, and from the Core to the answer's bytes.
ghost use Rattle.std.specs.Prelude.{◌≡◌, ℕ, List, [], length, slice_get, true, Option, Some};
ghost use Rattle.core_meaning.specs.Erasure.{core_of};
ghost use Rattle.core_meaning.specs.ExprOf.{expr_of};
ghost use Rattle.core_normal.specs.Outcomes.{IsScoped};
ghost use Rattle.core_scope.specs.Leaves.{query_read, query_resolved};
ghost use Rattle.core_scope.specs.Refusals.{accepted};
ghost use Rattle.xq_parser.specs.Query.{Faults};
ghost use Rattle.xq_types.specs.TypeOf.{IsLawful};
ghost use Rattle.query_engine.specs.Evaluated.{CanEvaluate, IsFixed, IsFixedQuery};
ghost use Rattle.query_engine.specs.Answering.{Accepts, IsRefused, IsStatic, IsRead, FailsBy, GivesBy, Compiles, IsOfScoped, IsOfQuery, of_core, Answers, Meaning, Means};
ghost use Rattle.doc_table.specs.Documents.{documents_in};
ghost use Rattle.doc_table.specs.OtherTexts.{Grows};
ghost use Rattle.xq_base.specs.declared.code.Code.{Code};
ghost use Rattle.doc_table.specs.NodeRules.{Docs};
ghost use Rattle.doc_table.specs.Given.{trees_given};
ghost use Rattle.doc_table.specs.Stores.{AreGiven};

use crate::evaluate::{EvalFault, Evaluator};
use crate::forms::{has_forms, is_evaluated};
use core_meaning::Core;
use core_normal::{NormFault, normalise};
use core_scope::{ScopeFault, resolve};
use doc_table::Store;
use std::alloc::Global;
use thiserror::Error;
use xq_ast::node::{AsRead, AsResolved};
use xq_ast::query::Query;
use xq_base::{Code, Pool};
use xq_parser::{ParseFault, parse};
use xq_serial::{SerialFault, serialise};
use xq_types::{TypeFault, Typed, type_of};

/// Why a query isn't compiled.
#[derive(Debug, Drop, Error)]
pub enum CompileFault {
    #[error("want of memory")]
    NoMemory,
    /// The static rules refuse the query, in this order: XPST0003 where the text is no query, PFRC0003 where
    /// it nests too deep and PFRC0004 where it has a construct that is left out, without a place; the first
    /// refusal of a name, a function, a type's name, a number or a declaration, at its place; PFRC0002 where
    /// the Core is too large, without a place; XPTY0004 at the least place that types refuse; PFRC0004 where
    /// a form isn't evaluated, or both a sum and a call of `doc` are there, without a place.
    #[error("the query is refused")]
    Refused { code: Code, offset: Option<u64> },
}

/// Why a query has no answer.
#[derive(Debug, Drop, Error)]
pub enum AnswerFault {
    #[error("want of memory")]
    NoMemory,
    /// The first failure: XPTY0004 or FOAR0002 at the first byte of a sum, FODC0002 at a call of `doc`
    /// that names no document; or SENR0001 without a place where an attribute is to be written.
    #[error("the evaluation fails")]
    Dynamic { code: Code, offset: Option<u64> },
}

/// The refusal of a text that wasn't read.
#[tactic(auto, using(crate::proofs::Compiling::unread_syntax, crate::proofs::Compiling::unread_deep, crate::proofs::Compiling::unread_left))]
fn unread(fault: ParseFault) -> CompileFault
    ensures { (text : List ℕ) → Faults text fault → FailsBy (IsStatic text) result }
{
    let code = match fault {
        ParseFault::NoMemory => return CompileFault::NoMemory,
        ParseFault::Syntax => Code::XPST0003,
        ParseFault::TooDeep(_) => Code::PFRC0003,
        ParseFault::LeftOut(_) => Code::PFRC0004,
    };
    CompileFault::Refused { code, offset: None }
}

/// The typed Core, where types refuse nothing and it is evaluated.
fn compile_core(alloc: Global, core: Core, pool: &Pool) -> Result<Typed, CompileFault>
    requires lawful { IsLawful core }
    requires fixed { IsFixed pool.now core }
    ensures { GivesBy (λ static. static ≡ of_core (core_of pool.now core)) pool.now result }
{
    match type_of(alloc, core) {
        Err(TypeFault::NoMemory) => Err(CompileFault::NoMemory),
        Err(TypeFault::Refused { offset }) => Err(CompileFault::Refused {
            code: Code::XPTY0004,
            offset: Some(offset),
        }),
        Ok(typed) => {
            if is_evaluated(typed.core(), pool) {
                Ok(typed)
            } else {
                Err(CompileFault::Refused {
                    code: Code::PFRC0004,
                    offset: None,
                })
            }
        }
    }
}

/// The typed Core of a query whose names are resolved.
fn compile_resolved(
    alloc: Global,
    query: &Query<AsResolved>,
    pool: &Pool,
) -> Result<Typed, CompileFault>
    requires scoped { IsScoped query.now }
    requires fixed { IsFixedQuery pool.now query.now }
    requires first { slice_get pool.now 0 ≡ Some [] }
    ensures { GivesBy (IsOfScoped (accepted (query_resolved pool.now query.now))) pool.now result }
{
    match normalise(alloc, query) {
        Err(NormFault::NoMemory) => Err(CompileFault::NoMemory),
        Err(NormFault::TooLarge { .. }) => Err(CompileFault::Refused {
            code: Code::PFRC0002,
            offset: None,
        }),
        Ok(core) => compile_core(alloc, core, pool),
    }
}

/// The typed Core of a query.
fn compile_query(
    alloc: Global,
    query: &Query<AsRead>,
    pool: &mut Pool,
) -> Result<Typed, CompileFault>
    requires read { IsRead query.now }
    ensures core { GivesBy (IsOfQuery (query_read query.now)) pool.new result }
    ensures keeps { Grows pool.old pool.new }
{
    // The texts begin with the empty one: the pool has it, and asking for its number tells so.
    if pool.intern("").is_err() {
        return Err(CompileFault::NoMemory);
    }
    match resolve(alloc, query, pool) {
        Err(ScopeFault::NoMemory) => Err(CompileFault::NoMemory),
        Err(ScopeFault::Refused { code, offset }) => Err(CompileFault::Refused {
            code,
            offset: Some(offset),
        }),
        Ok(resolved) => compile_resolved(alloc, &resolved, pool),
    }
}

/// Reads a query and checks it by the static rules (XQuery 1.0, sections 2.2.3.1 and 2.3.1). The
/// pool gets the texts of its names and literals; earlier numbers keep their texts.
///
/// `text` is the query in UTF-8, of the whole language. What is evaluated is a part of it: integers,
/// variables, sequences, sums, loops and bindings, and `doc` of a string.
///
/// Errors: the refusal, or want of memory.
pub fn compile(alloc: Global, text: &[u8], pool: &mut Pool) -> Result<Typed, CompileFault>
    ensures core { Compiles text.now pool.new result }
    ensures keeps { Grows pool.old pool.new }
{
    match parse(alloc, text) {
        Ok(query) => compile_query(alloc, &query, pool),
        Err(fault) => Err(unread(fault)),
    }
}

/// The same of the Core.
fn answer_core(
    alloc: Global,
    core: &Core,
    store: &Store,
    pool: &Pool,
) -> Result<Vec<u8>, AnswerFault>
    requires core { CanEvaluate pool.now core.now }
    requires trees { trees_given (length pool.now) store.now ≡ true }
    requires names { AreGiven pool.now store.now.docs }
    ensures { Answers (documents_in pool.now store.now) (expr_of (core_of pool.now core.now)) result }
{
    let sums = has_forms(true, core, pool);
    let evaluator = Evaluator {
        alloc,
        store,
        pool,
        sums,
    };
    match evaluator.eval(core, 0, &[]) {
        Err(fault) => match fault {
            EvalFault::NoMemory => Err(AnswerFault::NoMemory),
            EvalFault::Reached(failed) => Err(AnswerFault::Dynamic {
                code: failed.code,
                offset: Some(failed.offset),
            }),
        },
        Ok(found) => match serialise(alloc, found.items.as_slice(), store, pool) {
            Ok(bytes) => Ok(bytes),
            Err(fault) => match fault {
                SerialFault::NoMemory => Err(AnswerFault::NoMemory),
                SerialFault::Attribute { .. } => Err(AnswerFault::Dynamic {
                    code: Code::SENR0001,
                    offset: None,
                }),
            },
        },
    }
}

/// The serialisation of the value of a query's Core over the documents of a store, or its first
/// failure (XQuery 1.0, section 2.3.2; which of several failures: own rule).
///
/// Errors: the failure, or want of memory.
pub fn answer(
    alloc: Global,
    query: &Typed,
    store: &Store,
    pool: &Pool,
) -> Result<Vec<u8>, AnswerFault>
    requires core { CanEvaluate pool.now query.now }
    requires trees { trees_given (length pool.now) store.now ≡ true }
    requires names { AreGiven pool.now store.now.docs }
    ensures { Answers (documents_in pool.now store.now) (expr_of (core_of pool.now query.now)) result }
{
    answer_core(alloc, query.core(), store, pool)
}

/// A text has at most one meaning over documents, and the static rules either refuse it or accept it.
pub fn one_meaning()
    ensures either { (text : List ℕ) (code : Code) (place : Option ℕ) → IsRefused text code place → Accepts text → ⊥ }
    ensures one { (docs : Docs) (text : List ℕ) (a b : Meaning) → Means docs text a → Means docs text b → a ≡ b }
{}
