//! One pass over the declarations of a prolog.
ghost use Rattle.std.specs.Prelude.{◌≡◌, ◌++◌, ◌∷◌, [], OnOk, IfOk, Some, length};
ghost use Rattle.core_scope.specs.PassedBy.{passed_in};
ghost use Rattle.core_scope.specs.Gathering as spec;
ghost use Rattle.core_scope.specs.Held.{names_in};
ghost use Rattle.core_scope.specs.Kept.{only_first};
ghost use Rattle.core_scope.specs.Names.{no_names, with_name};
ghost use Rattle.core_scope.specs.Open as opens;
ghost use Rattle.core_scope.specs.Open.{open_in};

use crate::bindings::Bindings;
use crate::checks::types_amiss;
use crate::found::{DeclaredCall, Found};
use crate::names::{Names, Visible};
use crate::refusal::Refusal;
use crate::signatures::Functions;
use crate::walk::walk;
use sqlite_items::{Boxed, Items};
use std::alloc::Global;
use std::marker::Model;
use xq_ast::leaf::{Name, ReadType, Variable};
use xq_ast::node::{AsRead, Node};
use xq_ast::query::{Declaration, Param};
use xq_base::{Code, Want};

/// What is found of a declared function: the place of its `declare`, its calls and its references.
#[derive(Drop)]
pub struct Gained {
    pub offset: u64,
    pub calls: Vec<DeclaredCall>,
    pub refers: Vec<u64>,
}

/// What is found of declarations: the first refusal, the functions, and the calls in the values of the
/// variables.
#[derive(Drop)]
pub struct Gathered {
    pub first: Option<Refusal>,
    pub functions: Vec<Gained>,
    pub variables: Vec<Vec<DeclaredCall>>,
}

impl Model for Gathered {
    ghost use Rattle.std.specs.Prelude.{map};
    ghost use Rattle.core_scope.specs.Gathering as spec;

    ghost Value = { spec.Gathered };

    ghost view = { λ g. record { first = g.first; functions = map (λ f. record { offset = f.offset; calls = f.calls.items; refers = f.refers.items }) g.functions.items; variables = map (λ v. v.items) g.variables.items } };
}

impl Gathered {
    /// A first refusal, if there is one, and nothing else. It takes no memory.
    pub fn with_first(alloc: Global, first: Option<Refusal>) -> Gathered
        ensures { result ≡ spec.none_gathered first }
    {
        Gathered {
            first,
            functions: Vec::new(alloc),
            variables: Vec::new(alloc),
        }
    }

    /// A function more.
    fn add_function(&mut self, offset: u64, found: Found) -> Result<(), Want>
        ensures { OnOk result (self.new ≡ spec.with_function offset found self.old) }
    {
        let Found {
            first,
            calls,
            refers,
        } = found;
        self.functions.push(Gained {
            offset,
            calls,
            refers,
        })?;
        self.first = first;
        Ok(())
    }

    /// The first refusal so far. It takes no memory.
    fn first_so_far(&self) -> Option<Refusal>
        ensures { result ≡ self.now.first }
    {
        self.first
    }

    /// The number of the next variable. It takes no memory.
    fn next_variable(&self) -> u64
        ensures { result ≡ length self.now.variables }
    {
        self.variables.len() as u64
    }

    /// The body, behind all declarations. It takes no memory.
    fn add_body(&mut self, found: Found)
        ensures { self.new ≡ record { first = found.first; functions = self.old.functions; variables = self.old.variables } }
    {
        let Found { first, .. } = found;
        self.first = first;
    }

    /// A variable more.
    fn add_variable(&mut self, found: Found) -> Result<(), Want>
        ensures { OnOk result (self.new ≡ spec.with_variable found self.old) }
    {
        let Found { first, calls, .. } = found;
        self.variables.push(calls)?;
        self.first = first;
        Ok(())
    }
}

/// What is told of a parameter behind others, which is entered.
fn walk_param<'a>(
    param: &'a Param<Name<Items<u8>>, ReadType>,
    seen: &mut Names<'a>,
    names: &mut Bindings<'a>,
    found: &mut Found,
) -> Result<(), Want>
    ensures found { OnOk result (found.new ≡ spec.told_params (param.now ∷ []) (names_in seen.old) found.old) }
    ensures seen { OnOk result (names_in seen.new ≡ with_name param.now.var.name.text (Some (opens.local_at param.now.var.offset)) (names_in seen.old)) }
    ensures names { OnOk result (open_in names.new ≡ opens.entered_variable param.now.var (open_in names.old)) }
{
    let name = param.var.name.text.as_slice();
    found.amiss_where(seen.has(name), Code::XQST0039, param.var.offset);
    types_amiss(&param.ty, found);
    seen.set(
        name,
        Some(Visible {
            place: param.var.offset,
            number: None,
        }),
    )?;
    names.enter_variable(&param.var)
}

/// What is told of parameters, which are entered.
fn walk_params<'a>(
    params: &'a [Param<Name<Items<u8>>, ReadType>],
    names: &mut Bindings<'a>,
    found: &mut Found,
) -> Result<(), Want>
    ensures found { OnOk result (found.new ≡ spec.told_params params.now no_names found.old) }
    ensures names { OnOk result (open_in names.new ≡ spec.entered_params params.now (open_in names.old)) }
{
    let mut seen = Names::new(names.alloc());
    for param in params {
        walk_param(param, &mut seen, names, found)?;
    }
    Ok(())
}

/// What is told of a declared function.
#[tactic(auto, using(crate::proofs::Passing::left_params))]
fn walk_function<'a>(
    name: &'a Name<Items<u8>>,
    params: &'a [Param<Name<Items<u8>>, ReadType>],
    ty: &'a Option<ReadType>,
    body: &'a Boxed<Node<AsRead>>,
    functions: &Functions<'a>,
    before: &Functions<'a>,
    names: &mut Bindings<'a>,
    found: &mut Found,
) -> Result<(), Want>
    ensures found { OnOk result (found.new ≡ spec.told_function functions.now before.now name.now params.now ty.now body.now (open_in names.old) found.old) }
    ensures names { OnOk result (open_in names.new ≡ open_in names.old) }
{
    let taken = before.has(name.text.as_slice(), params.len());
    found.amiss_where(taken, Code::XQST0034, name.offset);
    let mark = names.depth();
    walk_params(params, names, found)?;
    types_amiss(ty, found);
    walk(body.get(), functions, names, found)?;
    names.leave_to(mark)
}

/// What is told of a variable of the prolog.
fn walk_variable<'a>(
    variable: &'a Variable<Name<Items<u8>>>,
    ty: &'a Option<ReadType>,
    value: &'a Boxed<Node<AsRead>>,
    functions: &Functions<'a>,
    names: &mut Bindings<'a>,
    found: &mut Found,
) -> Result<(), Want>
    ensures found { OnOk result (found.new ≡ spec.told_variable functions.now variable.now ty.now value.now (open_in names.old) found.old) }
    ensures names { OnOk result (open_in names.new ≡ open_in names.old) }
{
    let repeats = names.has(variable.name.text.as_slice());
    found.amiss_where(repeats, Code::XQST0049, variable.offset);
    types_amiss(ty, found);
    walk(value.get(), functions, names, found)
}

/// Passes a variable of the prolog by, which is entered behind its declaration.
fn pass_variable<'a>(
    variable: &'a Variable<Name<Items<u8>>>,
    ty: &'a Option<ReadType>,
    value: &'a Boxed<Node<AsRead>>,
    functions: &Functions<'a>,
    names: &mut Bindings<'a>,
    gathered: &mut Gathered,
) -> Result<(), Want>
    ensures names { OnOk result (open_in names.new ≡ opens.entered variable.now.name.text (opens.global_at variable.now.offset (length gathered.old.variables)) (open_in names.old)) }
    ensures gathered { OnOk result (gathered.new ≡ spec.with_variable (spec.told_variable functions.now variable.now ty.now value.now (open_in names.old) (only_first gathered.old.first)) gathered.old) }
{
    let mut found = Found::with_first(names.alloc(), gathered.first_so_far());
    walk_variable(variable, ty, value, functions, names, &mut found)?;
    let number = gathered.next_variable();
    names.enter(
        variable.name.text.as_slice(),
        Visible {
            place: variable.offset,
            number: Some(number),
        },
    )?;
    gathered.add_variable(found)?;
    Ok(())
}

/// What is passed by of declarations.
#[derive(Drop)]
pub struct Passed<'a> {
    pub before: Functions<'a>,
    pub names: Bindings<'a>,
    pub gathered: Gathered,
}

/// Passes a declaration by.
fn pass<'a>(
    declaration: &'a Declaration<Items<u8>, Name<Items<u8>>, ReadType, Node<AsRead>>,
    functions: &Functions<'a>,
    passed: &mut Passed<'a>,
) -> Result<(), Want>
    ensures { OnOk result (passed_in passed.new ≡ spec.passed functions.now declaration.now (passed_in passed.old)) }
{
    match declaration {
        Declaration::Fun(offset, name, params, ty, body) => {
            let mut found = Found::with_first(passed.names.alloc(), passed.gathered.first);
            let params = params.as_slice();
            walk_function(
                name,
                params,
                ty,
                body,
                functions,
                &passed.before,
                &mut passed.names,
                &mut found,
            )?;
            passed.before.push(name.text.as_slice(), params.len())?;
            passed.gathered.add_function(*offset, found)
        }
        Declaration::Var(_, variable, ty, value) => {
            pass_variable(
                variable,
                ty,
                value,
                functions,
                &mut passed.names,
                &mut passed.gathered,
            )?;
            Ok(())
        }
    }
}

/// Passes the declarations of a prolog by, behind a first refusal.
pub fn pass_all<'a>(
    alloc: Global,
    declarations: &'a [Declaration<Items<u8>, Name<Items<u8>>, ReadType, Node<AsRead>>],
    functions: &Functions<'a>,
    first: Option<Refusal>,
) -> Result<Passed<'a>, Want>
    ensures { IfOk result (λ p. passed_in p ≡ spec.passed_all functions.now declarations.now (spec.none_passed first)) }
{
    let mut passed = Passed {
        before: Functions::new(alloc),
        names: Bindings::new(alloc),
        gathered: Gathered::with_first(alloc, first),
    };
    for declaration in declarations {
        pass(declaration, functions, &mut passed)?;
    }
    Ok(passed)
}

/// Passes the body of a query by, behind its declarations.
fn pass_body<'a>(
    body: &'a Boxed<Node<AsRead>>,
    functions: &Functions<'a>,
    passed: &mut Passed<'a>,
) -> Result<(), Want>
    ensures { OnOk result ((passed_in passed.new).gathered ≡ spec.with_body functions.now body.now (passed_in passed.old)) }
{
    let mut found = Found::with_first(passed.names.alloc(), passed.gathered.first);
    walk(body.get(), functions, &mut passed.names, &mut found)?;
    passed.gathered.add_body(found);
    Ok(())
}

/// What is found of a query, whose body stands behind the declarations.
pub fn with_body<'a>(
    body: &'a Boxed<Node<AsRead>>,
    functions: &Functions<'a>,
    passed: Passed<'a>,
) -> Result<Gathered, Want>
    ensures { IfOk result (λ g. g ≡ spec.with_body functions.now body.now (passed_in passed.entry)) }
{
    let mut passed = passed;
    pass_body(body, functions, &mut passed)?;
    let Passed { gathered, .. } = passed;
    Ok(gathered)
}

/// The declared functions of a prolog.
pub fn functions_of<'a>(
    alloc: Global,
    declarations: &'a [Declaration<Items<u8>, Name<Items<u8>>, ReadType, Node<AsRead>>],
) -> Result<Functions<'a>, Want>
    ensures { IfOk result (λ fs. fs ≡ spec.signatures_at declarations.now) }
{
    let mut functions = Functions::new(alloc);
    for declaration in declarations {
        add_signature(declaration, &mut functions)?;
    }
    Ok(functions)
}

/// The signature of a declaration more, if it declares a function.
fn add_signature<'a>(
    declaration: &'a Declaration<Items<u8>, Name<Items<u8>>, ReadType, Node<AsRead>>,
    functions: &mut Functions<'a>,
) -> Result<(), Want>
    ensures { OnOk result (functions.new ≡ functions.old ++ spec.signatures_at (declaration.now ∷ [])) }
{
    match declaration {
        Declaration::Fun(_, name, params, _, _) => {
            functions.push(name.text.as_slice(), params.len())
        }
        Declaration::Var(_, _, _, _) => Ok(()),
    }
}
