//! Calls of operators and functions on single items.
ghost use Rattle.std.specs.Prelude.{◌≡◌, ◌∷◌, [], ◌||◌, ◌&&◌, true, not, Bool, Ok, List, length, take, IfOk, IfErr, OnErr};
ghost use Rattle.xq_base.specs.declared.item.TextId.{TextId};
ghost use Rattle.xq_base.specs.declared.item.FragKey.{FragKey};
ghost use Rattle.xq_base.specs.Texts.{Text};
ghost use Rattle.doc_table.specs.Tree.{Tree};
ghost use Rattle.doc_table.specs.Stores.{Holdings, AreGiven};
ghost use Rattle.doc_table.specs.Given.{trees_given};
ghost use Rattle.doc_table.specs.Documents.{documents_in};
ghost use Rattle.doc_table.specs.StoredItems.{ItemGiven, ItemsGiven};
ghost use Rattle.doc_table.specs.Items.{item_of};
ghost use Rattle.doc_table.specs.NodeRules.{Docs};
ghost use Rattle.doc_table.specs.Values.{item_of_atom};
ghost use Rattle.doc_table.specs.Functions.{fun_answer};
ghost use Rattle.xq_base.specs.declared.fun.Fun.{Fun};
ghost use Rattle.xq_funs.specs.Answering.{is_plain, atom_in, atom_given};
ghost use Rattle.xq_funs.specs.Calls.{Gives, RuleGives, values, is_unary, is_binary, is_ternary, gives_text, computed_in, computed_given, is_new_text};
ghost use Rattle.xq_funs.specs.NodeCalls.{is_of_node, is_naming, is_node_comparison};
ghost use Rattle.xq_funs.specs.CallRules.{is_call, is_constant, is_concat, is_connective, is_boolean, wants_memory};
ghost use Rattle.xq_funs.specs.declared.fault.FunFault.TheVariants.{NoMemory};

use crate::atoms::atomize;
use crate::computed::Computed;
use crate::concatenation::concatenation;
use crate::documents::call_document;
use crate::families::{is_binary, is_concat, is_node_comparison, is_unary};
use crate::fault::FunFault;
use crate::node_values::{call_kind, call_name};
use crate::nodes::{call_root, compare_nodes};
use crate::pairs::{atomize_three, atomize_two};
use crate::rules::{apply_one, apply_three, apply_two};
use doc_table::Store;
use std::alloc::Global;
use xq_base::{Atom, Code, Fun, Item, Pool};

/// The value of a function on single items (XQuery 1.0, section 3; Functions and Operators): of an
/// operator or function whose arguments are one item each, with as many arguments as it takes, and
/// for `and` and `or` of two booleans. Each argument is judged by itself; of several codes the one of
/// the earliest check is given. Where the arguments are integers and booleans alone and the function
/// gives no text, it takes no memory. The time is linear in the texts of the arguments.
///
/// Errors: the code that the function has for these arguments; `NoMemory`. The pool may then have
/// more texts.
pub fn call(
    alloc: Global,
    fun: Fun,
    args: &[Item],
    store: &Store,
    pool: &mut Pool,
) -> Result<Item, FunFault>
    requires fun { is_call fun args.now ≡ true }
    requires items { ItemsGiven pool.old store.now args.now }
    requires trees { trees_given (length pool.old) store.now ≡ true }
    requires names { AreGiven pool.old store.now.docs }
    ensures value { Gives (wants_memory fun args.now) pool.new store.now (fun_answer (documents_in pool.old store.now) fun (values pool.old store.now args.now)) result }
    ensures keeps { take (length pool.old) pool.new ≡ pool.old }
{
    if is_concat(fun) {
        return call_concat(alloc, args, store, pool);
    }
    match args {
        [] => Ok(constant(fun)),
        [a] => call_one(alloc, fun, *a, store, pool),
        [a, b] => call_two(alloc, fun, *a, *b, store, pool),
        [a, b, c] => call_three(alloc, fun, *a, *b, *c, store, pool),
        _ => unreachable!(),
    }
}

/// `true` and `false`.
fn constant(fun: Fun) -> Item
    requires { is_constant fun ≡ true }
    ensures { (wants : Bool) (texts : List Text) (h : Holdings) (docs : Docs) → Gives wants texts h (fun_answer docs fun []) (Ok result) }
{
    match fun {
        Fun::True => Item::Bool(true),
        Fun::False => Item::Bool(false),
        _ => unreachable!(),
    }
}

/// A call with one argument.
fn call_one(
    alloc: Global,
    fun: Fun,
    item: Item,
    store: &Store,
    pool: &mut Pool,
) -> Result<Item, FunFault>
    requires fun { (is_unary fun || is_of_node fun) ≡ true }
    requires item { ItemGiven pool.old store.now item }
    requires trees { trees_given (length pool.old) store.now ≡ true }
    requires names { AreGiven pool.old store.now.docs }
    ensures value { Gives (wants_memory fun (item ∷ [])) pool.new store.now (fun_answer (documents_in pool.old store.now) fun (values pool.old store.now (item ∷ []))) result }
    ensures keeps { take (length pool.old) pool.new ≡ pool.old }
{
    if is_unary(fun) {
        return call_atom(alloc, fun, item, store, pool);
    }
    call_node(alloc, fun, item, store, pool)
}

/// A call with one argument, which isn't atomised first.
fn call_node(
    alloc: Global,
    fun: Fun,
    item: Item,
    store: &Store,
    pool: &mut Pool,
) -> Result<Item, FunFault>
    requires fun { is_of_node fun ≡ true }
    requires item { ItemGiven pool.old store.now item }
    requires trees { trees_given (length pool.old) store.now ≡ true }
    requires names { AreGiven pool.old store.now.docs }
    ensures value { Gives (wants_memory fun (item ∷ [])) pool.new store.now (fun_answer (documents_in pool.old store.now) fun (values pool.old store.now (item ∷ []))) result }
    ensures keeps { take (length pool.old) pool.new ≡ pool.old }
{
    match fun {
        Fun::Root => call_root(item, store, pool),
        Fun::Doc => call_document(alloc, item, store, pool),
        Fun::IsKind(kind) => Ok(call_kind(kind, item, store, pool)),
        Fun::Name => give_name(alloc, fun, item, store, pool),
        Fun::LocalName => give_name(alloc, fun, item, store, pool),
        _ => unreachable!(),
    }
}

/// `name` and `local-name`.
fn give_name(
    alloc: Global,
    fun: Fun,
    item: Item,
    store: &Store,
    pool: &mut Pool,
) -> Result<Item, FunFault>
    requires fun { is_naming fun ≡ true }
    requires item { ItemGiven pool.old store.now item }
    requires trees { trees_given (length pool.old) store.now ≡ true }
    ensures value { (docs : Docs) → Gives true pool.new store.now (fun_answer docs fun (values pool.old store.now (item ∷ []))) result }
    ensures keeps { take (length pool.old) pool.new ≡ pool.old }
{
    match call_name(alloc, fun, item, store, pool) {
        Ok(value) => give(value, pool),
        Err(fault) => Err(fault),
    }
}

/// A call with one argument, which is atomised.
fn call_atom(
    alloc: Global,
    fun: Fun,
    item: Item,
    store: &Store,
    pool: &mut Pool,
) -> Result<Item, FunFault>
    requires fun { is_unary fun ≡ true }
    requires item { ItemGiven pool.old store.now item }
    requires trees { trees_given (length pool.old) store.now ≡ true }
    ensures value { (docs : Docs) → Gives (wants_memory fun (item ∷ [])) pool.new store.now (fun_answer docs fun (values pool.old store.now (item ∷ []))) result }
    ensures keeps { take (length pool.old) pool.new ≡ pool.old }
{
    let Ok(atom) = atomize(alloc, item, store, pool) else {
        return Err(FunFault::NoMemory);
    };
    match apply_one(alloc, fun, atom, pool) {
        Ok(value) => give(value, pool),
        Err(fault) => Err(fault),
    }
}

/// A call with two arguments.
fn call_two(
    alloc: Global,
    fun: Fun,
    a: Item,
    b: Item,
    store: &Store,
    pool: &mut Pool,
) -> Result<Item, FunFault>
    requires fun { (is_binary fun || (is_node_comparison fun || (is_connective fun && (is_boolean a && is_boolean b)))) ≡ true }
    requires a { ItemGiven pool.old store.now a }
    requires b { ItemGiven pool.old store.now b }
    requires trees { trees_given (length pool.old) store.now ≡ true }
    ensures value { (docs : Docs) → Gives (wants_memory fun (a ∷ b ∷ [])) pool.new store.now (fun_answer docs fun (values pool.old store.now (a ∷ b ∷ []))) result }
    ensures keeps { take (length pool.old) pool.new ≡ pool.old }
{
    if is_binary(fun) {
        return call_atoms(alloc, fun, a, b, store, pool);
    }
    if is_node_comparison(fun) {
        return compare_nodes(fun, a, b, store, pool);
    }
    Ok(connect(fun, a, b))
}

/// `and` and `or`.
fn connect(fun: Fun, a: Item, b: Item) -> Item
    requires { (is_connective fun && (is_boolean a && is_boolean b)) ≡ true }
    ensures { (wants : Bool) (texts : List Text) (h : Holdings) (docs : Docs) → Gives wants texts h (fun_answer docs fun (values texts h (a ∷ b ∷ []))) (Ok result) }
{
    match (fun, a, b) {
        (Fun::And, Item::Bool(a), Item::Bool(b)) => Item::Bool(a && b),
        (Fun::Or, Item::Bool(a), Item::Bool(b)) => Item::Bool(a || b),
        _ => unreachable!(),
    }
}

/// A call with two arguments, which are atomised.
fn call_atoms(
    alloc: Global,
    fun: Fun,
    a: Item,
    b: Item,
    store: &Store,
    pool: &mut Pool,
) -> Result<Item, FunFault>
    requires fun { is_binary fun ≡ true }
    requires a { ItemGiven pool.old store.now a }
    requires b { ItemGiven pool.old store.now b }
    requires trees { trees_given (length pool.old) store.now ≡ true }
    ensures value { (docs : Docs) → Gives (wants_memory fun (a ∷ b ∷ [])) pool.new store.now (fun_answer docs fun (values pool.old store.now (a ∷ b ∷ []))) result }
    ensures keeps { take (length pool.old) pool.new ≡ pool.old }
{
    let Ok((first, second)) = atomize_two(alloc, a, b, store, pool) else {
        return Err(FunFault::NoMemory);
    };
    match apply_two(alloc, fun, first, second, pool) {
        Ok(value) => give(value, pool),
        Err(fault) => Err(fault),
    }
}

/// A call with three arguments, which are atomised.
fn call_three(
    alloc: Global,
    fun: Fun,
    a: Item,
    b: Item,
    c: Item,
    store: &Store,
    pool: &mut Pool,
) -> Result<Item, FunFault>
    requires fun { is_ternary fun ≡ true }
    requires a { ItemGiven pool.old store.now a }
    requires b { ItemGiven pool.old store.now b }
    requires c { ItemGiven pool.old store.now c }
    requires trees { trees_given (length pool.old) store.now ≡ true }
    ensures value { (docs : Docs) → Gives (wants_memory fun (a ∷ b ∷ c ∷ [])) pool.new store.now (fun_answer docs fun (values pool.old store.now (a ∷ b ∷ c ∷ []))) result }
    ensures keeps { take (length pool.old) pool.new ≡ pool.old }
{
    let Ok((first, second, third)) = atomize_three(alloc, a, b, c, store, pool) else {
        return Err(FunFault::NoMemory);
    };
    match apply_three(alloc, fun, first, second, third, pool) {
        Ok(value) => give(value, pool),
        Err(fault) => Err(fault),
    }
}

/// `concat`.
fn call_concat(
    alloc: Global,
    args: &[Item],
    store: &Store,
    pool: &mut Pool,
) -> Result<Item, FunFault>
    requires items { ItemsGiven pool.old store.now args.now }
    requires trees { trees_given (length pool.old) store.now ≡ true }
    ensures value { (docs : Docs) → Gives true pool.new store.now (fun_answer docs Fun.Concat (values pool.old store.now args.now)) result }
    ensures keeps { take (length pool.old) pool.new ≡ pool.old }
{
    match concatenation(alloc, args, store, pool) {
        Ok(text) => give(Computed::Text(text), pool),
        Err(fault) => Err(fault),
    }
}

/// A computed value as an item; a new text gets a number.
fn give(value: Computed, pool: &mut Pool) -> Result<Item, FunFault>
    requires { computed_given (length pool.old) value ≡ true }
    ensures value { IfOk result (λ item. (trees : FragKey → Tree TextId) → item_of pool.new trees item ≡ item_of_atom (computed_in pool.old value)) }
    ensures given { IfOk result (λ item. (h : Holdings) → ItemGiven pool.new h item) }
    ensures err { IfErr result (λ e. e ≡ NoMemory) }
    ensures memory { OnErr result (is_new_text value ≡ true) }
    ensures keeps { take (length pool.old) pool.new ≡ pool.old }
{
    match value {
        Computed::Number(number) => Ok(Item::Int(number)),
        Computed::Truth(truth) => Ok(Item::Bool(truth)),
        Computed::Text(text) => match pool.intern(text.as_str()) {
            Ok(id) => Ok(Item::Str(id)),
            Err(_) => Err(FunFault::NoMemory),
        },
        Computed::Untyped(text) => match pool.intern(text.as_str()) {
            Ok(id) => Ok(Item::Untyped(id)),
            Err(_) => Err(FunFault::NoMemory),
        },
        Computed::Same(atom) => Ok(item_of(atom)),
    }
}

/// An atomic value as an item.
fn item_of(atom: Atom) -> Item
    ensures value { (texts : List Text) (trees : FragKey → Tree TextId) → item_of texts trees result ≡ item_of_atom (atom_in texts atom) }
    ensures given { (texts : List Text) (h : Holdings) → atom_given (length texts) atom ≡ true → ItemGiven texts h result }
{
    match atom {
        Atom::Int(n) => Item::Int(n),
        Atom::Str(id) => Item::Str(id),
        Atom::Untyped(id) => Item::Untyped(id),
        Atom::Bool(b) => Item::Bool(b),
    }
}
