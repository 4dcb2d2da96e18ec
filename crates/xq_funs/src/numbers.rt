//! Arithmetic on atomic values.
ghost use Rattle.std.specs.Prelude.{◌≡◌, ◌∷◌, [], true, length, List, Bool};
ghost use Rattle.xq_base.specs.declared.fun.Fun.{Fun};
ghost use Rattle.xq_base.specs.declared.code.Code.TheVariants.{FOAR0002};
ghost use Rattle.std.specs.Option.{ok_or};
ghost use Rattle.xq_base.specs.Answers.{with_value, then_rule, both_of};
ghost use Rattle.xq_base.specs.Arithmetic.{number_of, or_no_cast, checked, unless_zero, sum_of, difference_of, product_of, quotient_of, remainder_of};
ghost use Rattle.xq_base.specs.Texts.{Text, integer_in};
ghost use Rattle.doc_table.specs.Tree.{text_in};
ghost use Rattle.doc_table.specs.Given.{is_given};
ghost use Rattle.doc_table.specs.Values.{items_of};
ghost use Rattle.doc_table.specs.NodeRules.{Docs};
ghost use Rattle.doc_table.specs.Functions.{fun_answer};
ghost use Rattle.xq_base.specs.Arithmetic.{integer_list};
ghost use Rattle.xq_funs.specs.Answering.{answer_of, atom_in, atom_given};
ghost use Rattle.xq_funs.specs.Calls.{RuleGives, singles, calculated, changed, is_arithmetic, is_sign, gives_text};

use crate::codes::both;
use crate::computed::Computed;
use crate::fault::FunFault;
use crate::numerals::integer_in;
use xq_base::{Atom, Code, Fun, Pool, TextId};

/// An integer, or an untyped value that is cast to one.
pub(crate) fn number(atom: Atom, pool: &Pool) -> Result<i64, Code>
    requires { atom_given (length pool.now) atom ≡ true }
    ensures { answer_of result ≡ number_of (atom_in pool.now atom) }
{
    match atom {
        Atom::Int(number) => Ok(number),
        Atom::Untyped(text) => spelled_number(text, pool),
        _ => Err(Code::XPTY0004),
    }
}

/// The integer that an untyped value spells.
fn spelled_number(text: TextId, pool: &Pool) -> Result<i64, Code>
    requires { is_given (length pool.now) text ≡ true }
    ensures { answer_of result ≡ or_no_cast (integer_in (text_in pool.now text)) }
{
    match integer_in(pool.text(text)) {
        Some(number) => Ok(number),
        None => Err(Code::FORG0001),
    }
}

/// An operator on two integers (Functions and Operators, section 6.2), within 64 bits.
fn calculate(fun: Fun, y: i64, z: i64) -> Result<i64, Code>
    ensures { answer_of result ≡ calculated fun y z }
{
    match fun {
        Fun::Add => in_range(y.checked_add(z)),
        Fun::Subtract => in_range(y.checked_sub(z)),
        Fun::Multiply => in_range(y.checked_mul(z)),
        Fun::IntegerDivide if z == 0 => Err(Code::FOAR0001),
        Fun::IntegerDivide => in_range(y.checked_div(z)),
        Fun::Modulo if z == 0 => Err(Code::FOAR0001),
        Fun::Modulo if z == -1 => Ok(0),
        Fun::Modulo => Ok(y % z),
        _ => Err(Code::XPTY0004),
    }
}

/// A number, or an overflow.
fn in_range(number: Option<i64>) -> Result<i64, Code>
    ensures { result ≡ ok_or number FOAR0002 }
{
    match number {
        Some(number) => Ok(number),
        None => Err(Code::FOAR0002),
    }
}

/// An operator on two atomic values.
#[tactic(auto, using(crate::proofs::FunLaws::two_numbers))]
pub(crate) fn arithmetic(fun: Fun, a: Atom, b: Atom, pool: &Pool) -> Result<Computed, FunFault>
    requires fun { is_arithmetic fun ≡ true }
    requires given_a { atom_given (length pool.now) a ≡ true }
    requires given_b { atom_given (length pool.now) b ≡ true }
    ensures { (docs : Docs) → RuleGives (gives_text fun) pool.now (fun_answer docs fun (singles pool.now (a ∷ b ∷ []))) result }
{
    match both(number(a, pool), number(b, pool)) {
        Ok((y, z)) => as_number(calculate(fun, y, z)),
        Err(code) => Err(FunFault::Code(code)),
    }
}

/// A number as the value of a call.
pub(crate) fn as_number(number: Result<i64, Code>) -> Result<Computed, FunFault>
    ensures { (wants : Bool) (texts : List Text) → RuleGives wants texts (with_value items_of (with_value integer_list (answer_of number))) result }
{
    match number {
        Ok(number) => Ok(Computed::Number(number)),
        Err(code) => Err(FunFault::Code(code)),
    }
}

/// A sign, or the absolute value (Functions and Operators, sections 6.2.8 and 6.4.1).
fn change(fun: Fun, number: i64) -> Result<i64, Code>
    ensures { answer_of result ≡ changed fun number }
{
    match fun {
        Fun::Negate => in_range(number.checked_neg()),
        Fun::Abs => in_range(number.checked_abs()),
        _ => Err(Code::XPTY0004),
    }
}

/// An operator on one atomic value.
#[tactic(auto, using(crate::proofs::FunLaws::one_number))]
pub(crate) fn signed(fun: Fun, a: Atom, pool: &Pool) -> Result<Computed, FunFault>
    requires fun { is_sign fun ≡ true }
    requires given { atom_given (length pool.now) a ≡ true }
    ensures { (docs : Docs) → RuleGives (gives_text fun) pool.now (fun_answer docs fun (singles pool.now (a ∷ []))) result }
{
    match number(a, pool) {
        Ok(number) => as_number(change(fun, number)),
        Err(code) => Err(FunFault::Code(code)),
    }
}
