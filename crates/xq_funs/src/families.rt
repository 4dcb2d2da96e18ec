//! Functions by their arguments.
ghost use Rattle.std.specs.Prelude.{◌≡◌};
ghost use Rattle.xq_funs.specs.Calls.{is_unary, is_binary};
ghost use Rattle.xq_funs.specs.NodeCalls.{is_node_comparison};
ghost use Rattle.xq_funs.specs.CallRules.{is_concat};

use xq_base::Fun;

/// Whether a function has one atomic value.
pub(crate) fn is_unary(fun: Fun) -> bool
    ensures { result ≡ is_unary fun }
{
    match fun {
        Fun::Negate | Fun::Abs => true,
        Fun::XsInteger | Fun::XsString | Fun::XsBoolean | Fun::XsUntypedAtomic => true,
        Fun::CastTo(_) => true,
        Fun::StringOf | Fun::Atomize => true,
        Fun::StringLength | Fun::NormalizeSpace | Fun::QName | Fun::PiTarget => true,
        _ => false,
    }
}

/// Whether a function has two atomic values.
pub(crate) fn is_binary(fun: Fun) -> bool
    ensures { result ≡ is_binary fun }
{
    match fun {
        Fun::Add | Fun::Subtract | Fun::Multiply | Fun::IntegerDivide | Fun::Modulo => true,
        Fun::Eq | Fun::Ne | Fun::Lt | Fun::Le | Fun::Gt | Fun::Ge => true,
        Fun::Contains | Fun::StartsWith | Fun::EndsWith => true,
        Fun::SubstringBefore | Fun::SubstringAfter | Fun::Substring | Fun::Compare => true,
        _ => false,
    }
}

/// Whether a function compares two nodes.
pub(crate) fn is_node_comparison(fun: Fun) -> bool
    ensures { result ≡ is_node_comparison fun }
{
    match fun {
        Fun::Is | Fun::Before | Fun::After => true,
        _ => false,
    }
}

/// Whether a function is `concat`.
pub(crate) fn is_concat(fun: Fun) -> bool
    ensures { result ≡ is_concat fun }
{
    match fun {
        Fun::Concat => true,
        _ => false,
    }
}
