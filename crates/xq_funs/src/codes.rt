//! Codes of arguments that are judged each by itself.
ghost use Rattle.std.specs.Prelude.{◌≡◌, Bool};
ghost use Rattle.xq_base.specs.Answers.{check_rank, earlier, both_of};
ghost use Rattle.xq_funs.specs.Answering.{answer_of};

use xq_base::Code;

/// The place of a code among the checks of one evaluation.
fn check_rank(code: Code) -> u8
    ensures { result ≡ check_rank code }
{
    match code {
        Code::XPTY0004 => 0,
        Code::FORG0001 => 1,
        Code::FORG0006 => 2,
        Code::FOAR0001 => 3,
        Code::FOAR0002 => 4,
        Code::XPTY0019 => 5,
        Code::XPTY0018 => 6,
        Code::XPTY0020 => 7,
        Code::XPDY0050 => 8,
        Code::XPDY0002 => 9,
        Code::FODC0002 => 10,
        Code::FORG0003 => 11,
        Code::FORG0004 => 12,
        Code::FORG0005 => 13,
        Code::FOER0000 => 14,
        Code::XQDY0074 => 15,
        Code::XQDY0041 => 16,
        Code::XQDY0064 => 17,
        Code::XQTY0024 => 18,
        Code::XQDY0025 => 19,
        Code::XQDY0072 => 20,
        Code::XQDY0026 => 21,
        _ => 22,
    }
}

/// The code of the earlier check.
pub(crate) fn earlier(d: Code, e: Code) -> Code
    ensures { result ≡ earlier d e }
{
    if check_rank(e) < check_rank(d) { e } else { d }
}

/// Two values, each judged by itself.
pub(crate) fn both<A: Copy, B: Copy>(y: Result<A, Code>, z: Result<B, Code>) -> Result<(A, B), Code>
    ensures { answer_of result ≡ both_of (answer_of y) (answer_of z) }
{
    match (y, z) {
        (Ok(y), Ok(z)) => Ok((y, z)),
        (Ok(_), Err(e)) => Err(e),
        (Err(d), Ok(_)) => Err(d),
        (Err(d), Err(e)) => Err(earlier(d, e)),
    }
}
