//! How many nodes a Core has.
ghost use Rattle.std.specs.Prelude.{◌≡◌, IfSome, map};
ghost use Rattle.core_meaning.specs.Erasure.{core_of, cores_of};
ghost use Rattle.core_meaning.specs.Size.{nodes, nodes_of_all};

use core_meaning::{Core, CoreKind};
use xq_base::Pool;

/// How many nodes a Core has, where its forms are evaluated and the number fits 64 bits.
#[cycle(size)]
pub fn size(core: &Core, texts: &Pool) -> Option<u64>
    ensures { IfSome result (λ n. n ≡ nodes (core_of texts.now core.now)) }
{
    match &core.kind {
        CoreKind::Lit(_) => Some(1),
        CoreKind::Empty => Some(1),
        CoreKind::Var(_) => Some(1),
        CoreKind::Seq(first, second) => size(first.get(), texts)?
            .checked_add(size(second.get(), texts)?)?
            .checked_add(1),
        CoreKind::Let(_, bound, body) => size(bound.get(), texts)?
            .checked_add(size(body.get(), texts)?)?
            .checked_add(1),
        CoreKind::For { seq, body, .. } => size(seq.get(), texts)?
            .checked_add(size(body.get(), texts)?)?
            .checked_add(1),
        CoreKind::Call(_, arguments) => size_of_all(arguments.as_slice(), texts)?.checked_add(1),
        _ => None,
    }
}

#[cycle(size)]
fn size_of_all(all: &[Core], texts: &Pool) -> Option<u64>
    ensures { IfSome result (λ n. n ≡ nodes_of_all (cores_of (map (core_of texts.now) all.now))) }
{
    let mut so_far = 0u64;
    for part in all {
        so_far = so_far.checked_add(size(part, texts)?)?;
    }
    Some(so_far)
}
