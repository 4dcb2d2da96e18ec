//! Cores with their types.
ghost use Rattle.std.specs.Prelude.{◌≡◌, ◌≤◌, OnOk, IfOk, IfErr};
ghost use Rattle.xq_types.specs.TypeOf.{IsLawful, IsAccepted, HasCoreType, ValuesHave, Tells};

use crate::fault::TypeFault;
use crate::infer::infer;
use crate::scope::Scope;
use crate::typ::{Known, XqType};
use core_meaning::Core;
use std::alloc::Global;
use std::marker::Model;

/// A lawful Core none of whose sites is refused, with its type.
#[derive(Drop)]
pub struct Typed {
    core: Core,
    ty: Known,
}

impl Model for Typed {
    ghost use Rattle.core_meaning.specs.declared.node.Core.{Core};
    ghost use Rattle.core_meaning.specs.contracts.node.Core as e;
    ghost use Rattle.std.specs.Coded.{codes};

    ghost Value = { Core };

    ghost coded = { Prim.hlevel (codes, e.the_row.coded) };

    ghost use Rattle.xq_types.specs.TypeOf.{KeepsType};

    ghost view = { λ t. t.core };

    ghost invariant = { λ t. KeepsType t.core t.ty };
}

impl Typed {
    /// The Core, which is lawful and of which nothing is refused.
    pub fn core(&self) -> &Core
        ensures core { result.now ≡ self.now }
        ensures lawful { IsLawful result.now }
        ensures accepted { IsAccepted result.now }
    {
        &self.core
    }

    /// The type of the Core. Each value of the Core over documents has it.
    pub fn ty(&self) -> XqType
        ensures has_type { HasCoreType self.now result }
        ensures values { ValuesHave self.now result }
        ensures small { (result.least ≤ 1) × (result.most ≤ 2) }
    {
        self.ty.ty()
    }
}

/// The type of a lawful Core (own rule).
///
/// Errors: `Refused`, exactly where a static rule of types refuses a site of the Core, with the place of the least such site;
/// `NoMemory`.
#[tactic(auto, using(crate::proofs::CoreTypes::tells))]
pub fn type_of(alloc: Global, core: Core) -> Result<Typed, TypeFault>
    requires lawful { IsLawful core }
    ensures core { IfOk result (λ typed. typed ≡ core) }
    ensures accepted { OnOk result (IsAccepted core) }
    ensures refused { IfErr result (λ fault. Tells core fault) }
{
    let mut scope = Scope::new(alloc);
    let ty = infer(&core, &mut scope)?;
    Ok(Typed { core, ty })
}
