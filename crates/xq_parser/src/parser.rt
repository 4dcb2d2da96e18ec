//! The query that a text is.
ghost use Rattle.std.specs.Prelude.{◌≡◌, ℕ, List};
ghost use Rattle.xq_ast.specs.Grammar as rule;
ghost use Rattle.xq_ast.specs.Phrases.{Why};
ghost use Rattle.xq_ast.specs.Query.{IsQuery, IsCut};
ghost use Rattle.xq_ast.specs.Rules.{maybe};
ghost use Rattle.xq_ast.specs.Trees as trees;
ghost use Rattle.xq_parser.specs.Outcomes.{Reads};
ghost use Rattle.xq_parser.specs.Query.{ReadsAs};

use crate::fault::ParseFault;
use crate::grammar::{Grammar, Nested};
use crate::look::looks;
use crate::nesting::{Calls, element, single};
use crate::text::{after_mark, is_text};
use sqlite_items::Items;
use std::alloc::Global;
use xq_ast::look::{Due, Look};
use xq_ast::node::AsRead;
use xq_ast::query::{Query, Version};

impl<'a, N: Nested> Grammar<'a, N> {
    /// VersionDecl, or none (XQuery 1.0, section 4.1, production 2).
    #[tactic(auto, unfolding(xq_ast::specs::Grammar::version))]
    fn maybe_version(&self, at: usize) -> Result<(Option<Version<Items<u8>>>, usize), ParseFault>
        requires { N.reads self.now.nested self.now.depth }
        ensures { Reads self.now.text.now self.now.depth (maybe rule.version) at result }
    {
        if !looks(self.text, at, Due::Prologue, Look::Xquery) {
            return Ok((None, at));
        }
        let (found, at) = self.version(at)?;
        Ok((Some(found), at))
    }

    /// MainModule, and nothing more (XQuery 1.0, section 4, productions 1 and 3).
    #[tactic(auto, unfolding(xq_ast::specs::Grammar::query))]
    fn query(&self, at: usize) -> Result<(Query<AsRead>, usize), ParseFault>
        requires { N.reads self.now.nested self.now.depth }
        ensures { Reads self.now.text.now self.now.depth rule.query at result }
    {
        let (version, at) = self.maybe_version(at)?;
        let (prolog, at) = self.prolog(at)?;
        let (body, at) = self.expr(at)?;
        if !looks(self.text, at, Due::Operator, Look::End) {
            return Err(ParseFault::Syntax);
        }
        Ok((
            Query {
                version,
                prolog,
                body,
            },
            at,
        ))
    }
}

/// How many levels of ExprSingle and DirElem may nest.
const MAX_LEVEL: usize = 256;

fn read_query(alloc: Global, text: &[u8]) -> Result<(Query<AsRead>, usize), ParseFault>
    ensures { Reads text.now rule.max_level rule.query (Rattle.xq_ast.specs.Query.after_mark text.now) result }
{
    let nested = Calls { single, element };
    Grammar {
        alloc,
        text,
        depth: MAX_LEVEL,
        nested,
    }
    .query(after_mark(text))
}

/// The query that a text is (XQuery 1.0, section 4).
///
/// `text` is the text in UTF-8; a byte order mark at its start is passed over, and places count it. The
/// tree is that of the text where the text is a query and no derivation is cut. `TooDeep` and `LeftOut` have
/// the place of the least cut: an ExprSingle or direct element of level 257, a construct that is left out
/// (own rules). `Syntax`: the text is no query, or isn't UTF-8 of characters of XML. `NoMemory`: memory ran
/// out.
#[tactic(auto, using(crate::proofs::Query::tree_reads, crate::proofs::Query::fault_reads, crate::proofs::Query::no_text_reads))]
pub fn parse(alloc: Global, text: &[u8]) -> Result<Query<AsRead>, ParseFault>
    ensures { ReadsAs text.now result }
{
    if !is_text(text) {
        return Err(ParseFault::Syntax);
    }
    match read_query(alloc, text) {
        Ok((found, _)) => Ok(found),
        Err(e) => Err(e),
    }
}

/// A text is one query at most, it has one cut at most, and never both.
#[tactic(auto, using(crate::proofs::Query::one_tree, crate::proofs::Query::one_cut, crate::proofs::Query::tree_or_cut))]
pub fn one_reading()
    ensures tree { (text : List ℕ) (a b : trees.Query) → IsQuery text a → IsQuery text b → a ≡ b }
    ensures cut { (text : List ℕ) (why other : Why) (place at : ℕ) → IsCut text why place → IsCut text other at → (why ≡ other) × (place ≡ at) }
    ensures both { (text : List ℕ) (a : trees.Query) (why : Why) (place : ℕ) → IsQuery text a → IsCut text why place → ⊥ }
{}
