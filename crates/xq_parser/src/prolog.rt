//! Version, prolog and declarations (XQuery 1.0, section 4).
ghost use Rattle.std.specs.Prelude.{◌≡◌, ℕ, [], ◌∷◌};
ghost use Rattle.xq_ast.specs.declared.look.Due.TheVariants as due_;
ghost use Rattle.xq_ast.specs.declared.look.Look.TheVariants as k;
ghost use Rattle.xq_ast.specs.Grammar as rule;
ghost use Rattle.xq_ast.specs.Rules.{many, either};
ghost use Rattle.xq_ast.specs.Terminals.{one, operator, left};
ghost use Rattle.xq_parser.specs.Outcomes.{Reads, ReadsPast, more};

use crate::bindings::{ReadVariable, with_first};
use crate::fault::ParseFault;
use crate::grammar::{Grammar, Nested, Tree, many};
use crate::look::{look_at, looks, place, stands_one};
use crate::terminals::{ReadName, left, name, sign, string};
use sqlite_items::{Boxed, Items};
use xq_ast::leaf::ReadType;
use xq_ast::look::{Due, Look};
use xq_ast::query::{Declaration, Param, Prolog, Version};

/// A version declaration as it is read.
pub type ReadVersion = Version<Items<u8>>;

/// A prolog as it is read.
pub type ReadProlog = Prolog<Items<u8>, ReadName, ReadType, Tree>;

type ReadDeclaration = Declaration<Items<u8>, ReadName, ReadType, Tree>;

type ReadParam = Param<ReadName, ReadType>;

impl<'a, N: Nested> Grammar<'a, N> {
    /// The encoding of a version declaration, if there is one.
    #[tactic(auto, unfolding(xq_ast::specs::Grammar::encoding))]
    fn encoding(&self, at: usize) -> Result<(Option<ReadName>, usize), ParseFault>
        requires { N.reads self.now.nested self.now.depth }
        ensures { Reads self.now.text.now self.now.depth rule.encoding at result }
    {
        let here = look_at(self.text, at, Due::Operator);
        if here.is(Look::OtherEncoding) {
            return Err(ParseFault::LeftOut(place(self.text, at)));
        }
        if !here.is(Look::Encoding) {
            return Ok((None, at));
        }
        let at = sign(self.text, at, Due::Operator, Look::Encoding)?;
        let (found, at) = string(self.alloc, self.text, at, Due::Operand)?;
        Ok((Some(found), at))
    }

    /// VersionDecl (XQuery 1.0, production 2).
    #[tactic(auto, unfolding(xq_ast::specs::Grammar::version))]
    pub fn version(&self, at: usize) -> Result<(ReadVersion, usize), ParseFault>
        requires { N.reads self.now.nested self.now.depth }
        ensures { Reads self.now.text.now self.now.depth rule.version at result }
    {
        let at = sign(self.text, at, Due::Prologue, Look::Xquery)?;
        let at = sign(self.text, at, Due::Operator, Look::Version)?;
        let (version, at) = string(self.alloc, self.text, at, Due::Operand)?;
        let (encoding, at) = self.encoding(at)?;
        let at = sign(self.text, at, Due::Operator, Look::Semicolon)?;
        Ok((Version { version, encoding }, at))
    }

    /// `strip`; `preserve` is left out.
    #[tactic(auto, unfolding(xq_ast::specs::Grammar::strip))]
    fn strip(&self, at: usize) -> Result<usize, ParseFault>
        requires { N.reads self.now.nested self.now.depth }
        ensures { ReadsPast self.now.text.now self.now.depth rule.strip at result }
    {
        if looks(self.text, at, Due::Operator, Look::Preserve) {
            return Err(ParseFault::LeftOut(place(self.text, at)));
        }
        sign(self.text, at, Due::Operator, Look::Strip)
    }

    /// BoundarySpaceDecl: its offset (XQuery 1.0, production 11).
    #[tactic(auto, unfolding(xq_ast::specs::Grammar::setter))]
    fn setter(&self, at: usize) -> Result<(u64, usize), ParseFault>
        requires { N.reads self.now.nested self.now.depth }
        ensures { Reads self.now.text.now self.now.depth rule.setter at result }
    {
        let offset = place(self.text, at) as u64;
        let at = sign(self.text, at, Due::Prologue, Look::DeclareSpace)?;
        let at = sign(self.text, at, Due::Operator, Look::BoundarySpace)?;
        let at = self.strip(at)?;
        let at = sign(self.text, at, Due::Operator, Look::Semicolon)?;
        Ok((offset, at))
    }

    /// The setters of a prolog.
    #[tactic(auto, unfolding(xq_ast::specs::Grammar::setter))]
    fn setters(&self, at: usize) -> Result<(Items<u64>, usize), ParseFault>
        requires { N.reads self.now.nested self.now.depth }
        ensures { Reads self.now.text.now self.now.depth (many rule.setter) at result }
    {
        many(
            self.alloc,
            self.text,
            at,
            Due::Prologue,
            &[Look::DeclareSpace],
            |at|
                requires { N.reads self.now.nested self.now.depth }
            { self.setter(at) },
        )
    }

    /// The value of a variable; `external` is left out.
    #[tactic(auto, unfolding(xq_ast::specs::Grammar::initial))]
    fn initial(&self, at: usize) -> Result<(Boxed<Tree>, usize), ParseFault>
        requires { N.reads self.now.nested self.now.depth }
        ensures { Reads self.now.text.now self.now.depth rule.initial at result }
    {
        if looks(self.text, at, Due::Operator, Look::External) {
            return Err(ParseFault::LeftOut(place(self.text, at)));
        }
        let at = sign(self.text, at, Due::Operator, Look::Assign)?;
        self.single(at)
    }

    /// VarDecl (XQuery 1.0, production 24).
    #[tactic(auto, unfolding(xq_ast::specs::Grammar::var_decl))]
    fn var_decl(&self, at: usize) -> Result<(ReadDeclaration, usize), ParseFault>
        requires { N.reads self.now.nested self.now.depth }
        ensures { Reads self.now.text.now self.now.depth rule.var_decl at result }
    {
        let offset = place(self.text, at) as u64;
        let at = sign(self.text, at, Due::Prologue, Look::DeclareVariable)?;
        let at = sign(self.text, at, Due::Operator, Look::Variable)?;
        let (var, at) = self.variable(at)?;
        let (ty, at) = self.maybe_typ(at)?;
        let (value, at) = self.initial(at)?;
        Ok((Declaration::Var(offset, var, ty, value), at))
    }

    /// Param (XQuery 1.0, production 28).
    #[tactic(auto, unfolding(xq_ast::specs::Grammar::param))]
    fn param(&self, at: usize) -> Result<(ReadParam, usize), ParseFault>
        requires { N.reads self.now.nested self.now.depth }
        ensures { Reads self.now.text.now self.now.depth rule.param at result }
    {
        let (var, at) = self.variable(at)?;
        let (ty, at) = self.maybe_typ(at)?;
        Ok((Param { var, ty }, at))
    }

    fn more_params(&self, at: usize) -> Result<(Items<ReadParam>, usize), ParseFault>
        requires { N.reads self.now.nested self.now.depth }
        ensures { Reads self.now.text.now self.now.depth (more (λ _ a. a) (operator k.Comma) rule.param) at result }
    {
        many(
            self.alloc,
            self.text,
            at,
            Due::Operator,
            &[Look::Comma],
            |at|
                requires { N.reads self.now.nested self.now.depth }
            {
                let at = sign(self.text, at, Due::Operator, Look::Comma)?;
                self.param(at)
            },
        )
    }

    /// The parameters of a function, and the `)` behind them (XQuery 1.0, productions 26 and 27).
    #[tactic(auto, unfolding(xq_ast::specs::Grammar::params))]
    fn params(&self, at: usize) -> Result<(Items<ReadParam>, usize), ParseFault>
        requires { N.reads self.now.nested self.now.depth }
        ensures { Reads self.now.text.now self.now.depth rule.params at result }
    {
        if looks(self.text, at, Due::Operand, Look::Close) {
            let at = sign(self.text, at, Due::Operand, Look::Close)?;
            return Ok((Items::new(self.alloc), at));
        }
        let (first, at) = self.param(at)?;
        let (more, at) = self.more_params(at)?;
        let at = sign(self.text, at, Due::Operator, Look::Close)?;
        Ok((with_first(self.alloc, first, more)?, at))
    }

    /// The body of a function; `external` is left out.
    #[tactic(auto, unfolding(xq_ast::specs::Grammar::body))]
    fn body(&self, at: usize) -> Result<(Boxed<Tree>, usize), ParseFault>
        requires { N.reads self.now.nested self.now.depth }
        ensures { Reads self.now.text.now self.now.depth rule.body at result }
    {
        if looks(self.text, at, Due::Operator, Look::External) {
            return Err(ParseFault::LeftOut(place(self.text, at)));
        }
        self.block(at)
    }

    /// FunctionDecl (XQuery 1.0, production 26).
    #[tactic(auto, unfolding(xq_ast::specs::Grammar::fun_decl))]
    fn fun_decl(&self, at: usize) -> Result<(ReadDeclaration, usize), ParseFault>
        requires { N.reads self.now.nested self.now.depth }
        ensures { Reads self.now.text.now self.now.depth rule.fun_decl at result }
    {
        let offset = place(self.text, at) as u64;
        let at = sign(self.text, at, Due::Prologue, Look::DeclareFunction)?;
        let at = sign(self.text, at, Due::Operator, Look::Function)?;
        let (name, at) = name(self.alloc, self.text, at, Due::Named, Look::Name)?;
        let at = sign(self.text, at, Due::Operator, Look::Open)?;
        let (params, at) = self.params(at)?;
        let (ty, at) = self.maybe_typ(at)?;
        let (body, at) = self.body(at)?;
        Ok((Declaration::Fun(offset, name, params, ty, body), at))
    }

    /// VarDecl or FunctionDecl; the others are left out.
    fn declared(&self, at: usize) -> Result<(ReadDeclaration, usize), ParseFault>
        requires { N.reads self.now.nested self.now.depth }
        ensures { Reads self.now.text.now self.now.depth (either (one due_.Prologue k.DeclareVariable) rule.var_decl (either (one due_.Prologue k.DeclareFunction) rule.fun_decl (left due_.Prologue (k.LeftOut ∷ [])))) at result }
    {
        let here = look_at(self.text, at, Due::Prologue);
        if here.is(Look::DeclareVariable) {
            self.var_decl(at)
        } else if here.is(Look::DeclareFunction) {
            self.fun_decl(at)
        } else {
            left(self.text, at, Due::Prologue, &[Look::LeftOut])
        }
    }

    /// A declaration and its `;` (XQuery 1.0, production 6).
    #[tactic(auto, unfolding(xq_ast::specs::Grammar::declaration))]
    fn declaration(&self, at: usize) -> Result<(ReadDeclaration, usize), ParseFault>
        requires { N.reads self.now.nested self.now.depth }
        ensures { Reads self.now.text.now self.now.depth rule.declaration at result }
    {
        let (found, at) = self.declared(at)?;
        let at = sign(self.text, at, Due::Operator, Look::Semicolon)?;
        Ok((found, at))
    }

    #[tactic(auto, unfolding(xq_ast::specs::Grammar::declaration))]
    fn many_declarations(&self, at: usize) -> Result<(Items<ReadDeclaration>, usize), ParseFault>
        requires { N.reads self.now.nested self.now.depth }
        ensures { Reads self.now.text.now self.now.depth (many rule.declaration) at result }
    {
        many(
            self.alloc,
            self.text,
            at,
            Due::Prologue,
            &[Look::DeclareVariable, Look::DeclareFunction, Look::LeftOut],
            |at|
                requires { N.reads self.now.nested self.now.depth }
            { self.declaration(at) },
        )
    }

    /// Setters and declarations, up to what is none (XQuery 1.0, production 6).
    #[tactic(auto, unfolding(xq_ast::specs::Grammar::declarations))]
    fn declarations(&self, at: usize) -> Result<(ReadProlog, usize), ParseFault>
        requires { N.reads self.now.nested self.now.depth }
        ensures { Reads self.now.text.now self.now.depth rule.declarations at result }
    {
        let (setters, at) = self.setters(at)?;
        let (declarations, at) = self.many_declarations(at)?;
        if !stands_one(self.text, at, Due::Prologue, &[Look::Body, Look::Module]) {
            return Err(ParseFault::Syntax);
        }
        let found = Prolog {
            setters,
            declarations,
        };
        Ok((found, at))
    }

    /// Prolog; a module's declaration in its place is left out (XQuery 1.0, production 6).
    #[tactic(auto, unfolding(xq_ast::specs::Grammar::prolog))]
    pub fn prolog(&self, at: usize) -> Result<(ReadProlog, usize), ParseFault>
        requires { N.reads self.now.nested self.now.depth }
        ensures { Reads self.now.text.now self.now.depth rule.prolog at result }
    {
        if looks(self.text, at, Due::Prologue, Look::Module) {
            Err(ParseFault::LeftOut(place(self.text, at)))
        } else {
            self.declarations(at)
        }
    }
}
