//! Direct constructors (XQuery 1.0, sections 3.7.1 and 3.7.2).
ghost use Rattle.std.specs.Prelude.{◌≡◌, ℕ, IfOk};
ghost use Rattle.xq_ast.specs.declared.look.Due.TheVariants as due_;
ghost use Rattle.xq_ast.specs.declared.look.Look.TheVariants as k;
ghost use Rattle.xq_ast.specs.declared.node.Part.TheVariants as part_;
ghost use Rattle.xq_ast.specs.declared.node.ValuePart.TheVariants as run_;
ghost use Rattle.xq_ast.specs.Direct as rule;
ghost use Rattle.xq_ast.specs.Rules.{make, many, either, ◌&◌};
ghost use Rattle.xq_ast.specs.Terminals.{one};
ghost use Rattle.xq_parser.specs.Outcomes.{Reads, ReadsPast};
ghost use Rattle.xq_parser.specs.Optional.{PassesMaybe};

use crate::fault::ParseFault;
use crate::grammar::{Grammar, Nested, Tree, many};
use crate::look::{end_at, look_at, looks, place, stands_one};
use crate::strings::{content_run, instruction_value, lines_of, target, value_run};
use crate::terminals::{ReadName, sign, tag_name};
use crate::words::same;
use sqlite_items::{Boxed, Items};
use xq_ast::leaf::{ContentRun, Name, ValueRun};
use xq_ast::look::{Due, Look};
use xq_ast::node::{Attribute, Node, Part, ValuePart};

type ReadValue = ValuePart<ValueRun, Tree>;

type ReadAttribute = Attribute<Items<u8>, ValueRun, Tree>;

type ReadPart = Part<ContentRun, Tree>;

/// The place behind a sign that may stand at a place, or the same place where it doesn't.
fn past(text: &[u8], at: usize, due: Due, kind: Look) -> usize
    ensures { PassesMaybe text.now due kind at result }
{
    if looks(text, at, due, kind) {
        end_at(text, at, due)
    } else {
        at
    }
}

/// Whether the names of both tags agree; an empty element has one tag.
fn names_agree(name: &ReadName, closing: &Option<ReadName>) -> bool
    ensures { result ≡ rule.names_agree name.now closing.now }
{
    match closing {
        None => true,
        Some(other) => same(name.text.as_slice(), other.text.as_slice()),
    }
}

impl<'a, N: Nested> Grammar<'a, N> {
    /// An expression in braces in a value.
    fn value_brace(&self, at: usize, due: Due) -> Result<(ReadValue, usize), ParseFault>
        requires { N.reads self.now.nested self.now.depth }
        ensures { Reads self.now.text.now self.now.depth (rule.braces run_.Brace due) at result }
    {
        let offset = at as u64;
        let at = sign(self.text, at, due, Look::Brace)?;
        let (found, at) = self.expr(at)?;
        let at = sign(self.text, at, Due::Operator, Look::CloseBrace)?;
        Ok((ValuePart::Brace(offset, found), at))
    }

    /// A part of a value (XQuery 1.0, productions 99 to 101).
    #[tactic(auto, unfolding(xq_ast::specs::Direct::value_part))]
    fn value_part(&self, at: usize, due: Due) -> Result<(ReadValue, usize), ParseFault>
        requires { N.reads self.now.nested self.now.depth }
        ensures { Reads self.now.text.now self.now.depth (rule.value_part due) at result }
    {
        let runs = [
            Look::Chars,
            Look::Reference,
            Look::DoubledOpen,
            Look::DoubledClose,
            Look::DoubledQuote,
        ];
        if !stands_one(self.text, at, due, &runs) {
            return self.value_brace(at, due);
        }
        let end = end_at(self.text, at, due);
        let kind = look_at(self.text, at, due);
        let found = value_run(self.alloc, kind, self.text, at, end)?;
        Ok((ValuePart::Run(at as u64, found), end))
    }

    /// The parts of a value.
    #[tactic(auto, unfolding(xq_ast::specs::Direct::value_part))]
    fn value_parts(&self, at: usize, due: Due) -> Result<(Items<ReadValue>, usize), ParseFault>
        requires { N.reads self.now.nested self.now.depth }
        ensures { Reads self.now.text.now self.now.depth (many (rule.value_part due)) at result }
    {
        many(
            self.alloc,
            self.text,
            at,
            due,
            &[
                Look::Chars,
                Look::Reference,
                Look::DoubledOpen,
                Look::DoubledClose,
                Look::DoubledQuote,
                Look::Brace,
            ],
            |at|
                requires { N.reads self.now.nested self.now.depth }
            { self.value_part(at, due) },
        )
    }

    /// A value between `"` (XQuery 1.0, production 98).
    #[tactic(auto, unfolding(xq_ast::specs::Direct::double_quoted))]
    fn double_quoted(&self, at: usize) -> Result<(Items<ReadValue>, usize), ParseFault>
        requires { N.reads self.now.nested self.now.depth }
        ensures { Reads self.now.text.now self.now.depth rule.double_quoted at result }
    {
        let at = sign(self.text, at, Due::Tag, Look::DoubleQuote)?;
        let (found, at) = self.value_parts(at, Due::DoubleQuoted)?;
        let at = sign(self.text, at, Due::DoubleQuoted, Look::DoubleQuote)?;
        Ok((found, at))
    }

    /// A value between `'` (XQuery 1.0, production 98).
    #[tactic(auto, unfolding(xq_ast::specs::Direct::single_quoted))]
    fn single_quoted(&self, at: usize) -> Result<(Items<ReadValue>, usize), ParseFault>
        requires { N.reads self.now.nested self.now.depth }
        ensures { Reads self.now.text.now self.now.depth rule.single_quoted at result }
    {
        let at = sign(self.text, at, Due::Tag, Look::SingleQuote)?;
        let (found, at) = self.value_parts(at, Due::SingleQuoted)?;
        let at = sign(self.text, at, Due::SingleQuoted, Look::SingleQuote)?;
        Ok((found, at))
    }

    /// DirAttributeValue (XQuery 1.0, production 98).
    #[tactic(auto, unfolding(xq_ast::specs::Direct::value))]
    fn value(&self, at: usize) -> Result<(Items<ReadValue>, usize), ParseFault>
        requires { N.reads self.now.nested self.now.depth }
        ensures { Reads self.now.text.now self.now.depth rule.value at result }
    {
        if looks(self.text, at, Due::Tag, Look::DoubleQuote) {
            self.double_quoted(at)
        } else {
            self.single_quoted(at)
        }
    }

    /// `=`, between white space or not.
    #[tactic(auto, unfolding(xq_ast::specs::Direct::equals))]
    fn equals(&self, at: usize) -> Result<usize, ParseFault>
        requires { N.reads self.now.nested self.now.depth }
        ensures { ReadsPast self.now.text.now self.now.depth rule.equals at result }
    {
        let at = past(self.text, at, Due::Tag, Look::White);
        let at = sign(self.text, at, Due::Tag, Look::Equals)?;
        Ok(past(self.text, at, Due::Tag, Look::White))
    }

    /// White space and an attribute (XQuery 1.0, production 97).
    #[tactic(auto, unfolding(xq_ast::specs::Direct::attribute))]
    fn attribute(&self, at: usize) -> Result<(ReadAttribute, usize), ParseFault>
        requires { N.reads self.now.nested self.now.depth }
        ensures { Reads self.now.text.now self.now.depth rule.attribute at result }
    {
        let at = sign(self.text, at, Due::Tag, Look::Gap)?;
        let (name, at) = tag_name(self.alloc, self.text, at)?;
        let at = self.equals(at)?;
        let (value, at) = self.value(at)?;
        Ok((Attribute { name, value }, at))
    }

    /// The attributes of a tag, without white space behind them.
    #[tactic(auto, unfolding(xq_ast::specs::Direct::attribute))]
    fn many_attributes(&self, at: usize) -> Result<(Items<ReadAttribute>, usize), ParseFault>
        requires { N.reads self.now.nested self.now.depth }
        ensures { Reads self.now.text.now self.now.depth (many rule.attribute) at result }
    {
        many(
            self.alloc,
            self.text,
            at,
            Due::Tag,
            &[Look::Gap],
            |at|
                requires { N.reads self.now.nested self.now.depth }
            { self.attribute(at) },
        )
    }

    /// The attributes of a tag.
    #[tactic(auto, unfolding(xq_ast::specs::Direct::attributes))]
    fn attributes(&self, at: usize) -> Result<(Items<ReadAttribute>, usize), ParseFault>
        requires { N.reads self.now.nested self.now.depth }
        ensures { Reads self.now.text.now self.now.depth rule.attributes at result }
    {
        let (found, at) = self.many_attributes(at)?;
        Ok((found, past(self.text, at, Due::Tag, Look::White)))
    }

    /// DirCommentConstructor (XQuery 1.0, production 103).
    #[tactic(auto, using(crate::proofs::Parts::no_piece), unfolding(xq_ast::specs::Direct::comment))]
    fn comment(&self, at: usize) -> Result<(Boxed<Tree>, usize), ParseFault>
        requires { N.reads self.now.nested self.now.depth }
        ensures { Reads self.now.text.now self.now.depth rule.comment at result }
    {
        if at >= self.text.len() || !looks(self.text, at, Due::Content, Look::Comment) {
            return Err(ParseFault::Syntax);
        }
        let end = end_at(self.text, at, Due::Content);
        let found = lines_of(self.alloc, self.text, at + 4, end.saturating_sub(3))?;
        Ok((
            Boxed::new(self.alloc, Node::Comment(at as u64, found))?,
            end,
        ))
    }

    /// DirPIConstructor (XQuery 1.0, production 105).
    #[tactic(auto, using(crate::proofs::Parts::no_piece), unfolding(xq_ast::specs::Direct::instruction))]
    fn instruction(&self, at: usize) -> Result<(Boxed<Tree>, usize), ParseFault>
        requires { N.reads self.now.nested self.now.depth }
        ensures { Reads self.now.text.now self.now.depth rule.instruction at result }
    {
        if at >= self.text.len() || !looks(self.text, at, Due::Content, Look::Instruction) {
            return Err(ParseFault::Syntax);
        }
        let end = end_at(self.text, at, Due::Content);
        let text = target(self.alloc, self.text, at)?;
        let value = instruction_value(self.alloc, self.text, at, end)?;
        let offset = at as u64;
        let found = Node::Instruction(offset, Name { offset, text }, value);
        Ok((Boxed::new(self.alloc, found)?, end))
    }

    /// DirectConstructor (XQuery 1.0, production 95).
    #[tactic(auto, unfolding(xq_ast::specs::Direct::direct_here))]
    fn direct_here(&self, at: usize) -> Result<(Boxed<Tree>, usize), ParseFault>
        requires { N.reads self.now.nested self.now.depth }
        ensures { Reads self.now.text.now self.now.depth rule.direct_here at result }
    {
        let here = look_at(self.text, at, Due::Content);
        if here.is(Look::Comment) {
            self.comment(at)
        } else if here.is(Look::Instruction) {
            self.instruction(at)
        } else {
            self.element(at)
        }
    }

    /// DirectConstructor where an operand is due (XQuery 1.0, production 95).
    #[tactic(auto, unfolding(xq_ast::specs::Direct::direct))]
    pub fn direct(&self, at: usize) -> Result<(Boxed<Tree>, usize), ParseFault>
        requires { N.reads self.now.nested self.now.depth }
        ensures { Reads self.now.text.now self.now.depth rule.direct at result }
    {
        if !looks(self.text, at, Due::Operand, Look::Less) {
            return Err(ParseFault::Syntax);
        }
        self.direct_here(place(self.text, at))
    }

    /// An expression in braces in content.
    fn content_brace(&self, at: usize) -> Result<(ReadPart, usize), ParseFault>
        requires { N.reads self.now.nested self.now.depth }
        ensures { Reads self.now.text.now self.now.depth (rule.braces part_.Brace due_.Content) at result }
    {
        let offset = at as u64;
        let at = sign(self.text, at, Due::Content, Look::Brace)?;
        let (found, at) = self.expr(at)?;
        let at = sign(self.text, at, Due::Operator, Look::CloseBrace)?;
        Ok((Part::Brace(offset, found), at))
    }

    /// DirElemContent but for a run of characters (XQuery 1.0, production 101).
    fn content_inner(&self, at: usize) -> Result<(ReadPart, usize), ParseFault>
        requires { N.reads self.now.nested self.now.depth }
        ensures { Reads self.now.text.now self.now.depth (either (one due_.Content k.Brace) (rule.braces part_.Brace due_.Content) (make part_.Inner & rule.direct_here)) at result }
    {
        if looks(self.text, at, Due::Content, Look::Brace) {
            return self.content_brace(at);
        }
        let (found, at) = self.direct_here(at)?;
        Ok((Part::Inner(found), at))
    }

    /// DirElemContent (XQuery 1.0, production 101).
    #[tactic(auto, unfolding(xq_ast::specs::Direct::content_part))]
    fn content_part(&self, at: usize) -> Result<(ReadPart, usize), ParseFault>
        requires { N.reads self.now.nested self.now.depth }
        ensures { Reads self.now.text.now self.now.depth rule.content_part at result }
    {
        let runs = [
            Look::Chars,
            Look::Cdata,
            Look::Reference,
            Look::DoubledOpen,
            Look::DoubledClose,
        ];
        if !stands_one(self.text, at, Due::Content, &runs) {
            return self.content_inner(at);
        }
        let end = end_at(self.text, at, Due::Content);
        let kind = look_at(self.text, at, Due::Content);
        let found = content_run(self.alloc, kind, self.text, at, end)?;
        Ok((Part::Run(at as u64, found), end))
    }

    /// The content of an element.
    #[tactic(auto, unfolding(xq_ast::specs::Direct::content_part, xq_ast::specs::Direct::direct_here))]
    fn content_parts(&self, at: usize) -> Result<(Items<ReadPart>, usize), ParseFault>
        requires { N.reads self.now.nested self.now.depth }
        ensures { Reads self.now.text.now self.now.depth (many rule.content_part) at result }
    {
        many(
            self.alloc,
            self.text,
            at,
            Due::Content,
            &[
                Look::Chars,
                Look::Cdata,
                Look::Reference,
                Look::DoubledOpen,
                Look::DoubledClose,
                Look::Brace,
                Look::Comment,
                Look::Instruction,
                Look::TagStart,
            ],
            |at|
                requires { N.reads self.now.nested self.now.depth }
            { self.content_part(at) },
        )
    }

    /// The end tag of an element: its name.
    #[tactic(auto, unfolding(xq_ast::specs::Direct::end_tag))]
    fn end_tag(&self, at: usize) -> Result<(ReadName, usize), ParseFault>
        requires { N.reads self.now.nested self.now.depth }
        ensures { Reads self.now.text.now self.now.depth rule.end_tag at result }
    {
        let at = sign(self.text, at, Due::Content, Look::EndTagStart)?;
        let (name, at) = tag_name(self.alloc, self.text, at)?;
        let at = past(self.text, at, Due::Tag, Look::White);
        let at = sign(self.text, at, Due::Tag, Look::TagEnd)?;
        Ok((name, at))
    }

    /// What follows the attributes: the content, and the name in the end tag.
    #[tactic(auto, unfolding(xq_ast::specs::Direct::content))]
    fn content(&self, at: usize) -> Result<((Items<ReadPart>, Option<ReadName>), usize), ParseFault>
        requires { N.reads self.now.nested self.now.depth }
        ensures { Reads self.now.text.now self.now.depth rule.content at result }
    {
        if looks(self.text, at, Due::Tag, Look::EmptyTagEnd) {
            let at = sign(self.text, at, Due::Tag, Look::EmptyTagEnd)?;
            return Ok(((Items::new(self.alloc), None), at));
        }
        let at = sign(self.text, at, Due::Tag, Look::TagEnd)?;
        let (found, at) = self.content_parts(at)?;
        let (name, at) = self.end_tag(at)?;
        Ok(((found, Some(name)), at))
    }

    /// DirElemConstructor (XQuery 1.0, production 96).
    #[tactic(auto, unfolding(xq_ast::specs::Direct::elem))]
    pub fn elem(&self, at: usize) -> Result<(Boxed<Tree>, usize), ParseFault>
        requires { N.reads self.now.nested self.now.depth }
        ensures { Reads self.now.text.now self.now.depth rule.elem at result }
    {
        let offset = at as u64;
        let at = sign(self.text, at, Due::Content, Look::TagStart)?;
        let (name, at) = tag_name(self.alloc, self.text, at)?;
        let (attributes, at) = self.attributes(at)?;
        let ((content, closing), at) = self.content(at)?;
        if !names_agree(&name, &closing) {
            return Err(ParseFault::Syntax);
        }
        let found = Node::Element(offset, name, attributes, content);
        Ok((Boxed::new(self.alloc, found)?, at))
    }
}
