//! Tests by kind and sequence types (XQuery 1.0, sections 2.5.3 and 2.5.4).
ghost use Rattle.std.specs.Prelude.{◌≡◌};
ghost use Rattle.xq_ast.specs.declared.look.Due.TheVariants as due_;
ghost use Rattle.xq_ast.specs.declared.look.Look.TheVariants as k;
ghost use Rattle.xq_ast.specs.Look as looks_;
ghost use Rattle.xq_ast.specs.Rules.{either};
ghost use Rattle.xq_ast.specs.Terminals as terminal;
ghost use Rattle.xq_ast.specs.Types as rule;
ghost use Rattle.xq_parser.specs.Outcomes.{Reads, ReadsPast};

use crate::fault::ParseFault;
use crate::grammar::{Grammar, Nested};
use crate::look::{end_at, look_at, looks, place, stands_one};
use crate::terminals::{ReadName, left, name, ncname, sign, string};
use sqlite_items::Items;
use xq_ast::leaf::{KindTest, Occurs, ReadItem, ReadType};
use xq_ast::look::{Due, Look};

type TreeTest = KindTest<Items<u8>>;

/// The test that a word stands for which takes nothing in its parentheses.
fn plain_kind(look: Look) -> TreeTest
    ensures { result ≡ rule.plain_kind look }
{
    match look {
        Look::NodeTest => KindTest::Node,
        Look::TextTest => KindTest::Text,
        Look::CommentTest => KindTest::Comment,
        _ => KindTest::Document,
    }
}

/// How many items a sign admits.
fn occurs_of(look: Look) -> Occurs
    ensures { result ≡ rule.occurs_of look }
{
    match look {
        Look::Question => Occurs::Optional,
        Look::Star => Occurs::Many,
        _ => Occurs::AtLeastOne,
    }
}

/// Whether a test by kind stands at a place.
pub fn begins_kind(text: &[u8], at: usize, due: Due) -> bool
    ensures { result ≡ looks_.stands_one text.now (rule.kinds due) at }
{
    stands_one(
        text,
        at,
        due,
        &[
            Look::NodeTest,
            Look::TextTest,
            Look::CommentTest,
            Look::DocumentTest,
            Look::InstructionTest,
            Look::ElementTest,
            Look::AttributeTest,
        ],
    )
}

impl<'a, N: Nested> Grammar<'a, N> {
    /// AnyKindTest, TextTest, CommentTest, DocumentTest without content (XQuery 1.0, productions 124 to 127).
    #[tactic(auto, unfolding(xq_ast::specs::Types::plain_test))]
    fn plain_test(&self, at: usize, due: Due) -> Result<(TreeTest, usize), ParseFault>
        requires { N.reads self.now.nested self.now.depth }
        ensures { Reads self.now.text.now self.now.depth (rule.plain_test due) at result }
    {
        if !stands_one(
            self.text,
            at,
            due,
            &[
                Look::NodeTest,
                Look::TextTest,
                Look::CommentTest,
                Look::DocumentTest,
            ],
        ) {
            return Err(ParseFault::Syntax);
        }
        let found = plain_kind(look_at(self.text, at, due));
        let at = end_at(self.text, at, due);
        let at = sign(self.text, at, Due::Operator, Look::Open)?;
        let at = sign(self.text, at, Due::Operator, Look::Close)?;
        Ok((found, at))
    }

    /// The target of a test of instructions, as a string or a name (XQuery 1.0, production 128).
    fn target_text(&self, at: usize) -> Result<(ReadName, usize), ParseFault>
        requires { N.reads self.now.nested self.now.depth }
        ensures { Reads self.now.text.now self.now.depth (either (terminal.one due_.Named k.Quoted) (terminal.string due_.Named) terminal.ncname) at result }
    {
        if looks(self.text, at, Due::Named, Look::Quoted) {
            string(self.alloc, self.text, at, Due::Named)
        } else {
            ncname(self.alloc, self.text, at)
        }
    }

    /// What a test of instructions has in its parentheses, and the closing one (XQuery 1.0, production 128).
    #[tactic(auto, unfolding(xq_ast::specs::Types::target))]
    fn target(&self, at: usize) -> Result<(Option<ReadName>, usize), ParseFault>
        requires { N.reads self.now.nested self.now.depth }
        ensures { Reads self.now.text.now self.now.depth rule.target at result }
    {
        if looks(self.text, at, Due::Named, Look::Close) {
            let at = sign(self.text, at, Due::Named, Look::Close)?;
            return Ok((None, at));
        }
        let (found, at) = self.target_text(at)?;
        let at = sign(self.text, at, Due::Operator, Look::Close)?;
        Ok((Some(found), at))
    }

    /// PITest (XQuery 1.0, production 128).
    #[tactic(auto, unfolding(xq_ast::specs::Types::instruction_test))]
    fn instruction_test(&self, at: usize, due: Due) -> Result<(TreeTest, usize), ParseFault>
        requires { N.reads self.now.nested self.now.depth }
        ensures { Reads self.now.text.now self.now.depth (rule.instruction_test due) at result }
    {
        let at = sign(self.text, at, due, Look::InstructionTest)?;
        let at = sign(self.text, at, Due::Operator, Look::Open)?;
        let (found, at) = self.target(at)?;
        Ok((KindTest::Instruction(found), at))
    }

    /// `)`; a second argument is left out.
    #[tactic(auto, unfolding(xq_ast::specs::Types::last_argument))]
    fn last_argument(&self, at: usize) -> Result<usize, ParseFault>
        requires { N.reads self.now.nested self.now.depth }
        ensures { ReadsPast self.now.text.now self.now.depth rule.last_argument at result }
    {
        if looks(self.text, at, Due::Operator, Look::Comma) {
            return Err(ParseFault::LeftOut(place(self.text, at)));
        }
        sign(self.text, at, Due::Operator, Look::Close)
    }

    /// `*`, a name or nothing, and `)`.
    #[tactic(auto, unfolding(xq_ast::specs::Types::named_argument))]
    fn named_argument(&self, at: usize) -> Result<(Option<ReadName>, usize), ParseFault>
        requires { N.reads self.now.nested self.now.depth }
        ensures { Reads self.now.text.now self.now.depth rule.named_argument at result }
    {
        let here = look_at(self.text, at, Due::Named);
        if here.is(Look::Close) {
            let at = sign(self.text, at, Due::Named, Look::Close)?;
            return Ok((None, at));
        }
        if here.is(Look::Star) {
            let at = sign(self.text, at, Due::Named, Look::Star)?;
            let at = self.last_argument(at)?;
            return Ok((None, at));
        }
        let (found, at) = name(self.alloc, self.text, at, Due::Named, Look::Name)?;
        let at = self.last_argument(at)?;
        Ok((Some(found), at))
    }

    /// ElementTest (XQuery 1.0, production 129).
    #[tactic(auto, unfolding(xq_ast::specs::Types::element_test))]
    fn element_test(&self, at: usize, due: Due) -> Result<(TreeTest, usize), ParseFault>
        requires { N.reads self.now.nested self.now.depth }
        ensures { Reads self.now.text.now self.now.depth (rule.element_test due) at result }
    {
        let at = sign(self.text, at, due, Look::ElementTest)?;
        let at = sign(self.text, at, Due::Operator, Look::Open)?;
        let (found, at) = self.named_argument(at)?;
        Ok((KindTest::Element(found), at))
    }

    /// AttributeTest (XQuery 1.0, production 133).
    #[tactic(auto, unfolding(xq_ast::specs::Types::attribute_test))]
    fn attribute_test(&self, at: usize, due: Due) -> Result<(TreeTest, usize), ParseFault>
        requires { N.reads self.now.nested self.now.depth }
        ensures { Reads self.now.text.now self.now.depth (rule.attribute_test due) at result }
    {
        let at = sign(self.text, at, due, Look::AttributeTest)?;
        let at = sign(self.text, at, Due::Operator, Look::Open)?;
        let (found, at) = self.named_argument(at)?;
        Ok((KindTest::Attribute(found), at))
    }

    /// A test by kind (XQuery 1.0, section 2.5.4).
    #[tactic(auto, unfolding(xq_ast::specs::Types::kind_test))]
    pub fn kind_test(&self, at: usize, due: Due) -> Result<(TreeTest, usize), ParseFault>
        requires { N.reads self.now.nested self.now.depth }
        ensures { Reads self.now.text.now self.now.depth (rule.kind_test due) at result }
    {
        let here = look_at(self.text, at, due);
        if here.is(Look::NodeTest)
            || here.is(Look::TextTest)
            || here.is(Look::CommentTest)
            || here.is(Look::DocumentTest)
        {
            self.plain_test(at, due)
        } else if here.is(Look::InstructionTest) {
            self.instruction_test(at, due)
        } else if here.is(Look::ElementTest) {
            self.element_test(at, due)
        } else {
            self.attribute_test(at, due)
        }
    }

    /// `item()` (XQuery 1.0, production 121).
    #[tactic(auto, unfolding(xq_ast::specs::Types::any_item))]
    fn any_item(&self, at: usize) -> Result<(ReadItem, usize), ParseFault>
        requires { N.reads self.now.nested self.now.depth }
        ensures { Reads self.now.text.now self.now.depth rule.any_item at result }
    {
        let at = sign(self.text, at, Due::Typed, Look::ItemTest)?;
        let at = sign(self.text, at, Due::Operator, Look::Open)?;
        let at = sign(self.text, at, Due::Operator, Look::Close)?;
        Ok((ReadItem::Any, at))
    }

    /// ItemType (XQuery 1.0, production 121).
    #[tactic(auto, unfolding(xq_ast::specs::Types::item_type))]
    fn item_type(&self, at: usize) -> Result<(ReadItem, usize), ParseFault>
        requires { N.reads self.now.nested self.now.depth }
        ensures { Reads self.now.text.now self.now.depth rule.item_type at result }
    {
        let here = look_at(self.text, at, Due::Typed);
        if here.is(Look::ItemTest) {
            self.any_item(at)
        } else if begins_kind(self.text, at, Due::Typed) {
            let (found, at) = self.kind_test(at, Due::Typed)?;
            Ok((ReadItem::Kind(found), at))
        } else if here.is(Look::Name) {
            let (found, at) = name(self.alloc, self.text, at, Due::Typed, Look::Name)?;
            Ok((ReadItem::Named(found), at))
        } else {
            left(self.text, at, Due::Typed, &[Look::LeftOut])
        }
    }

    /// OccurrenceIndicator, which belongs to the type where it stands (XQuery 1.0, production 120).
    #[tactic(auto, unfolding(xq_ast::specs::Types::occurs))]
    fn occurs(&self, at: usize) -> Result<(Occurs, usize), ParseFault>
        requires { N.reads self.now.nested self.now.depth }
        ensures { Reads self.now.text.now self.now.depth rule.occurs at result }
    {
        let here = look_at(self.text, at, Due::Operator);
        if here.is(Look::Question) || here.is(Look::Star) || here.is(Look::Plus) {
            Ok((occurs_of(here), end_at(self.text, at, Due::Operator)))
        } else {
            Ok((Occurs::One, at))
        }
    }

    /// `empty-sequence()` (XQuery 1.0, production 119).
    #[tactic(auto, unfolding(xq_ast::specs::Types::empty_type))]
    fn empty_type(&self, at: usize) -> Result<(ReadType, usize), ParseFault>
        requires { N.reads self.now.nested self.now.depth }
        ensures { Reads self.now.text.now self.now.depth rule.empty_type at result }
    {
        let offset = place(self.text, at) as u64;
        let at = sign(self.text, at, Due::Typed, Look::EmptyTest)?;
        let at = sign(self.text, at, Due::Operator, Look::Open)?;
        let at = sign(self.text, at, Due::Operator, Look::Close)?;
        Ok((ReadType::Empty(offset), at))
    }

    /// A sequence type (XQuery 1.0, section 2.5.3).
    #[tactic(auto, unfolding(xq_ast::specs::Types::seq_type))]
    pub fn seq_type(&self, at: usize) -> Result<(ReadType, usize), ParseFault>
        requires { N.reads self.now.nested self.now.depth }
        ensures { Reads self.now.text.now self.now.depth rule.seq_type at result }
    {
        if looks(self.text, at, Due::Typed, Look::EmptyTest) {
            return self.empty_type(at);
        }
        let offset = place(self.text, at) as u64;
        let (item, at) = self.item_type(at)?;
        let (occurs, at) = self.occurs(at)?;
        Ok((ReadType::Of(offset, item, occurs), at))
    }

    /// The type of a variable, a parameter or a result (XQuery 1.0, section 2.5.3).
    #[tactic(auto, unfolding(xq_ast::specs::Types::typ))]
    pub fn typ(&self, at: usize) -> Result<(ReadType, usize), ParseFault>
        requires { N.reads self.now.nested self.now.depth }
        ensures { Reads self.now.text.now self.now.depth rule.typ at result }
    {
        let at = sign(self.text, at, Due::Operator, Look::As)?;
        self.seq_type(at)
    }
}
