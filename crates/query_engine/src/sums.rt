//! The rule of a sum.
ghost use Rattle.std.specs.Prelude.{◌≡◌, [], ◌∷◌, true};
ghost use Rattle.xq_base.specs.Answers.{with_value};
ghost use Rattle.xq_base.specs.Arithmetic as arithmetic;
ghost use Rattle.xq_base.specs.declared.fun.Fun.TheVariants as fun;
ghost use Rattle.doc_table.specs.Documents.{documents_in};
ghost use Rattle.doc_table.specs.Functions.{fun_answer};
ghost use Rattle.doc_table.specs.Items.{IntItem, item_of};
ghost use Rattle.doc_table.specs.StoredItems.{meanings, trees_of};
ghost use Rattle.doc_table.specs.Values.{data_of, items_of};
ghost use Rattle.query_engine.specs.Evaluating.{Fits, AllFit};
ghost use Rattle.query_engine.specs.Sums.{IsOperand, IsSum};

use crate::evaluate::Evaluator;
use xq_base::{Code, Item};

/// The sum of two operands of which one may be absent. A sum outside 64 bits is FOAR0002.
fn sum_of(first: Option<i64>, second: Option<i64>) -> Result<Option<i64>, Code>
    ensures { IsSum (with_value items_of (arithmetic.on_numbers arithmetic.sum_of (first, second))) result }
{
    match (first, second) {
        (Some(a), Some(b)) => match a.checked_add(b) {
            Some(sum) => Ok(Some(sum)),
            None => Err(Code::FOAR0002),
        },
        (Some(_), None) => Ok(None),
        (None, Some(_)) => Ok(None),
        (None, None) => Ok(None),
    }
}

impl<'a> Evaluator<'a> {
    /// An integer; there is nothing else where sums may occur.
    fn integer(&self, item: Item) -> i64
        requires sums { self.now.sums ≡ true }
        requires fits { Fits self.now.sums self.now.store.now item }
        ensures { item_of self.now.pool.now (trees_of self.now.store.now) item ≡ IntItem result }
    {
        match item {
            Item::Int(value) => value,
            Item::Str(_) => 0,
            Item::Untyped(_) => 0,
            Item::Bool(_) => 0,
            Item::Node(_) => 0,
        }
    }

    /// An operand: absent, or one integer. None where there are more.
    fn operand(&self, items: &[Item]) -> Option<Option<i64>>
        requires sums { self.now.sums ≡ true }
        requires fits { AllFit self.now.sums self.now.store.now items.now }
        ensures { IsOperand (arithmetic.operand (data_of (meanings self.now.pool.now self.now.store.now items.now))) result }
    {
        match items {
            [] => Some(None),
            [item] => Some(Some(self.integer(*item))),
            [_, _, ..] => None,
        }
    }

    /// The sum of two values (XQuery 1.0, section 3.4). More than one item is XPTY0004.
    pub fn add(&self, first: &[Item], second: &[Item]) -> Result<Option<i64>, Code>
        requires sums { self.now.sums ≡ true }
        requires first { AllFit self.now.sums self.now.store.now first.now }
        requires second { AllFit self.now.sums self.now.store.now second.now }
        ensures { IsSum (fun_answer (documents_in self.now.pool.now self.now.store.now) fun.Add (meanings self.now.pool.now self.now.store.now first.now ∷ meanings self.now.pool.now self.now.store.now second.now ∷ [])) result }
    {
        match (self.operand(first), self.operand(second)) {
            (Some(a), Some(b)) => sum_of(a, b),
            (Some(_), None) => Err(Code::XPTY0004),
            (None, Some(_)) => Err(Code::XPTY0004),
            (None, None) => Err(Code::XPTY0004),
        }
    }
}
