//! How many nodes and levels pieces of a Core have. Both numbers end at the greatest one of 64 bits.
//! Nothing here takes memory.
ghost use Rattle.std.specs.Prelude.{◌≡◌};
ghost use Rattle.core_normal.specs.Counting as spec;

use crate::leaves::{is_logical, is_reverse};
use xq_ast::leaf::{Operator, Sign};
use xq_ast::node::{Signed, Slashes, Start};
use xq_base::{Axis, Fun};

/// The nodes and the levels of a part of a Core. They mean nothing where the part isn't known, since it calls a function
/// whose size isn't known yet.
#[derive(Clone, Copy, Debug, PartialEq, Eq)]
pub struct Size {
    pub nodes: u64,
    pub levels: u64,
    pub is_known: bool,
}

/// What stands round a part: the nodes, the levels of the other parts, and how deep the part stands.
#[derive(Clone, Copy, Debug, PartialEq, Eq)]
pub struct Round {
    pub nodes: u64,
    pub levels: u64,
    pub depth: u64,
    pub is_known: bool,
}

/// A part of this many nodes and levels.
pub fn of(nodes: u64, levels: u64) -> Size
    ensures { result ≡ spec.of nodes levels }
{
    Size {
        nodes,
        levels,
        is_known: true,
    }
}

pub fn nothing() -> Size
    ensures { result ≡ spec.nothing }
{
    of(0, 0)
}

/// A part of which nothing is known yet.
pub fn unknown() -> Size
    ensures { result ≡ spec.unknown }
{
    Size {
        nodes: 0,
        levels: 0,
        is_known: false,
    }
}

pub fn leaf() -> Size
    ensures { result ≡ spec.leaf }
{
    of(1, 1)
}

/// A node over a leaf.
pub fn pair() -> Size
    ensures { result ≡ spec.pair }
{
    of(2, 2)
}

/// What decides whether an item is selected.
fn choice() -> Size
    ensures { result ≡ spec.choice }
{
    of(11, 4)
}

/// A leading slash.
pub fn root() -> Size
    ensures { result ≡ spec.root }
{
    of(7, 4)
}

/// The test of a type.
fn test() -> Size
    ensures { result ≡ spec.test }
{
    of(5, 3)
}

/// Parts beside each other.
pub fn beside(a: Size, b: Size) -> Size
    ensures { result ≡ spec.beside a b }
{
    Size {
        nodes: a.nodes.saturating_add(b.nodes),
        levels: a.levels.max(b.levels),
        is_known: a.is_known && b.is_known,
    }
}

/// A node over its parts.
pub fn over(a: Size) -> Size
    ensures { result ≡ spec.over a }
{
    Size {
        nodes: a.nodes.saturating_add(1),
        levels: a.levels.saturating_add(1),
        is_known: a.is_known,
    }
}

/// A node over two parts.
pub fn node(a: Size, b: Size) -> Size
    ensures { result ≡ spec.node a b }
{
    over(beside(a, b))
}

/// A node over one part, in a list.
pub fn over_one(a: Size) -> Size
    ensures { result ≡ spec.over_one a }
{
    node(a, nothing())
}

/// The items that a predicate selects.
pub fn selected(e: Size, q: Size) -> Size
    ensures { result ≡ spec.selected e q }
{
    let kept = node(q, choice());
    let each = node(leaf(), kept);
    node(e, node(pair(), each))
}

/// An expression for each node of another.
fn for_each_node(e: Size, m: Size) -> Size
    ensures { result ≡ spec.for_each_node e m }
{
    let body = node(pair(), beside(m, leaf()));
    let ordered = over_one(node(leaf(), body));
    node(e, node(pair(), ordered))
}

/// A choice with two parts behind its condition.
pub fn conditional(condition: Size, a: Size, b: Size) -> Size
    ensures { result ≡ spec.conditional condition a b }
{
    node(over_one(condition), beside(a, b))
}

/// What follows the binds of a loop without keys, behind its condition.
fn inside(condition: Option<Size>, body: Size) -> Size
    ensures { result ≡ spec.inside condition body }
{
    match condition {
        None => body,
        Some(condition) => conditional(condition, body, leaf()),
    }
}

/// The condition of a loop with keys, beside its binds.
fn where_part(condition: Option<Size>) -> Size
    ensures { result ≡ spec.where_part condition }
{
    match condition {
        None => nothing(),
        Some(condition) => beside(over_one(condition), nothing()),
    }
}

/// A loop with keys.
fn ordered(binds: Size, keys: Size, body: Size) -> Size
    ensures { result ≡ spec.ordered binds keys body }
{
    node(binds, beside(keys, body))
}

fn operand(operator: Operator, a: Size) -> Size
    ensures { result ≡ spec.operand operator a }
{
    if is_logical(operator) { over_one(a) } else { a }
}

/// An operator over two operands.
pub fn binary(operator: Operator, a: Size, b: Size) -> Size
    ensures { result ≡ spec.binary operator a b }
{
    let last = beside(operand(operator, b), nothing());
    node(operand(operator, a), last)
}

/// What the predicates of a step number.
pub fn counted(axis: Axis, a: Size) -> Size
    ensures { result ≡ spec.counted axis a }
{
    if is_reverse(axis) { over_one(a) } else { a }
}

/// Nothing round a part.
pub fn bare() -> Round
    ensures { result ≡ spec.bare }
{
    Round {
        nodes: 0,
        levels: 0,
        depth: 0,
        is_known: true,
    }
}

/// A node more round a part, which stands beside another part.
fn under(r: Round, a: Size) -> Round
    ensures { result ≡ spec.under r a }
{
    let depth = r.depth.saturating_add(1);
    Round {
        nodes: r.nodes.saturating_add(a.nodes).saturating_add(1),
        levels: r.levels.max(depth.saturating_add(a.levels)),
        depth,
        is_known: r.is_known && a.is_known,
    }
}

/// A part more beside a part.
fn next_to(r: Round, a: Size) -> Round
    ensures { result ≡ spec.next_to r a }
{
    Round {
        nodes: r.nodes.saturating_add(a.nodes),
        levels: r.levels.max(r.depth.saturating_add(a.levels)),
        depth: r.depth,
        is_known: r.is_known && a.is_known,
    }
}

/// A part with what stands round it.
pub fn filled(r: Round, a: Size) -> Size
    ensures { result ≡ spec.filled r a }
{
    Size {
        nodes: r.nodes.saturating_add(a.nodes),
        levels: r.levels.max(r.depth.saturating_add(a.levels)),
        is_known: r.is_known && a.is_known,
    }
}

/// A sign round an operand.
fn signed(r: Round, sign: Sign) -> Round
    ensures { result ≡ spec.signed r sign }
{
    match sign {
        Sign::Plus => under(r, leaf()),
        Sign::Minus => under(r, nothing()),
    }
}

/// Signs round an operand, the first outermost.
pub fn signed_all(signs: &[Signed], operand: Size) -> Size
    ensures { result ≡ spec.signed_all signs.now operand }
{
    let mut found = bare();
    for one in signs {
        found = signed(found, one.sign);
    }
    filled(found, operand)
}

/// A bind round what follows, or beside it among the binds of a sorted loop.
pub fn bind(is_sorted: bool, has_type: bool, r: Round, source: Size) -> Round
    ensures { result ≡ spec.bind is_sorted has_type r source }
{
    match (is_sorted, has_type) {
        (true, true) => next_to(next_to(r, source), test()),
        (true, false) => next_to(r, source),
        (false, true) => under(under(r, source), test()),
        (false, false) => under(r, source),
    }
}

/// A parameter over its argument, round what follows.
pub fn parameter(has_type: bool, r: Round, argument: Size) -> Round
    ensures { result ≡ spec.parameter has_type r argument }
{
    let value = if has_type { over(argument) } else { argument };
    under(r, value)
}

/// What a path begins with, before its first step.
pub fn start(start: Start) -> Option<Size>
    ensures { result ≡ spec.start start }
{
    match start {
        Start::Here => None,
        Start::Root(_) => Some(root()),
        Start::Deep(_) => Some(over(root())),
    }
}

/// What a step goes from, behind its slashes.
pub fn slashes(slashes: Slashes, a: Size) -> Size
    ensures { result ≡ spec.slashes slashes a }
{
    match slashes {
        Slashes::One => a,
        Slashes::Two(_) => over(a),
    }
}

/// A step without predicates.
fn plain_step(before: Option<Size>) -> Size
    ensures { result ≡ spec.plain_step before }
{
    match before {
        None => pair(),
        Some(a) => over(a),
    }
}

/// A step over what its predicates select.
fn chosen_step(before: Option<Size>, chosen: Size) -> Size
    ensures { result ≡ spec.chosen_step before chosen }
{
    match before {
        None => over_one(chosen),
        Some(a) => over_one(node(a, chosen)),
    }
}

/// An expression for each node of what stands before it, if anything does.
pub fn primary(before: Option<Size>, m: Size) -> Size
    ensures { result ≡ spec.primary before m }
{
    match before {
        None => m,
        Some(a) => for_each_node(a, m),
    }
}

/// Part of a sequence, behind what it has so far.
pub fn appended(before: Option<Size>, a: Size) -> Size
    ensures { result ≡ spec.appended before a }
{
    match before {
        None => a,
        Some(b) => node(b, a),
    }
}

/// The value of an attribute of this many parts.
pub fn value(count: usize, all: Size) -> Size
    ensures { result ≡ spec.value count all }
{
    match count {
        0 => leaf(),
        1 => all,
        _ => over(all),
    }
}

/// An attribute of a direct element.
pub fn attribute(value: Size) -> Size
    ensures { result ≡ spec.attribute value }
{
    node(beside(leaf(), nothing()), value)
}

/// A direct element over the sequence of its attributes and content.
pub fn element(all: Option<Size>) -> Size
    ensures { result ≡ spec.element all }
{
    match all {
        None => attribute(leaf()),
        Some(all) => attribute(all),
    }
}

/// A direct instruction.
pub fn instruction() -> Size
    ensures { result ≡ spec.of 3 2 }
{
    of(3, 2)
}

/// A function that takes the context item where it has no argument.
fn of_dot(count: usize, all: Size, dot: Size) -> Size
    ensures { result ≡ spec.of_dot count all dot }
{
    match count {
        0 => over_one(dot),
        _ => over(all),
    }
}

/// A call of a built-in function with so many arguments, over all of them.
pub fn built_in(fun: Fun, count: usize, all: Size) -> Size
    ensures { result ≡ spec.built_in fun count all }
{
    match fun {
        Fun::Position => leaf(),
        Fun::Last => leaf(),
        Fun::Error => leaf(),
        Fun::Root => of_dot(count, all, leaf()),
        Fun::StringOf => of_dot(count, all, leaf()),
        Fun::Name => of_dot(count, all, leaf()),
        Fun::LocalName => of_dot(count, all, leaf()),
        Fun::StringLength => of_dot(count, all, pair()),
        Fun::NormalizeSpace => of_dot(count, all, pair()),
        _ => over(all),
    }
}

/// A step along an axis with so many predicates, over what they select.
pub fn walked(count: usize, before: Option<Size>, chosen: Size) -> Size
    ensures { result ≡ spec.walked count before chosen }
{
    match count {
        0 => plain_step(before),
        _ => chosen_step(before, chosen),
    }
}

/// Whether a loop of so many keys is sorted.
pub fn is_sorted(count: usize) -> bool
    ensures { result ≡ spec.is_sorted count }
{
    match count {
        0 => false,
        _ => true,
    }
}

/// A loop of so many keys over its binds.
pub fn loop_size(
    count: usize,
    binds: Round,
    condition: Option<Size>,
    keys: Size,
    body: Size,
) -> Size
    ensures { result ≡ spec.loop_size count binds condition keys body }
{
    match count {
        0 => filled(binds, inside(condition, body)),
        _ => ordered(filled(binds, where_part(condition)), keys, body),
    }
}

/// Content behind a run of text, which counts where it is no boundary space.
pub fn after_run(is_boundary: bool, before: Option<Size>) -> Option<Size>
    ensures { result ≡ spec.after_run is_boundary before }
{
    if is_boundary {
        before
    } else {
        Some(appended(before, pair()))
    }
}

/// Content behind an expression in braces, with an empty text between two of them.
pub fn after_brace(behind: bool, before: Option<Size>, next: Size) -> Option<Size>
    ensures { result ≡ spec.after_brace behind before next }
{
    if behind {
        Some(node(appended(before, pair()), next))
    } else {
        Some(appended(before, next))
    }
}
