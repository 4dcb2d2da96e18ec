//! What stands round the making of a Core: the bodies of the declared functions, and what making changes.
use crate::vars::Vars;
use core_meaning::{Core, SeqType};
use xq_ast::node::{AsResolved, Node};

/// A resolved expression.
pub type Tree = Node<AsResolved>;

/// The body of a declared function (XQuery 1.0, section 4.15), made behind no new variable: the variables
/// and types of its parameters, its Core, the type of its result, and how many new variables it has.
#[derive(Drop)]
pub struct Template {
    pub vars: Vec<u32>,
    pub types: Vec<Option<SeqType>>,
    pub body: Core,
    pub result: Option<SeqType>,
    pub made: u32,
}

/// Where new variables begin, and the bodies by the numbers of their functions, each as soon as it is made.
#[derive(Drop)]
pub struct Bodies {
    pub base: u32,
    pub templates: Vec<Option<Template>>,
}

/// What making changes: the visible variables, and how many new variables were made.
#[derive(Drop)]
pub struct State {
    pub vars: Vars,
    pub next: u32,
}
