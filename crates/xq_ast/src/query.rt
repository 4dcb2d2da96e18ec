//! A query: what stands round its expressions (XQuery 1.0, section 4).
use crate::leaf::{Name, Variable};
use crate::node::{AsRead, AsResolved, Node, Phase};
use sqlite_items::{Boxed, Items};

/// A query: version declaration, prolog and body (XQuery 1.0, section 4).
#[derive(Drop)]
pub struct Query<P: Phase> {
    pub version: Option<Version<P::Text>>,
    pub prolog: Prolog<P::Text, P::Var, P::Type, Node<P>>,
    pub body: Boxed<Node<P>>,
}

/// XQuery 1.0, section 4.1.
#[derive(Drop)]
pub struct Version<X> {
    pub version: Name<X>,
    pub encoding: Option<Name<X>>,
}

#[derive(Drop)]
pub struct Prolog<X, V, T, E> {
    /// The offset of each `declare boundary-space strip` (XQuery 1.0, section 4.3).
    pub setters: Items<u64>,
    pub declarations: Items<Declaration<X, V, T, E>>,
}

/// A declaration, with the offset of its `declare`.
#[derive(Drop)]
pub enum Declaration<X, V, T, E> {
    /// XQuery 1.0, section 4.14.
    Var(u64, Variable<V>, Option<T>, Boxed<E>),
    /// XQuery 1.0, section 4.15.
    Fun(u64, Name<X>, Items<Param<V, T>>, Option<T>, Boxed<E>),
}

#[derive(Drop)]
pub struct Param<V, T> {
    pub var: Variable<V>,
    pub ty: Option<T>,
}

/// A query as it is read.
pub type ReadQuery = Query<AsRead>;

/// A query whose names are resolved.
pub type ResolvedQuery = Query<AsResolved>;
