//! Constraints over any kind of vertices and values.
use jam_base::List;

/// A way of values from one vertex to another.
#[derive(Clone, Copy, Debug, Drop)]
pub struct Arrow<V> {
    pub from: V,
    pub to: V,
}

/// A function, as calls see it.
#[derive(Debug, Drop)]
pub struct Callable<V, T> {
    /// The function as a value.
    pub value: T,
    /// Where the value stands from the start.
    pub literal: V,
    pub params: List<V>,
    /// Where arguments past the parameters go.
    pub rest: V,
    pub ret: V,
}

/// A place that calls what stands at its callee.
#[derive(Debug, Drop)]
pub struct CallSite<V> {
    pub callee: V,
    pub args: List<V>,
    /// What is handed over without a place among the arguments: spreads and all after them.
    pub more: V,
    pub recv: V,
    pub res: V,
}

/// Functions, sites and flows that are solved together.
#[derive(Debug, Drop)]
pub struct System<V, T> {
    pub functions: List<Callable<V, T>>,
    pub sites: List<CallSite<V>>,
    pub flows: List<Arrow<V>>,
    /// The elements of all arrays, which natives hand to their callbacks.
    pub elem: V,
    /// The value that stands for every function of the runtime.
    pub native: T,
    /// Where `native` stands from the start.
    pub native_at: List<V>,
}
