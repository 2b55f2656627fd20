// The record of a code's four numbers.
ghost use Rattle.std.specs.Prelude.{◌≡◌, ◌+◌, ◌<◌, ◌≤◌};

/// A code over n nodes, k of them for data, with m data columns and a coded columns. Every record
/// that exists keeps the bounds below, so nothing that takes one tests them.
#[derive(Clone, Copy, Debug, PartialEq, Eq)]
pub struct Code {
    pub(crate) n: usize,
    pub(crate) k: usize,
    pub(crate) m: usize,
    pub(crate) a: usize,
    ghost nodes: { (2 ≤ n) × (n ≤ 64) },
    ghost data_nodes: { (1 ≤ k) × (k < n) },
    ghost data_columns: { (1 ≤ m) × (m ≤ 8) },
    ghost coded_columns: { (1 ≤ a) × (a ≤ 3) },
    ghost room: { m + a ≤ n },
}

impl Code {
    /// The number of nodes, n.
    pub fn nodes(&self) -> usize
        ensures { result ≡ self.now.n }
    {
        self.n
    }

    /// The number of data nodes, k.
    pub fn data_nodes(&self) -> usize
        ensures { result ≡ self.now.k }
    {
        self.k
    }

    /// The number of data columns, m.
    pub fn data_columns(&self) -> usize
        ensures { result ≡ self.now.m }
    {
        self.m
    }

    /// The number of coded columns, a.
    pub fn coded_columns(&self) -> usize
        ensures { result ≡ self.now.a }
    {
        self.a
    }
}
