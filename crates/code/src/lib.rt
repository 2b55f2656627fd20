// The code: its record, the rules of a stripe, and what is computed from them.
#![tactic(auto)]

ghost use Rattle.std.specs.Prelude.{◌≡◌, ◌+◌, ◌-◌, ◌*◌, ◌%◌};
ghost use Rattle.code.specs.Bounds.{Made};
ghost use Rattle.code.specs.Positions.{BehindUndoesAhead, ahead, behind};

mod record;
mod refusal;

pub use record::Code;
pub use refusal::Refusal;

/// The most nodes of a code.
pub const MOST_NODES: usize = 64;

/// The most data columns of a code.
pub const MOST_DATA_COLUMNS: usize = 8;

/// The most coded columns of a code.
pub const MOST_CODED_COLUMNS: usize = 3;

/// The most columns of a code, 11.
pub const MOST_COLUMNS: usize = MOST_DATA_COLUMNS + MOST_CODED_COLUMNS;

/// The most cells of a stripe, 704.
pub const MOST_CELLS: usize = MOST_NODES * MOST_COLUMNS;

/// The most symbols of a file, 504: one node at least holds parity.
pub const MOST_SYMBOLS: usize = (MOST_NODES - 1) * MOST_DATA_COLUMNS;

impl Code {
    /// The code of these four numbers, or refusal 1 where they break the bounds.
    pub fn new(n: usize, k: usize, m: usize, a: usize) -> Result<Code, Refusal>
        ensures { Made n k m a result }
    {
        if !(2..=MOST_NODES).contains(&n) || !(1..n).contains(&k) {
            return Err(Refusal::Bounds);
        }
        if !(1..=MOST_DATA_COLUMNS).contains(&m) || !(1..=MOST_CODED_COLUMNS).contains(&a) {
            return Err(Refusal::Bounds);
        }
        if m + a > n {
            return Err(Refusal::Bounds);
        }
        Ok(Code { n, k, m, a })
    }

    /// The number of parity nodes, r = n − k.
    pub fn parity_nodes(&self) -> usize
        ensures { result ≡ self.now.n - self.now.k }
    {
        self.n - self.k
    }

    /// The number of columns, m + a.
    pub fn columns(&self) -> usize
        ensures { result ≡ self.now.m + self.now.a }
    {
        self.m + self.a
    }

    /// ⟨v + s⟩: the node s places ahead of v, counted round.
    pub fn ahead(&self, v: usize, s: usize) -> usize
        ensures { result ≡ ahead self.now.n v s }
    {
        let (v, s) = (self.counted_round(v), self.counted_round(s));
        let sum = v + s;
        if sum < self.n { sum } else { sum - self.n }
    }

    /// ⟨v − s⟩: the node s places behind v, counted round.
    pub fn behind(&self, v: usize, s: usize) -> usize
        ensures { result ≡ behind self.now.n v s }
    {
        let (v, s) = (self.counted_round(v), self.counted_round(s));
        if s <= v { v - s } else { v + self.n - s }
    }

    // ⟨v⟩. A node is counted round already, and takes no division.
    fn counted_round(&self, v: usize) -> usize
        ensures { result ≡ v % self.now.n }
    {
        if v < self.n { v } else { v % self.n }
    }

    /// The length of a file, k·m.
    pub fn file_length(&self) -> usize
        ensures { result ≡ self.now.k * self.now.m }
    {
        self.k * self.m
    }
}

/// ⟨v − s⟩ is what the rules mean by it, also where s exceeds v: the one node from which s places
/// ahead lead to ⟨v⟩.
pub fn behind_undoes_ahead()
    ensures { BehindUndoesAhead }
{}
