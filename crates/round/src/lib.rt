// Rebuilding the cells of one node from cells of other nodes, symbol by symbol.
#![tactic(auto)]

ghost use Rattle.std.specs.Prelude.{◌≡◌, ℕ, ◌+◌, ◌<◌, ◌≤◌, Some, None};
ghost use Rattle.round.specs.Wanted.{wanted, α_power};
ghost use Rattle.round.specs.Round.{nodes_asked, EveryRound};
ghost use Rattle.round.specs.States.{given_wanting, given_holding, given_over, Begun, Gives, Takes};

use code::{Code, Refusal};
use field::Field;
use std::marker::PhantomData;

mod state;
mod whole;

pub use state::{Declined, Given, Holding, Over, Taken, Wanting};
pub use whole::rebuild;

impl<F: Field> Wanting<F> {
    /// The round for a node of the code; refusal 5 where the node is outside.
    pub fn begin(code: &Code, node: usize) -> Result<Wanting<F>, Refusal>
        ensures { Begun F.ops code.now node result }
    {
        if node >= code.nodes() {
            return Err(Refusal::Outside);
        }
        Ok(Wanting {
            code: *code,
            node,
            column: 0,
            place: 0,
            made: None,
            weight: 1,
            field: PhantomData,
        })
    }

    /// How many symbols were given.
    pub fn given(&self) -> usize
        ensures { result ≡ given_wanting self.now }
    {
        self.place + self.column * self.code.data_columns()
    }

    /// The cell that is wanted next, a pair (node, column).
    pub fn wanted(&self) -> (usize, usize)
        ensures { result ≡ wanted self.now.code self.now.node (given_wanting self.now) }
    {
        let m = self.code.data_columns();
        if self.column >= m {
            let back = self.column - m + self.place + 1;
            return (self.code.behind(self.node, back), self.place);
        }
        if self.place == 0 {
            return (self.code.ahead(self.node, self.column + 1), m);
        }
        let column = if self.place <= self.column {
            self.place - 1
        } else {
            self.place
        };
        (self.code.behind(self.node + self.column, column), column)
    }

    /// Gives the symbol of the wanted cell. A number that is no symbol of the field is declined with
    /// refusal 6, and the round comes back.
    pub fn give(mut self, symbol: u16) -> Result<Given<F>, Declined<F>>
        ensures { Gives F.ops self symbol result }
    {
        if u32::from(symbol) >= F::SIZE {
            return Err(Declined {
                refusal: Refusal::Symbol,
                round: self,
            });
        }
        let made = self.joined(symbol);
        let m = self.code.data_columns();
        if self.place + 1 == m {
            let Wanting {
                code,
                node,
                column,
                field,
                ..
            } = self;
            return Ok(Given::Holding(Holding {
                code,
                node,
                column,
                made,
                field,
            }));
        }
        self.made = Some(made);
        self.weight = raised::<F>(self.weight, self.column.saturating_sub(m));
        self.place += 1;
        Ok(Given::Wanting(self))
    }

    // What the symbols given for the present column make together with one more.
    fn joined(&self, symbol: u16) -> u16
        ensures first { self.now.made ≡ None → result ≡ symbol }
        ensures data { (made : ℕ)
            → self.now.made ≡ Some made
            → self.now.column < self.now.code.m
            → result ≡ F.ops.sub made symbol }
        ensures coded { (made : ℕ)
            → self.now.made ≡ Some made
            → self.now.code.m ≤ self.now.column
            → result ≡ F.ops.add made (F.ops.mul self.now.weight symbol) }
    {
        match self.made {
            None => symbol,
            Some(made) if self.column < self.code.data_columns() => F::difference(made, symbol),
            Some(made) => F::sum(made, F::product(self.weight, symbol)),
        }
    }
}

impl<F: Field> Holding<F> {
    /// How many symbols were given.
    pub fn given(&self) -> usize
        ensures { result ≡ given_holding self.now }
    {
        (self.column + 1) * self.code.data_columns()
    }

    /// The column whose symbol is finished.
    pub fn column(&self) -> usize
        ensures { result ≡ self.now.column }
    {
        self.column
    }

    /// The finished symbol.
    pub fn symbol(&self) -> u16
        ensures { result ≡ self.now.made }
    {
        self.made
    }

    /// Hands over the finished symbol. The round goes on with the next column, or is over.
    pub fn take(self) -> (u16, Taken<F>)
        ensures { Takes F.ops self result }
    {
        let Holding {
            code,
            node,
            column,
            made,
            field,
        } = self;
        let column = column + 1;
        if column == code.columns() {
            return (made, Taken::Over(Over { code, node, field }));
        }
        (
            made,
            Taken::Wanting(Wanting {
                code,
                node,
                column,
                place: 0,
                made: None,
                weight: 1,
                field,
            }),
        )
    }
}

impl<F: Field> Over<F> {
    /// How many symbols were given: m·(m + a).
    pub fn given(&self) -> usize
        ensures { result ≡ given_over self.now }
    {
        self.code.data_columns() * self.code.columns()
    }
}

/// How many nodes a round asks: min(2m + a − 1, n − 1). The m·(m + a) cells that it wants are all
/// different, none of them is in its own node, and of every stripe they make the node's symbols.
pub fn nodes_asked(code: &Code) -> usize
    ensures count { result ≡ nodes_asked code.now }
    ensures rounds { EveryRound }
{
    let near = 2 * code.data_columns() + code.coded_columns() - 1;
    near.min(code.nodes() - 1)
}

// A power of the generator, `by` exponents higher. That takes `by` products, at most 2; `field::power` and a product
// would take one to four.
fn raised<F: Field>(power: u16, by: usize) -> u16
    ensures { (e : ℕ) → power ≡ α_power F.ops e → result ≡ α_power F.ops (e + by) }
{
    let mut raised = power;
    for _i in 0..by {
        raised = F::product(F::GENERATOR, raised);
    }
    raised
}
