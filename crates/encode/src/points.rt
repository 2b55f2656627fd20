// The points of the code's systems and the weights of its sums: the powers of the generator.
ghost use Rattle.encode.specs.Scratch.{PowersOf};

use crate::columns::Column;
use crate::sums::powers;
use code::MOST_NODES;
use field::Field;
use std::marker::PhantomData;

/// The powers α^0 .. α^63 of the field's generator: number j is α^j.
#[derive(Drop)]
pub(crate) struct Points<F: Field> {
    pub(crate) powers: Column,
    field: PhantomData<F>,
    ghost are: { PowersOf F.ops F.ops.α powers },
}

impl<F: Field> Points<F> {
    /// The powers, each from the one before it.
    pub(crate) fn new() -> Self {
        let mut column = [0; MOST_NODES];
        powers::<F>(F::GENERATOR, &mut column);
        Points {
            powers: column,
            field: PhantomData,
        }
    }
}
