// What the programs that try the library share: a tally of compared values, files that look random, and a slow
// elimination that shares no code with the solver.
#![tactic(auto)]

mod cells;
mod elimination;
mod sample;
mod tally;

pub use cells::{room, solve_cells};
pub use elimination::{Solved, eliminate};
pub use sample::fill_file;
pub use tally::Tally;

#[cfg(test)]
mod tests {
    use super::*;
    use code::{Code, Refusal};
    use encode::encode;
    use field::Prime;

    // The numbers that `room` asks for suffice for a small code, and the file comes back from the last node alone.
    #[test]
    fn solves_for_the_file(rt: HostRuntime) {
        let code = Code::new(4, 2, 2, 2).unwrap();
        let file = [3, 1, 4, 256];
        let mut cells = [0u16; 16];
        let written = encode::<Prime>(&code, &file, &mut cells);
        assert!(rt; written.is_ok());
        let mut held = [65536u32; 16];
        for (number, x) in held.iter_mut().zip(&cells).skip(12) {
            *number = u32::from(*x);
        }
        let mut numbers = [0u16; 80];
        assert_eq!(rt; room(&code), 80);
        let Some(solved) = solve_cells::<Prime>(&code, &held, &mut numbers).ok() else {
            assert!(rt; false, "no solution");
            return;
        };
        for (p, symbol) in file.iter().enumerate() {
            assert_eq!(rt; solved.unknown(p), Some(*symbol), "symbol {p}");
        }
        held[13] = 257;
        let refused = solve_cells::<Prime>(&code, &held, &mut numbers).err();
        assert_eq!(rt; refused, Some(Refusal::Foreign { node: 3, column: 1 }));
        let mut few = [0u16; 79];
        let refused = solve_cells::<Prime>(&code, &held, &mut few).err();
        assert_eq!(rt; refused, Some(Refusal::Work));
    }
}
