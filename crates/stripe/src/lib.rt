// The seven calls on a stripe: what they answer and leave, and the law over any list of them.
#![tactic(auto)]

ghost use Rattle.stripe.specs.Law.{LawOfCalls, MendingIsLocal};
ghost use Rattle.stripe.specs.Survival.{BlankStores, Repair, Survival, WideCode};

use code::Code;

/// The seven calls as values.
pub mod calls;

/// The law over any list of calls: it holds after each call, for every field that keeps the laws, every code
/// and everything that a store can mean.
pub fn law_of_calls()
    ensures { LawOfCalls }
{}

/// Mending a node depends on nothing but the cells that its round wants.
pub fn mending_is_local()
    ensures { MendingIsLocal }
{}

/// The law speaks of blank stores: there is one for every code and every allowance.
pub fn blank_stores()
    ensures { BlankStores }
{}

/// The law speaks of runs in which nodes are lost: a wide code survives the loss of any r + a nodes, and
/// reading and mending all are accepted after it.
pub fn survival()
    ensures { Survival }
{}

/// For every code each of the other calls is accepted in some run: a cell and a node are lost, the node is
/// mended by its round, and a symbol is changed.
pub fn repair()
    ensures { Repair }
{}

/// A small code to which every part of the law applies: three nodes, two of them for data, one data column and
/// one coded column. It survives the loss of any two nodes, and has more data nodes than coded columns.
pub fn small_code() -> Code
    ensures { WideCode 3 2 1 1 result }
{
    Code::new(3, 2, 1, 1).unwrap()
}
