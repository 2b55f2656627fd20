// Which losses of whole nodes a stripe survives. Each function computes nothing: its contract is a
// theorem, for every field that keeps the laws and every code.
#![tactic(auto)]

ghost use Rattle.losses.specs.Losses.{AnyNodesLost, AnyNodesLostSharper, NoMoreNodes};

/// Any r + a nodes may be lost where n > (r + a)·max(m, a − 1), and also where only n > (r + a)·m.
pub fn any_nodes_lost()
    ensures wide { AnyNodesLost }
    ensures sharper { AnyNodesLostSharper }
{}

/// Where k > a, some r + a + 1 nodes may not be lost.
pub fn no_more_nodes()
    ensures { NoMoreNodes }
{}
