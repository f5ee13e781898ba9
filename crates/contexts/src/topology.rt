//! The Topology descriptor (H.248.1 section 7.1.18).
ghost use Rattle.std.specs.Prelude.{◌≡◌, false, not, OnOk, OnErr};
ghost use Rattle.mg_model.specs.Numbers.{null};
ghost use Rattle.mg_model.specs.Board.{same_term, place_of};
ghost use Rattle.mg_model.specs.Items.{first_receives, second_receives, with_topology};
ghost use Rattle.contexts.specs.BoardValue.{board_of};

use crate::board::Board;
use crate::cuts::{self, CutPair};
use mg_names::identifiers::TermId;
use mg_names::topologies::Topology;
use std::alloc::AllocError;

/// Whether a topology cuts the way to the second termination.
fn cuts_forward(topology: Topology) -> bool
    ensures { result ≡ not (second_receives topology) }
{
    match topology {
        Topology::Isolate => true,
        Topology::Oneway | Topology::Bothway => false,
    }
}

/// Whether a topology cuts the way back to the first termination.
fn cuts_backward(topology: Topology) -> bool
    ensures { result ≡ not (first_receives topology) }
{
    match topology {
        Topology::Isolate | Topology::Oneway => true,
        Topology::Bothway => false,
    }
}

impl Board {
    /// Sets the topology of two different terminations of a context.
    pub(crate) fn set_topology(
        &mut self,
        context: u32,
        t: TermId,
        u: TermId,
        topology: Topology,
    ) -> Result<(), AllocError>
        requires not_null { context ≡ null → ⊥ }
        requires first { place_of (board_of self.old) t ≡ context }
        requires second { place_of (board_of self.old) u ≡ context }
        requires differ { same_term t u ≡ false }
        ensures ok { OnOk result (board_of self.new ≡ record (board_of self.old) {
          cut = with_topology (board_of self.old).cut t u topology;
        }) }
        ensures err { OnErr result (board_of self.new ≡ board_of self.old) }
    {
        let pair = CutPair {
            first: t,
            second: u,
            forward: cuts_forward(topology),
            backward: cuts_backward(topology),
        };
        let Ok(_) = cuts::set(&mut self.cuts, self.alloc, context, pair) else {
            return Err(AllocError);
        };
        Ok(())
    }
}
