// The edges of a new node: a child and a weight for each operand that stands on the tape.
ghost use Rattle.std.specs.Prelude.{◌+◌, ◌≤◌, ◌≡◌, map, length};
ghost use Rattle.std.proofs.Math.Option.{some};
ghost use Rattle.std.proofs.lemmas.List.Edits.{sets};
ghost use Rattle.tape.specs.Handles.{operand};
ghost use Rattle.tape.specs.Machine.{most_nodes, most_edges};
ghost use Rattle.tape.specs.Calls.{edge};
ghost use Rattle.expr.specs.Inner.{edges_of, edge_said, usable_operand, allowed, edge_list};

use tape::{Operand, Refusal, Tape};

#[derive(Clone, Copy)]
pub(crate) struct Edge {
    pub child: u16,
    pub weight: f64,
}

impl Edge {
    // The edge to an operand, if it stands on the tape, where it has to be live.
    pub(crate) fn to(
        x: Operand,
        weight: f64,
        tape: Tape,
        serial: &[u64],
    ) -> Result<Option<Edge>, Refusal>
        requires { tape.length ≤ most_nodes }
        ensures { edge_said result ≡ allowed (usable_operand tape serial.now x) (edge (operand x) (some weight)) }
    {
        match x {
            Operand::Number(_) => Ok(None),
            Operand::Node(handle) => {
                handle.usable(tape, serial)?;
                Ok(Some(Edge {
                    child: handle.index as u16,
                    weight,
                }))
            }
        }
    }
}

// The edges of a node: its left operand's, then its right operand's.
#[derive(Clone, Copy)]
pub(crate) struct Edges {
    pub left: Option<Edge>,
    pub right: Option<Edge>,
}

impl Edges {
    pub(crate) const NONE: Edges = Edges {
        left: None,
        right: None,
    };

    // Writes the edges from a slot on, and answers how many they are. There is no loop in it: one whose length is not
    // known made a recording slower by a half.
    pub(crate) fn write(self, slot: usize, child: &mut [u16], partial: &mut [f64]) -> u8
        requires { (slot + most_edges ≤ length child.old) × (slot + most_edges ≤ length partial.old) }
        ensures count { result ≡ length (edge_list self) }
        ensures child_after { child.new ≡ sets child.old slot (map (λ e. e.child) (edge_list self)) }
        ensures partial_after { partial.new
            ≡ sets partial.old slot (map (λ e. e.weight) (edge_list self)) }
    {
        let mut count = 0;
        if let Some(edge) = self.left {
            child[slot] = edge.child;
            partial[slot] = edge.weight;
            count = 1;
        }
        if let Some(edge) = self.right {
            child[slot + count] = edge.child;
            partial[slot + count] = edge.weight;
            count += 1;
        }
        count as u8
    }
}
