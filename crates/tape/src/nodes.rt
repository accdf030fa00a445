// The lent arrays, one for each part of a node as document 01 has them. A recording alone writes the nodes, so a pass is
// lent them to be read and the adjoints to be written. The state goes beside them by value, as document 01 has it.
ghost use Rattle.std.specs.Prelude.{◌≡◌};
ghost use Rattle.tape.specs.Machine.{shared};

// What is recorded of each node: the value, the serial and the count of edges have an entry for each node, the edges'
// children and partials two.
#[derive(Clone, Copy)]
pub struct Nodes<'a> {
    pub value: &'a [f64],
    pub serial: &'a [u64],
    pub count: &'a [u8],
    pub child: &'a [u16],
    pub partial: &'a [f64],
}

// The same arrays, lent to be written.
#[derive(Drop)]
pub struct NodesMut<'a> {
    pub value: &'a mut [f64],
    pub serial: &'a mut [u64],
    pub count: &'a mut [u8],
    pub child: &'a mut [u16],
    pub partial: &'a mut [f64],
}

impl NodesMut<'_> {
    // The same arrays, to be read.
    pub fn shared(&self) -> Nodes<'_>
        ensures { result ≡ shared self.now }
    {
        Nodes {
            value: &*self.value,
            serial: &*self.serial,
            count: &*self.count,
            child: &*self.child,
            partial: &*self.partial,
        }
    }
}
