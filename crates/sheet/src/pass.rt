// The pass: what a sheet gives for a complete valid document, and for nothing else.

ghost use Rattle.std.specs.Prelude.{◌≡◌};

// A pass: the leave to calculate one complete valid document. Only a sheet's finish makes one. It cannot
// be copied or let go, and release uses it up.
#[derive(Debug)]
pub struct Pass {
    pub(crate) root: u8,
    pub(crate) events: u32,
}

impl Pass {
    // The root and the number of accepted events.
    pub fn release(self) -> (u8, u32)
        ensures { (result.0 ≡ self.root) × (result.1 ≡ self.events) }
    {
        let Pass { root, events } = self;
        (root, events)
    }
}
