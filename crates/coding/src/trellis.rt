// A coder: eight states, and a table of what follows each by either bit.
ghost use Rattle.std.specs.Prelude.{◌≡◌, ◌<◌};
ghost use Rattle.coding.specs.States.{Table, fed, Step, Ends};

// Sixteen entries: for each state, by either bit, the next state and the parity.
static TABLE: [(u8, u8); 16] = [
    (0, 0),
    (4, 1),
    (4, 0),
    (0, 1),
    (5, 1),
    (1, 0),
    (1, 1),
    (5, 0),
    (2, 1),
    (6, 0),
    (6, 1),
    (2, 0),
    (7, 0),
    (3, 1),
    (3, 0),
    (7, 1),
];

// They follow the polynomials.
fn table() -> &'static [(u8, u8); 16]
    ensures { Table result.now }
{
    &TABLE
}

// A state holds the three bits that entered last, the newest of weight 4.
#[derive(Drop)]
pub struct Coder {
    state: usize,
    ghost eight_states: { state < 8 },
}

// A bit that was coded, and its parity, by the letters of the standard.
#[derive(Clone, Copy)]
pub struct Coded {
    pub x: u8,
    pub z: u8,
}

impl Coder {
    pub fn new() -> Coder
        ensures { result.state ≡ 0 }
    {
        Coder { state: 0 }
    }

    // Takes a bit, and gives its parity.
    pub fn code(&mut self, bit: u8) -> u8
        requires { bit < 2 }
        ensures { Step self.old.state bit self.new.state result }
    {
        // The bit's part of the place comes first: so it waits for no state, and from state to state there is a single read.
        let by_state = &table()[bit as usize..];
        let (state, parity) = by_state[2 * self.state];
        self.state = state as usize;
        parity
    }

    // D² + D³ of what entered.
    fn fed_back(&self) -> u8
        ensures { (result ≡ fed self.now.state) × (result < 2) }
    {
        ((self.state / 2 + self.state) % 2) as u8
    }

    // Codes what is fed back, so that a zero enters.
    fn return_to_zero(&mut self) -> Coded
        ensures { Step self.old.state result.x self.new.state result.z × (result.x ≡ fed self.old.state) }
    {
        let x = self.fed_back();
        Coded { x, z: self.code(x) }
    }

    // The three bits that end a coder.
    pub fn end(mut self) -> [Coded; 3]
        ensures { Ends self.state result }
    {
        let first = self.return_to_zero();
        let second = self.return_to_zero();
        let third = self.return_to_zero();
        [first, second, third]
    }
}
