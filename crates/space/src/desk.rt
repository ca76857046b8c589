// The engine's own desk: for each priority the first and the last of its waiting line, who waits, the levels, and the pile of attraction.
ghost use Rattle.std.specs.Prelude.{◌≡◌, ◌<◌, get_or};
ghost use Rattle.space.specs.parts.Desk.{Blank, put_first, put_last, put_waits, put_level, put_piled};

// A pair of methods for each field, since there is no generic over a field, and every read and write of a cell has a leaf of its own that says once what it
// does. They take and give any number, so no cell is an `Option` or an enum. The desk is lent apart from the work space: a struct of two `&mut` needs a
// clause more in every contract (docs/DECISIONS.md, Forms). Arrays side by side, none of records: what writes one need not say that another stays. 13 KB, so
// it is not to be copied.
#[derive(Drop)]
pub struct Desk {
    pub firsts: [u16; 256],
    pub lasts: [u16; 256],
    // Whether a vertex waits: 0 no, 1 yes, 2 yes and he is new.
    pub waiting: [u16; 2048],
    pub levels: [u16; 2048],
    pub pile: [u16; 2048],
}

impl Desk {
    // All zero: vertex 0 stands first and last in every line, and nobody waits.
    pub fn blank() -> Desk
        ensures { Blank result }
    {
        Desk {
            firsts: [0; 256],
            lasts: [0; 256],
            waiting: [0; 2048],
            levels: [0; 2048],
            pile: [0; 2048],
        }
    }

    // The first of a priority's waiting line.
    pub fn first(&self, k: usize) -> u16
        requires { k < 256 }
        ensures { result ≡ get_or self.now.firsts k 0 }
    {
        self.firsts[k]
    }

    pub fn set_first(&mut self, k: usize, x: u16)
        requires { k < 256 }
        ensures { self.new ≡ put_first k x self.old }
    {
        self.firsts[k] = x;
    }

    // The last of it.
    pub fn last(&self, k: usize) -> u16
        requires { k < 256 }
        ensures { result ≡ get_or self.now.lasts k 0 }
    {
        self.lasts[k]
    }

    pub fn set_last(&mut self, k: usize, x: u16)
        requires { k < 256 }
        ensures { self.new ≡ put_last k x self.old }
    {
        self.lasts[k] = x;
    }

    // Whether a vertex waits: 0 no, 1 yes, 2 yes and he is new.
    pub fn waits(&self, v: usize) -> u16
        requires { v < 2048 }
        ensures { result ≡ get_or self.now.waiting v 0 }
    {
        self.waiting[v]
    }

    pub fn set_waits(&mut self, v: usize, x: u16)
        requires { v < 2048 }
        ensures { self.new ≡ put_waits v x self.old }
    {
        self.waiting[v] = x;
    }

    // A vertex's level.
    pub fn level(&self, v: usize) -> u16
        requires { v < 2048 }
        ensures { result ≡ get_or self.now.levels v 0 }
    {
        self.levels[v]
    }

    pub fn set_level(&mut self, v: usize, x: u16)
        requires { v < 2048 }
        ensures { self.new ≡ put_level v x self.old }
    {
        self.levels[v] = x;
    }

    // A place of the pile.
    pub fn piled(&self, i: usize) -> u16
        requires { i < 2048 }
        ensures { result ≡ get_or self.now.pile i 0 }
    {
        self.pile[i]
    }

    pub fn set_piled(&mut self, i: usize, x: u16)
        requires { i < 2048 }
        ensures { self.new ≡ put_piled i x self.old }
    {
        self.pile[i] = x;
    }
}
