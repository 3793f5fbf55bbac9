// The nine codes, also shortened, and their sizes: n, k, n - k and W.
ghost use Rattle.std.specs.Prelude.{◌≡◌, ◌*◌, ◌+◌, ◌-◌, ◌≤◌, ◌<◌, IfSome, IfNone};
ghost use Rattle.field.specs.Field.{length_of};
ghost use Rattle.codes.specs.Code.{Known, dimension_of, parity_of};
ghost use Rattle.words.specs.Packing.{bytes_of};

// k of each code: a row for each m, from 4, and in it an entry for each t, from 1.
const DIMENSIONS: [usize; 9] = [11, 7, 5, 26, 21, 16, 57, 51, 45];

// One of the nine codes.
#[derive(Clone, Copy, PartialEq, Eq)]
pub struct Code {
    pub m: u16,
    pub t: u16,
    pub ghost known: { Known m t },
}

impl Code {
    // The code that m and t name; none where m is not 4 to 6, or t not 1 to 3.
    pub fn new(m: u16, t: u16) -> Option<Code>
        ensures some { IfSome result (λ c. (c.m ≡ m) × (c.t ≡ t)) }
        ensures none { IfNone result (¬ Known m t) }
    {
        if (4..=6).contains(&m) && (1..=3).contains(&t) {
            Some(Code { m, t })
        } else {
            None
        }
    }

    // Its place in a table that has a row for each m, from 4, and in it an entry for each t, from 1.
    pub fn place(self) -> usize
        ensures place { result ≡ (self.m - 4) * 3 + (self.t - 1) }
        ensures within { result < 9 }
    {
        usize::from(self.m - 4) * 3 + usize::from(self.t - 1)
    }

    // n, the number of positions of a word.
    pub fn length(self) -> usize
        ensures length { result ≡ length_of self.m }
        ensures within { result ≤ 63 }
    {
        (1 << self.m) - 1
    }

    // k, the number of message bits of an unshortened word.
    pub fn dimension(self) -> usize
        ensures dimension { result ≡ dimension_of self.m self.t }
        ensures within { result ≤ 57 }
    {
        DIMENSIONS[self.place()]
    }

    // n - k, the number of parity bits.
    pub fn parity(self) -> usize
        ensures parity { result ≡ parity_of self.m self.t }
        ensures within { result + dimension_of self.m self.t ≤ 63 }
    {
        self.length() - self.dimension()
    }

    // W, the number of bytes of a word.
    pub fn bytes(self) -> usize
        ensures bytes { result ≡ bytes_of self.m }
        ensures within { result ≤ 8 }
    {
        match self.m {
            4 => 2,
            5 => 4,
            _ => 8,
        }
    }
}

// A code of which the highest s positions are not sent.
#[derive(Clone, Copy, PartialEq, Eq)]
pub struct Shortened {
    pub code: Code,
    pub s: u16,
    pub ghost short: { s < dimension_of code.m code.t },
}

impl Shortened {
    // n - s, the number of positions that are sent.
    pub fn sent(self) -> usize
        ensures sent { result ≡ length_of self.code.m - self.s }
        ensures within { result ≤ 63 }
    {
        self.code.length() - usize::from(self.s)
    }

    // k - s, the number of message bits that are sent.
    pub fn free(self) -> usize
        ensures free { result ≡ dimension_of self.code.m self.code.t - self.s }
        ensures within { result ≤ 57 }
    {
        self.code.dimension() - usize::from(self.s)
    }
}
