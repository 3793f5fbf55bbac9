// Field arithmetic on elements of the fields of 2^m elements, m = 4, 5, 6 (document 01, "Fields and codes"): product, inverse and power.
// read multiplies by powers of a; no call uses the product of two elements or the inverse, since decode goes by exponents.
#![tactic(auto)]

mod tables; // the inverses

ghost use Rattle.std.specs.Prelude.{◌≡◌, ◌^◌, ◌<◌, ◌≤◌};
ghost use Rattle.field.specs.Field.{times, times_alpha, alpha_to, inverse_of, reduction};

// One of the three fields, by its m.
#[derive(Clone, Copy, PartialEq, Eq)]
pub struct Field {
    pub m: u8,
    ghost known: { (4 ≤ m) × (m ≤ 6) },
}

impl Field {
    // the field of 2^m elements
    pub fn new(m: u8) -> Field
        requires { (4 ≤ m) × (m ≤ 6) }
        ensures { result.m ≡ m }
    {
        Field { m }
    }

    // how many elements there are
    fn size(self) -> u8
        ensures { (result ≡ 2 ^ self.m) × (result ≤ 64) }
    {
        1 << self.m
    }

    // what a^m is: the polynomial that products are reduced by, below its highest power
    fn reduced(self) -> u8
        ensures { result ≡ reduction self.m }
    {
        if self.m == 5 { 0b101 } else { 0b11 }
    }

    // a times y
    pub fn double(self, y: u8) -> u8
        requires { y < 2 ^ self.m }
        ensures { result ≡ times_alpha self.m y }
    {
        let q = self.size();
        let d = y * 2;
        if d < q { d } else { (d - q) ^ self.reduced() }
    }

    // the product: the sum of a^i y over the coefficients i of x that are 1
    pub fn times(self, x: u8, y: u8) -> u8
        requires { (x < 2 ^ self.m) × (y < 2 ^ self.m) }
        ensures { result ≡ times self.m x y }
    {
        let mut sum: u8 = 0;
        let mut rest = x;
        let mut shifted = y;
        for _ in 0..self.m {
            if rest % 2 == 1 {
                sum ^= shifted;
            }
            rest /= 2;
            shifted = self.double(shifted);
        }
        sum
    }

    // the inverse, 0 for 0; a table for each field, until Req 04 takes them away; `as`, since with `usize::from` the proof did not close
    pub fn inverse(self, x: u8) -> u8
        requires { x < 2 ^ self.m }
        ensures { result ≡ inverse_of self.m x }
    {
        match self.m {
            4 => tables::INVERSES_4[x as usize],
            5 => tables::INVERSES_5[x as usize],
            _ => tables::INVERSES_6[x as usize],
        }
    }

    // a^i times y; the power itself where y is 1
    pub fn alpha_times(self, i: u8, y: u8) -> u8
        requires { y < 2 ^ self.m }
        ensures { result ≡ times self.m (alpha_to self.m i) y }
    {
        let mut moved = y;
        for _ in 0..i {
            moved = self.double(moved);
        }
        moved
    }
}

// The same by m as a plain number, for callers that hold no `Field`; the theorem inverse_meets_its_contract speaks of this `inverse`.

// a times y
pub fn double(m: u8, y: u8) -> u8
    requires { (4 ≤ m) × (m ≤ 6) × (y < 2 ^ m) }
    ensures { result ≡ times_alpha m y }
{
    Field::new(m).double(y)
}

// the product: the sum of a^i y over the coefficients i of x that are 1
pub fn times(m: u8, x: u8, y: u8) -> u8
    requires { (4 ≤ m) × (m ≤ 6) × (x < 2 ^ m) × (y < 2 ^ m) }
    ensures { result ≡ times m x y }
{
    Field::new(m).times(x, y)
}

// the inverse, 0 for 0
pub fn inverse(m: u8, x: u8) -> u8
    requires { (4 ≤ m) × (m ≤ 6) × (x < 2 ^ m) }
    ensures { result ≡ inverse_of m x }
{
    Field::new(m).inverse(x)
}

// a^i times y; the power itself where y is 1
pub fn alpha_times(m: u8, i: u8, y: u8) -> u8
    requires { (4 ≤ m) × (m ≤ 6) × (y < 2 ^ m) }
    ensures { result ≡ times m (alpha_to m i) y }
{
    Field::new(m).alpha_times(i, y)
}
