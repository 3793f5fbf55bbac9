// Exponents of a, below n: a product is their sum. By Zech's logarithms z, with a^z(k) = 1 + a^k, the sum a^p + a^u is a^u a^z(p-u), and
// what a place u gives to all positions p is one run of the table. Lists have 64 entries whatever n is, since a loop whose length
// is known is compiled to steps of sixteen entries each.
ghost use Rattle.std.specs.Prelude.{◌≡◌, ◌+◌, ◌%◌, ◌<◌, ◌≤◌, length};
ghost use Rattle.ranks.specs.Places.{place_in};
ghost use Rattle.table.specs.Exponents.{Below, Outside, Positions, AddsRun, Exponents};

use ranks::Position;

// How exponents are added: there are n of them, and Zech's logarithms are among them.
#[derive(Clone, Copy)]
pub struct Logs<'a> {
    pub n: u8,
    pub zech: &'a [u8; 128],
    ghost some: { 0 < n },
    ghost short: { n ≤ 63 },
    ghost below: { Below n 128 zech.now },
}

impl<'a> Logs<'a> {
    // The sum of two exponents.
    pub fn plus(self, x: u8, y: u8) -> u8
        requires { (x < self.n) × (y < self.n) }
        ensures { (result ≡ (x + y) % self.entry.n) × (result < self.entry.n) }
    {
        let sum = x + y;
        if sum < self.n { sum } else { sum - self.n }
    }

    // The exponent of each position's own element, which is the position.
    fn positions(self) -> [u8; 64]
        ensures { Positions self.entry.n result }
    {
        let mut list = [0u8; 64];
        for p in 0..64 {
            if p < self.n {
                list[usize::from(p)] = p;
            }
        }
        list
    }

    // Adds Zech's logarithms, from one of them on.
    fn add_run(self, from: usize, list: &mut [u8; 64])
        requires { (from ≤ 63) × (length list.old ≡ 64) × Below self.n 64 list.old }
        ensures { AddsRun self.entry.n from self.entry.zech.now list.old list.new }
    {
        for p in 0..64 {
            list[p] = self.plus(list[p], self.zech[from + p]);
        }
    }

    // The exponent of each position p: that of a^p times 1 + a^(p-u) for each place u outside, but where that is 0.
    pub fn of_positions(self, outside: &[Position]) -> [u8; 64]
        requires { Outside self.n (length outside.now) (place_in outside.now) }
        ensures { Exponents self.entry.n self.entry.zech.now (place_in outside.now) (length outside.now) result }
    {
        let mut list = self.positions();
        for place in outside {
            self.add_run(usize::from(self.n - place.0), &mut list);
        }
        list
    }
}
