// A word that is prepared: what stays for all patterns, made once a word.
#![tactic(auto)]

mod by_rank; // what is by position, by rank
mod making; // the prepared word of the values received
pub mod ones; // the set bits of a word
mod unflipped; // the symbols of the unflipped pattern

ghost use Rattle.search.specs.Plan.{Fits};
ghost use Rattle.prepare.specs.Planned.{planned};

pub use making::prepare;
use ranks::Position;
use table::Symbols;

// What is by rank has the reliable set first, then the places outside. It is passed by value, since document 01 ('Form by location') names
// it so; and it has bytes alone, since a struct that wants to be aligned is copied at each call that it is passed on to.
#[derive(Clone, Copy)]
pub struct Prepared {
    // how many ranks are reliable, and how many are outside
    pub size: u8,
    pub rows: u8,
    // the hard decisions by position, lowest byte first, and those outside by row
    pub hards: [u8; 8],
    pub sides: u8,
    // the symbols of the unflipped pattern, by row
    pub base: [u8; 6],
    // the position and the reliability of each rank: two arrays, since document 01 names the first, and bytes lie closer
    pub order: [Position; 63],
    pub weight: [u8; 63],
    pub symbols: Symbols,
    // all these numbers are in their ranges
    pub ghost fits: { Fits (planned size rows hards sides base order weight symbols) },
}
