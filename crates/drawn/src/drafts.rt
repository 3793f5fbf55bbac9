// Words that were sent and sliced wrongly, made so that the sums of demand 3 meet at the bound or one below it.
ghost use Rattle.std.specs.Prelude.{◌<◌, ◌≤◌};

use crate::random::{drawn, drawn_word, next};
use exhaustive::candidates::weigh;
use exhaustive::received::value_with;
use exhaustive::sent::bound_of;
use exhaustive::setting::Setting;

// What such a word is made of: the codeword, its wrong bits, the places where a rival is another, and the sizes: those of the rival's right
// places go up to `scale`, and those of other right places start there.
#[derive(Clone, Copy)]
struct Draft {
    codeword: u64,
    wrong: u64,
    close: u64,
    sent: usize,
    scale: u64,
    seed: u64,
}

// A word, and the codeword that was sent.
#[derive(Clone, Copy)]
pub struct SentWord {
    pub word: [i8; 15],
    pub codeword: u64,
}

// One of the codewords in a list that are zero in the s unsent places: these stand first in it.
pub fn chosen(list: &[u64], s: u16, x: u64) -> u64
    requires { s ≤ 15 }
{
    if list.is_empty() {
        return 0;
    }
    list[(x as usize % list.len()) >> s]
}

// The first codeword with so many ones, from a place of the list on; 0, a codeword too, where there is none: what is drawn has to stay.
fn with_ones(list: &[u64], ones: u32, start: u64) -> u64 {
    (0..list.len() as u64)
        .map(|i| chosen(list, 0, start.wrapping_add(i)))
        .find(|w| w.count_ones() == ones)
        .unwrap_or(0)
}

// The value at position p, with a size drawn from x.
fn draft_value(draft: Draft, cap: u64, p: usize, x: u64) -> i8
    requires { p < 15 }
{
    let bit = (draft.codeword >> p) % 2;
    let scale = draft.scale % 100;
    if (draft.wrong >> p) % 2 == 1 {
        value_with(1 - bit, x % (cap % 129 + 1))
    } else if (draft.close >> p) % 2 == 1 {
        value_with(bit, x % (scale + 1))
    } else {
        value_with(bit, scale.max(x % 128))
    }
}

// The word with sizes of up to `cap` in its wrong places; what is left of `cap` by 129, so that it is a size.
fn draft_word(draft: Draft, cap: u64) -> [i8; 15] {
    drawn_word(|p, x| draft_value(draft, cap, p, x), draft.sent, draft.seed)
}

// The word with another size at the first wrong position, so that the wrong positions sum to a number, where there is such a size.
fn summing_to(mut word: [i8; 15], draft: Draft, sum: u64) -> [i8; 15]
    requires { sum ≤ 1920 }
{
    let p = draft.wrong.trailing_zeros() as usize;
    // none of the 15 is wrong
    if 15 <= p {
        return word;
    }
    let rest = weigh(&word, 0, draft.wrong).distance;
    let wanted = u64::from(word[p].unsigned_abs()) + sum;
    if rest <= wanted && wanted - rest <= 128 {
        word[p] = value_with(1 - (draft.codeword >> p) % 2, wanted - rest);
    }
    word
}

// The places of the wrong bits: among those where a rival is another, or anywhere that is sent.
fn wrong_places(rival: u64, s: u16, x: u64) -> u64
    requires { s ≤ 15 }
{
    let places = if x % 4 == 0 { x / 65536 } else { rival };
    (x / 4) & places & (32767 >> s)
}

// The largest of the small sizes: any, or so few that there are many ties.
fn scale_of(x: u64) -> u64 {
    if x % 2 == 0 { x / 2 % 100 } else { x / 2 % 6 }
}

fn drafted(setting: Setting, seed: u64) -> Draft {
    let a = next(seed);
    let b = next(a);
    let c = next(b);
    let rival = with_ones(setting.codewords, 2 * u32::from(setting.t) + 1, drawn(a));
    Draft {
        codeword: chosen(setting.codewords, setting.s, drawn(b)),
        wrong: wrong_places(rival, setting.s, drawn(c)),
        close: rival,
        sent: 15 - usize::from(setting.s),
        scale: scale_of(drawn(next(c))),
        seed: next(next(c)),
    }
}

// A sent word of a shortened code, with the sum of its wrong sizes so much below the bound, where that can be.
pub fn sent_word(setting: Setting, below: u64, seed: u64) -> SentWord {
    let draft = drafted(setting, seed);
    let codeword = draft.codeword;
    let word = draft_word(draft, 0);
    let flips = weigh(&word, 0, draft.wrong).flips;
    if flips == 0 {
        return SentWord { word, codeword };
    }
    let bound = bound_of(&word, draft.wrong, flips, setting.t);
    let word = draft_word(draft, bound / u64::from(flips));
    SentWord {
        word: summing_to(word, draft, bound.saturating_sub(below)),
        codeword,
    }
}
