// What each call refuses before it looks at a word: a function for each row of the paper's table, and one for each call, which gives the
// refusal of the first row that is met, or the code. m, t and s come as numbers, as the calls take them (`encode_is_ours` and its kin);
// what passes goes on as `Shortened`.
ghost use Rattle.std.specs.Prelude.{◌≡◌, [], ◌∷◌, IfOk};
ghost use Rattle.frame.specs.Refusal.{first_met, unknown_code, too_short, high_order, wrong_count, small_buffer, large_message};
ghost use Rattle.frame.specs.Refusal.{code_refusal, header_refusal, encode_refusal, read_refusal, decode_refusal};
ghost use Rattle.frame.specs.Numbers.{number_of, IsOf};

use crate::refusal::Refusal;
use words::{Code, Shortened};

fn known_code(m: u16, t: u16) -> Result<Code, Refusal>
    ensures number { number_of result ≡ first_met (unknown_code m t ∷ []) }
    ensures code { IfOk result (λ c. (c.m ≡ m) × (c.t ≡ t)) }
{
    Code::new(m, t).ok_or(Refusal::UnknownCode)
}

fn shortened(code: Code, s: u16) -> Result<Shortened, Refusal>
    ensures number { number_of result ≡ first_met (too_short code.m code.t s ∷ []) }
    ensures shortened { IfOk result (λ x. IsOf code.m code.t s x) }
{
    if code.dimension() <= usize::from(s) {
        return Err(Refusal::TooShort);
    }
    Ok(Shortened { code, s })
}

fn high_order(order: u16) -> Result<(), Refusal>
    ensures { number_of result ≡ first_met (high_order order ∷ []) }
{
    if 3 < order {
        return Err(Refusal::HighOrder);
    }
    Ok(())
}

fn wrong_count(code: Shortened, values: usize) -> Result<(), Refusal>
    ensures { number_of result ≡ first_met (wrong_count code.code.m code.s values ∷ []) }
{
    if values != code.sent() {
        return Err(Refusal::WrongCount);
    }
    Ok(())
}

fn small_buffer(code: Shortened, room: usize) -> Result<(), Refusal>
    ensures { number_of result ≡ first_met (small_buffer code.code.m room ∷ []) }
{
    if room < code.code.bytes() {
        return Err(Refusal::SmallBuffer);
    }
    Ok(())
}

fn large_message(code: Shortened, message: u64) -> Result<(), Refusal>
    ensures { number_of result ≡ first_met (large_message code.code.m code.code.t code.s message ∷ []) }
{
    if 1 << code.free() <= message {
        return Err(Refusal::LargeMessage);
    }
    Ok(())
}

// 1 and 2, with which every call begins.
pub fn shortened_code(m: u16, t: u16, s: u16) -> Result<Shortened, Refusal>
    ensures number { number_of result ≡ code_refusal m t s }
    ensures code { IfOk result (λ x. IsOf m t s x) }
{
    let code = known_code(m, t)?;
    shortened(code, s)
}

// 1, 2, 7, 5.
pub fn encode_checks(
    m: u16,
    t: u16,
    s: u16,
    message: u64,
    room: usize,
) -> Result<Shortened, Refusal>
    ensures number { number_of result ≡ encode_refusal m t s message room }
    ensures code { IfOk result (λ x. IsOf m t s x) }
{
    let code = shortened_code(m, t, s)?;
    large_message(code, message)?;
    small_buffer(code, room)?;
    Ok(code)
}

// 1, 2, 5; 8, 9 and 10 are the reader's own.
pub fn read_checks(m: u16, t: u16, s: u16, room: usize) -> Result<Shortened, Refusal>
    ensures number { number_of result ≡ read_refusal m t s room }
    ensures code { IfOk result (λ x. IsOf m t s x) }
{
    let code = shortened_code(m, t, s)?;
    small_buffer(code, room)?;
    Ok(code)
}

// 1, 2, 3: the checks that a header alone decides.
pub fn header_checks(m: u16, t: u16, s: u16, order: u16) -> Result<Shortened, Refusal>
    ensures number { number_of result ≡ header_refusal m t s order }
    ensures code { IfOk result (λ x. IsOf m t s x) }
{
    let code = shortened_code(m, t, s)?;
    high_order(order)?;
    Ok(code)
}

// 1, 2, 3, 4, 5; 6 is the search's own.
pub fn decode_checks(
    m: u16,
    t: u16,
    s: u16,
    order: u16,
    values: usize,
    room: usize,
) -> Result<Shortened, Refusal>
    ensures number { number_of result ≡ decode_refusal m t s order values room }
    ensures code { IfOk result (λ x. IsOf m t s x) }
{
    let code = header_checks(m, t, s, order)?;
    wrong_count(code, values)?;
    small_buffer(code, room)?;
    Ok(code)
}
