// The encode call and the read call: for any input whatever, the paper's one answer.
#![tactic(auto)]

ghost use Rattle.std.specs.Prelude.{◌≡◌};
ghost use Rattle.frame.specs.Numbers.{number_of};
ghost use Rattle.codec.specs.Called.{reading_of};
ghost use Rattle.codec.specs.Encode.{EncodeAnswers};
ghost use Rattle.codec.specs.Faulty.{answer_of};
ghost use Rattle.codec.specs.Read.{ReadAnswers};

use crate::fault::Fault;
use crate::message::message_of;
use crate::parity::word_of;
use frame::refusal::Refusal;
use frame::{encode_checks, read_checks};

mod fault; // why read gives no message, and where
mod message; // the message of a word
pub mod parity; // the word of a message

// Writes the word of a message into the first W bytes of the buffer.
fn encoded(m: u16, t: u16, s: u16, message: u64, buf: &mut [u8]) -> Result<(), Refusal>
    ensures { EncodeAnswers m t s message buf.old (number_of result) buf.new }
{
    let code = encode_checks(m, t, s, message, buf.len())?.code;
    words::put_word(word_of(code.m, code.t, message), code.bytes(), buf);
    Ok(())
}

// Writes the word of a message into the first W bytes of the buffer, and gives 0; or gives a refusal's number.
// The answer is a number, as the calls for C hosts answer (EncodeAnswers, encode_is_ours).
pub fn encode(m: u16, t: u16, s: u16, message: u64, buf: &mut [u8]) -> u8
    ensures { EncodeAnswers m t s message buf.old result buf.new }
{
    match encoded(m, t, s, message, buf) {
        Ok(()) => 0,
        Err(refusal) => refusal.number(),
    }
}

// What read answers: 0 and the message, or a refusal's number and message 0. `at` is with 9 the lowest unsent position that holds a 1, with
// 10 the lowest power at which the word is not zero, and in every other answer 0. It is numbers, as the calls for C hosts answer
// (ReadAnswers, read_is_ours).
#[derive(Clone, Copy)]
pub struct Reading {
    pub refusal: u8,
    pub message: u64,
    pub at: u8,
}

// The message whose word stands in the first W bytes.
fn message_in(m: u16, t: u16, s: u16, bytes: &[u8]) -> Result<u64, Fault>
    ensures { answer_of result ≡ reading_of m t s bytes.now }
{
    let short = read_checks(m, t, s, bytes.len())?;
    message_of(short, words::word_in(bytes, short.code.bytes()))
}

// The message whose word stands in the first W bytes, or why there is none, and where.
pub fn read(m: u16, t: u16, s: u16, bytes: &[u8]) -> Reading
    ensures { ReadAnswers m t s bytes.now result }
{
    match message_in(m, t, s, bytes) {
        Ok(message) => Reading {
            refusal: 0,
            message,
            at: 0,
        },
        Err(fault) => fault.into(),
    }
}
