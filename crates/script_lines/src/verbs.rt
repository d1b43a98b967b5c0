ghost use Rattle.std.specs.Prelude.{◌≡◌};
ghost use Rattle.script_lines.specs.Words.{words_of};
ghost use Rattle.script_lines.specs.Script.{verb_by};

use crate::acts::{
    close, day, draw, end, measure, open_batch, product, second, start_lane, stop_lane, tare,
    void_pack, weigh,
};
use crate::command::{Allowed, Verb};
use crate::questions::read_question;

/// The verb of a first word and of the words that follow it, where there is such a command.
pub fn read_verb(allowed: Allowed, word: &[u8], rest: &[u8]) -> Option<Verb>
    ensures { result ≡ verb_by allowed word.now (words_of rest.now) }
{
    if word == b"day".as_slice() {
        day(rest)
    } else if word == b"product".as_slice() {
        product(rest)
    } else if word == b"tare".as_slice() {
        tare(rest)
    } else if word == b"open".as_slice() {
        open_batch(rest)
    } else if word == b"start".as_slice() {
        start_lane(rest)
    } else if word == b"weigh".as_slice() {
        weigh(rest)
    } else if word == b"stop".as_slice() {
        stop_lane(rest)
    } else if word == b"void".as_slice() {
        void_pack(rest)
    } else if word == b"end".as_slice() {
        end(rest)
    } else if word == b"draw".as_slice() {
        draw(rest)
    } else if word == b"measure".as_slice() {
        measure(rest)
    } else if word == b"second".as_slice() {
        second(rest)
    } else if word == b"close".as_slice() {
        close(rest)
    } else if allowed.questions {
        read_question(word, rest)
    } else {
        None
    }
}
