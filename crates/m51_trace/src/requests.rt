//! What the arguments ask for: options of this program, and then those of `build`.
ghost use Rattle.std.specs.Prelude.{◌≡◌, ◌≤◌, ◌+◌, IfSome};
ghost use Rattle.m51_jobs.specs.Texts.{texts};
ghost use Rattle.m51_trace.specs.Requests.{choice_of, is_word, lines_chosen, lines_for, number_at, option_at};
ghost use Rattle.m51_trace.specs.Requests.{to_last, window_of};

use m51_jobs::start_of;
use m51_steps::{Shape, Window};

// A number, and how many words are taken with it.
#[derive(Clone, Copy)]
pub(crate) struct Taken {
    number: u32,
    count: usize,
}

// What is written of the run, and how many words say so.
#[derive(Clone, Copy)]
pub(crate) struct Chosen {
    pub(crate) shape: Shape,
    pub(crate) count: usize,
}

// The word of that number is this.
fn is_word(words: &[String], at: usize, text: &str) -> bool
    ensures { result ≡ is_word (texts words.now) at text.now }
{
    match words.get(at) {
        Some(word) => word.as_str() == text,
        None => false,
    }
}

// The number of a state.
fn number_at(words: &[String], at: usize) -> Option<u32>
    ensures { result ≡ number_at (texts words.now) at }
{
    match words.get(at) {
        Some(word) => start_of(word.as_str()),
        None => None,
    }
}

// An option with its number, if this comes next, and else the number that is meant without it.
fn option_at(words: &[String], at: usize, name: &str, default: u32) -> Option<Taken>
    requires { at ≤ 3 }
    ensures value { result ≡ option_at (texts words.now) at name.now default }
    ensures few { IfSome result (λ taken. taken.count ≤ at + 2) }
{
    if is_word(words, at, name) {
        match number_at(words, at + 1) {
            Some(number) => Some(Taken {
                number,
                count: at + 2,
            }),
            None => None,
        }
    } else {
        Some(Taken {
            number: default,
            count: at,
        })
    }
}

// Lines for the states from the first to the last, with internal RAM or without.
fn lines_for(ram: bool, first: u32, last: u32) -> Shape
    ensures { result ≡ lines_for ram first last }
{
    if ram {
        Shape::Ram(Window { first, last })
    } else {
        Shape::Lines(Window { first, last })
    }
}

// None where the last comes before the first.
fn window_of(ram: bool, first: u32, last: Taken) -> Option<Chosen>
    ensures { result ≡ window_of ram first last }
{
    if last.number < first {
        None
    } else {
        Some(Chosen {
            shape: lines_for(ram, first, last.number),
            count: last.count,
        })
    }
}

// The states up to the last, where the first is known.
fn to_last(words: &[String], ram: bool, first: Taken) -> Option<Chosen>
    requires { first.count ≤ 3 }
    ensures { result ≡ to_last (texts words.now) ram first }
{
    match option_at(words, first.count, "--to", u32::MAX) {
        Some(last) => window_of(ram, first.number, last),
        None => None,
    }
}

// The states that have lines.
fn lines_chosen(words: &[String], ram: bool, at: usize) -> Option<Chosen>
    requires { at ≤ 1 }
    ensures { result ≡ lines_chosen (texts words.now) ram at }
{
    match option_at(words, at, "--from", 0) {
        Some(first) => to_last(words, ram, first),
        None => None,
    }
}

/// What is written of the run, by the options of this program, which come first. None where they are wrong.
#[tactic(auto, unfolding(crate::specs::Requests::choice_of))]
pub(crate) fn choice_of(words: &[String]) -> Option<Chosen>
    ensures { result ≡ choice_of (texts words.now) }
{
    if is_word(words, 0, "--counts") {
        Some(Chosen {
            shape: Shape::Counts,
            count: 1,
        })
    } else if is_word(words, 0, "--ram") {
        lines_chosen(words, true, 1)
    } else {
        lines_chosen(words, false, 0)
    }
}
