//! Laws on each outcome of a build: what it links, prints and keeps; and that the overlay it prints is the least one.
//! Laws on the answers of all verbs: that there is one, and no second one.
#![tactic(auto)]

mod answers;
mod laws;

pub use answers::{
    chain_is_complete, each_has_one_answer, each_job_has_one_outcome, no_job_has_two_outcomes,
    no_words_have_two_answers,
};
pub use laws::{
    build_has_weight, build_prints_least_overlay, build_refuses_overlay, chain_keeps_the_promise,
    each_build_has_one_outcome, headline, printed_figure_is_weight,
};
