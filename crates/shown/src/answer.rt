//! Answers and refusals of questions.

use names::Refusal;

/// The answer to a question, and the revision that it was asked at.
#[derive(Debug, Drop)]
pub struct Answer<T> {
    pub rev: u64,
    pub value: T,
}

/// Why a question was refused, and at which revision, where one was chosen before the refusal.
#[derive(Debug, Drop)]
pub struct Refused {
    pub why: Refusal,
    pub at: Option<u64>,
}
